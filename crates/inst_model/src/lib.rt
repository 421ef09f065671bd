//! The specification of all participants of a hub together, and its laws. There is no executable
//! code: each public function has an empty body, and its contract is a law or a worked row, so the
//! verifier proves it.
#![tactic(auto)]

pub mod laws;
pub mod rows;
