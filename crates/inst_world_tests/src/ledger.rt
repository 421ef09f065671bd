//! Worked rows of one participant's books. The ledger answers each row, and so do the plain
//! functions on the same events.
mod answering;
pub(crate) mod asked;
mod beneficiary;
mod cases;
mod journals;
mod openings;
mod originator;
mod refusals;
mod statements;
mod told;
