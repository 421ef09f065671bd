//! The hub of the worked rows, for tests of other crates: its settings, steps, slots over one
//! board, and books to open from; expected answers; and a reader that returns its bytes in pieces.
#![tactic(auto)]

mod acts;
mod closing;
mod hub;
mod pieces;
mod slots;
mod steps;
mod told;

pub use acts::Act;
pub use closing::books;
pub use hub::{A, B, C, settings, settings_with};
pub use pieces::Pieces;
pub use slots::Slots;
pub use steps::{ask, confirm, fund, submit};
pub use told::{Came, End, Shown, are_entries, are_lines, is_end};
