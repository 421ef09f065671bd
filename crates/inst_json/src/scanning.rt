//! Plain lines, which are flat objects of plain texts and whole numbers: read in one pass, without
//! a tree.

mod broken;
mod fields;
mod form;
mod line;
mod member;
mod parts;

pub use fields::{Field, Fields};
pub use form::Form;
pub use line::scan;
