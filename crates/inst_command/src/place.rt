//! Places of live transfers.

/// A place of the originator `owner`: that of its `index`-th live transfer, counted from 0.
#[derive(Clone, Copy, Debug, PartialEq, Eq)]
pub struct Place {
    pub owner: u8,
    pub index: u16,
}
