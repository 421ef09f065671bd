//! Details of a transfer as its submission and its forwarding bring them.
use inst_base::{Cents, Moment};

/// The details of a taken submission: beneficiary, amount and time stamp.
#[derive(Clone, Copy)]
pub struct Sending {
    pub to: u8,
    pub cents: Cents,
    pub stamp: Moment,
}

/// The details of a forwarded transfer: amount and deadline.
#[derive(Clone, Copy)]
pub struct Forwarding {
    pub cents: Cents,
    pub deadline: Moment,
}
