//! Workplaces.
use inst_desk::Desk;
use inst_hub::Hub;

/// What all threads of a crew share.
#[derive(Drop)]
pub struct Workplace<'a, G> {
    /// The hub that they call.
    pub hub: &'a Hub,
    /// The desk that they take jobs from.
    pub desk: &'a Desk,
    /// The gate, passed once in each call.
    pub gate: &'a G,
}
