//! Teams.
use crate::sweep::Sweep;
use inst_desk::Hand;
use inst_hub::Teller;

/// Who works in a crew: a thread for each hand, and one more if there is a sweep.
#[derive(Drop)]
pub struct Team {
    /// The hands of the desk.
    pub hands: Vec<Hand>,
    /// The tellers, one for each hand, in the same order.
    pub tellers: Vec<Teller>,
    /// The sweep, if there is one.
    pub sweep: Option<Sweep>,
}
