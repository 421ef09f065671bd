//! What a crew returns.
use inst_command::State;
use inst_desk::Hand;
use inst_hub::{Teller, Ticket};

/// What a crew did, with the hands and tellers that it was given.
#[derive(Drop)]
pub struct Crew {
    /// How many jobs were answered by the hub, at most 2^64 - 1.
    pub answered: u64,
    /// The state of the transfer of each ticket, read right after the call that returned the
    /// ticket.
    pub states: Vec<(Ticket, State)>,
    /// The hands, in the order of the team.
    pub hands: Vec<Hand>,
    /// The tellers, in the order of the team. The sweeper's is last, if there was one.
    pub tellers: Vec<Teller>,
}
