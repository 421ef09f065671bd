//! Worker threads over a hub: each takes jobs from a desk and puts their asks to the hub until the
//! desk is empty. Another thread can sweep a participant meanwhile.
#![tactic(auto)]

mod crew;
mod gathering;
mod meeting;
mod running;
mod shift;
mod sweep;
mod team;
mod worker;
mod workplace;

pub use crew::Crew;
pub use running::run_crew;
pub use sweep::Sweep;
pub use team::Team;
pub use workplace::Workplace;
