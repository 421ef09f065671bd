//! The settings of a hub, checked once.
#![tactic(auto)]

mod codes;
mod finder;
mod hub_parameters;
mod participants;
mod ranges;
mod settings;

pub use hub_parameters::HubParameters;
pub use participants::parse_codes;
pub use ranges::{
    MOST_AHEAD, MOST_BASE, MOST_CEILING, MOST_FUNDINGS, MOST_LIMIT, MOST_PARTICIPANTS, MOST_PLACES,
};
pub use settings::Settings;
