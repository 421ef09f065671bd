//! Tests of what threads share: boards, locks, hubs, closings, crews and drills.
#![tactic(auto)]

#[cfg(test)]
mod asking;
#[cfg(test)]
mod close;
#[cfg(test)]
mod comparing;
#[cfg(test)]
mod crew;
#[cfg(test)]
mod drill;
#[cfg(test)]
mod hub;
#[cfg(test)]
mod shared;
#[cfg(test)]
mod tellers;
