//! Tests of what runs in one thread: values, one participant's books and slot, the hub and its runs
//! of lines, and logs.
#![tactic(auto)]

#[cfg(test)]
mod comparing;
#[cfg(test)]
mod disks;
#[cfg(test)]
mod json;
#[cfg(test)]
mod ledger;
#[cfg(test)]
mod lines;
#[cfg(test)]
mod log;
#[cfg(test)]
mod logged;
#[cfg(test)]
mod order;
#[cfg(test)]
mod slot;
#[cfg(test)]
mod values;
#[cfg(test)]
mod world;
