//! Jobs.
use inst_command::Ask;

/// An ask for a hub, with a number.
#[derive(Clone, Copy, Debug)]
pub struct Job {
    /// Chosen by the thread that puts the job. The desk doesn't read it.
    pub number: u32,
    /// The ask.
    pub ask: Ask,
}
