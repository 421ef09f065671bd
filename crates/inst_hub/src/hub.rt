//! The hub.
ghost use Rattle.std.specs.Prelude.{◌≡◌};
ghost use Rattle.inst_settings.specs.Settings.{participants};
ghost use Rattle.inst_cell.specs.Held.{settings_of};
ghost use Rattle.inst_row.specs.Row.{key_of, size};

mod calling;
mod closing;
mod meeting;
mod next_opening;
mod opening;
mod sweeping;

use crate::initial_state::InitialState;
use crate::lock_law::LockLaw;
pub use closing::TakeFault;
use inst_journal::Event;
use inst_participant::Participant;
use inst_row::LockRow;
use inst_settings::Settings;

/// A hub on many threads. Threads share it by reference, each with its own [`Teller`].
///
/// No call holds two locks. [`call`](Hub::call) waits for the asker's lock, and then for the other
/// side's if there is a follow-up; [`sweep`](Hub::sweep) waits for its participant's lock. While
/// the hub is open, a position or statement is read by a `Query` through `call`, and a history
/// can't be read.
///
/// ```text
/// let (hub, mut tellers) = Hub::open(alloc, settings, 2)?;
/// let mut teller = tellers.pop().unwrap();           // keep all tellers: closing requires each
/// let (reply, ticket) = hub.call(rt, &mut teller, &ask)?;
/// if let Some(ticket) = &ticket {
///     teller.peek(ticket);      // the transfer's state; takes no lock
/// }
/// ```
#[derive(Drop)]
pub struct Hub {
    settings: Settings,
    pub(crate) row: LockRow<Box<Participant>, Event, InitialState, LockLaw>,
    pub ghost sized: { size row ≡ participants settings },
    pub ghost same: { settings_of (key_of row).words.value ≡ settings },
}

impl Hub {
    /// Returns the settings that the hub was opened with.
    pub fn settings(&self) -> &Settings
        ensures { result.now ≡ self.now.settings }
    {
        &self.settings
    }
}
