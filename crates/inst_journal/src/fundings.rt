//! Fund and defund commands.
ghost use Rattle.std.specs.Prelude.{◌≡◌};
ghost use Rattle.inst_journal.specs.Reply.{is_new_funding, fund, defund};

use crate::Event;
use crate::handle::Handled;
use crate::keys::{fundings, has_reference, is_defund_repeat, is_fund_repeat};
use crate::sums::available;
use inst_base::{Fault, Ident};
use inst_command::{Funding, Reply};
use inst_settings::Settings;

/// Raises the net funding. Refuses `Duplicate` if the reference is kept with other contents, then
/// `Full` if all fundings of the opening are used.
pub(crate) fn fund(
    settings: &Settings,
    events: &[Event],
    funding: &Funding,
) -> Result<Handled, Fault>
    ensures { result ≡ fund settings.now events.now funding.now }
{
    let is_repeat = is_fund_repeat(events, funding);
    let is_new = is_new_funding(settings, events, &funding.reference, is_repeat)?;
    let event = Event::Funded(*funding);
    Ok(Handled {
        reply: Reply::Done {
            reference: funding.reference,
        },
        kept: is_new.then_some(event),
    })
}

/// Lowers the net funding. Refuses as [`fund`] does, then `Shortage` above what is available.
pub(crate) fn defund(
    settings: &Settings,
    events: &[Event],
    funding: &Funding,
) -> Result<Handled, Fault>
    ensures { result ≡ defund settings.now events.now funding.now }
{
    let is_repeat = is_defund_repeat(events, funding);
    let is_new = is_new_funding(settings, events, &funding.reference, is_repeat)?;
    if is_new && u128::from(funding.cents.get()) > available(events) {
        return Err(Fault::Shortage);
    }
    let event = Event::Defunded(*funding);
    Ok(Handled {
        reply: Reply::Done {
            reference: funding.reference,
        },
        kept: is_new.then_some(event),
    })
}

/// Returns `true` for a new fund or defund command, `false` for a repeat; refuses `Duplicate`, then
/// `Full`.
fn is_new_funding(
    settings: &Settings,
    events: &[Event],
    reference: &Ident,
    is_repeat: bool,
) -> Result<bool, Fault>
    ensures { result ≡ is_new_funding settings.now events.now reference.now is_repeat }
{
    if is_repeat {
        return Ok(false);
    }
    if has_reference(events, reference) {
        return Err(Fault::Duplicate);
    }
    if fundings(events) >= usize::from(settings.fundings()) {
        return Err(Fault::Full);
    }
    Ok(true)
}
