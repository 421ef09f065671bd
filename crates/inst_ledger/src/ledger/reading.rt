//! Lookups in a ledger's tables and totals. None of them scans events.
ghost use Rattle.std.specs.Prelude.{◌≡◌, ℕ, ◌<◌, ◌^◌, length, slice_get, Some, None, IfSome};
ghost use Rattle.std.specs.Prelude.{IfNone};
ghost use Rattle.inst_settings.specs.Lawful.{IsSettings};
ghost use Rattle.inst_journal.specs.Booked.{first_some, is_taken, is_forwarded, booked};
ghost use Rattle.inst_journal.specs.Keys.{fundings, has_reference};
ghost use Rattle.inst_journal.specs.Money.{reserved, position, available};
ghost use Rattle.inst_journal.specs.Opened.{live_submissions};
ghost use Rattle.inst_journal.specs.Sound.{IsSound};
ghost use Rattle.inst_ledger.specs.Beneficiary.{beneficiary_of};
ghost use Rattle.inst_ledger.specs.Beside.{funding_of};
ghost use Rattle.inst_ledger.specs.inner.Beside.{is_funding_of, is_funding_repeat};
ghost use Rattle.inst_ledger.specs.Right.{sending_in, forwarding_in, own_ids, IsRight};
ghost use Rattle.inst_transfers.specs.Held.{IsLookedUp, FindsAt, IsFound, AreApart, found_at};
ghost use Rattle.inst_transfers.specs.Held.{rows_in};
ghost use Rattle.inst_transfers.specs.Held.{state_in};
ghost use Rattle.inst_transfers.specs.State.{outcome_in};
ghost use Rattle.inst_ledger.specs.Kept.{sending_of, forwarding_of};
ghost use Rattle.inst_ledger.specs.inner.Kept.{is_sending};

use super::Ledger;
use crate::references::KeptFunding;
use crate::sending::{Forwarding, Sending};
use crate::totals::Totals;
use inst_base::{Cents, Ident, mention};
use inst_command::{Funding, Outcome, Submission};
use inst_settings::Settings;
use inst_transfers::{Found, Side, Transfer};

impl Ledger {
    /// Returns the hub's settings.
    pub fn settings(&self) -> &Settings
        ensures value { result.now ≡ self.now.book.settings }
        ensures lawful { IsSettings self.now.book.settings }
        ensures sound { IsSound self.now.book.settings self.now.book.who self.now.book.events }
    {
        &self.settings
    }

    /// Returns the participant's number.
    pub fn who(&self) -> u8
        ensures { result ≡ self.now.book.who }
    {
        self.who
    }

    /// Returns the transfer of originator `from` with identifier `id`, or `None`. Cost: one hash
    /// look-up.
    pub fn find(&self, from: u8, id: &Ident) -> Option<Found>
        ensures found { IsLookedUp self.now.table from id.now result }
        ensures right { IsRight self.now.book.who self.now.book.events (state_in self.now.table) }
        ensures sound { IsSound self.now.book.settings self.now.book.who self.now.book.events }
    {
        self.table.find(from, id)
    }

    /// Returns the transfer at this position of the table, without hashing.
    pub fn at(&self, position: usize) -> Option<Found>
        ensures found { FindsAt self.now.table position result }
        ensures right { IsRight self.now.book.who self.now.book.events (state_in self.now.table) }
    {
        self.table.at(position)
    }

    /// Returns the number of transfers in the table, which is the position of the next one.
    pub fn transfers(&self) -> usize
        ensures count { result ≡ length self.now.table.entries }
        ensures apart { AreApart (rows_in self.now.table.entries) }
        ensures right { IsRight self.now.book.who self.now.book.events (state_in self.now.table) }
    {
        self.table.len()
    }

    /// Returns the transfer with this key, without its position.
    pub(crate) fn transfer(&self, from: u8, id: &Ident) -> Option<Transfer>
        ensures found { result ≡ found_at self.now.table.entries (from, id.now) }
        ensures right { IsRight self.now.book.who self.now.book.events (state_in self.now.table) }
    {
        let found = self.table.find(from, id)?;
        Some(found.transfer)
    }

    /// Returns the participant's own live transfer at this place, without hashing.
    pub fn own_found(&self, index: u16) -> Option<Found>
        ensures none { IfNone result
            (slice_get (own_ids self.now.book.who self.now.book.events) index ≡ None) }
        ensures at { IfSome result (λ found.
            slice_get (own_ids self.now.book.who self.now.book.events) index ≡ Some found.id) }
        ensures found { IfSome result (λ found. (found.from ≡ self.now.book.who)
            × IsFound self.now.table found) }
        ensures right { IsRight self.now.book.who self.now.book.events (state_in self.now.table) }
        ensures sound { IsSound self.now.book.settings self.now.book.who self.now.book.events }
    {
        self.table.own_at(index)
    }

    /// Returns the index of the place of the participant's own live transfer with this identifier;
    /// `None` if there is none.
    pub fn own_index(&self, id: &Ident) -> Option<u16>
        ensures at { (k : ℕ) →
            slice_get (own_ids self.now.book.who self.now.book.events) k ≡ Some id.now →
            result ≡ Some k }
        ensures only { (k : ℕ) → result ≡ Some k →
            slice_get (own_ids self.now.book.who self.now.book.events) k ≡ Some id.now }
    {
        mention::<(Side, Transfer, Outcome)>();
        let found = self.table.find(self.who, id)?;
        let index = self.table.own_index(&found)?;
        Some(index as u16)
    }

    /// Returns the index of the place of the participant's own transfer that was found; `None` if
    /// it isn't live.
    ///
    /// Requires a row of this ledger's table, of an own transfer. Doesn't hash.
    pub fn found_index(&self, found: &Found) -> Option<u16>
        requires there { IsFound self.now.table found.now }
        requires own { found.now.from ≡ self.now.book.who }
        ensures at { (k : ℕ) →
            slice_get (own_ids self.now.book.who self.now.book.events) k ≡ Some found.now.id →
            result ≡ Some k }
        ensures only { (k : ℕ) → result ≡ Some k →
            slice_get (own_ids self.now.book.who self.now.book.events) k ≡ Some found.now.id }
    {
        let index = self.table.own_index(found)?;
        Some(index as u16)
    }

    /// Returns the details of the taken submission with this identifier.
    pub fn sending(&self, id: &Ident) -> Option<Sending>
        ensures { result ≡ first_some (sending_of id.now) self.now.book.events }
    {
        sending_in(&self.transfer(self.who, id))
    }

    /// Returns the details of a transfer that was forwarded to the participant.
    pub fn forwarding(&self, from: u8, id: &Ident) -> Option<Forwarding>
        ensures { result ≡ first_some (forwarding_of (from, id.now)) self.now.book.events }
    {
        forwarding_in(&self.transfer(from, id))
    }

    /// Returns the funding with this reference.
    fn funding(&self, reference: &Ident) -> Option<KeptFunding>
        ensures { result ≡ first_some (funding_of reference.now) self.now.book.events }
    {
        self.references.get(reference)
    }

    /// Returns `true` if a submission with this identifier was taken.
    pub fn is_taken(&self, id: &Ident) -> bool
        ensures { result ≡ is_taken id.now self.now.book.events }
    {
        self.sending(id).is_some()
    }

    /// Returns the beneficiary of the taken submission with this identifier.
    pub fn beneficiary_of(&self, id: &Ident) -> Option<u8>
        ensures { result ≡ beneficiary_of id.now self.now.book.events }
    {
        let sending = self.sending(id)?;
        Some(sending.to)
    }

    /// Returns `true` if this transfer was forwarded to the participant.
    pub fn is_forwarded(&self, from: u8, id: &Ident) -> bool
        ensures { result ≡ is_forwarded from id.now self.now.book.events }
    {
        self.forwarding(from, id).is_some()
    }

    /// Returns the outcome that the participant has booked for this transfer.
    pub fn booked(&self, from: u8, id: &Ident) -> Option<Outcome>
        ensures { result ≡ booked from id.now self.now.book.events }
    {
        outcome_in(&self.transfer(from, id))
    }

    /// Returns `true` if a fund or defund command with this reference was kept.
    pub fn has_reference(&self, reference: &Ident) -> bool
        ensures { result ≡ has_reference reference.now self.now.book.events }
    {
        self.funding(reference).is_some()
    }

    /// Returns `true` if this funding, of this kind and amount, was kept.
    pub(crate) fn is_funding_repeat(&self, is_defunding: bool, funding: &Funding) -> bool
        ensures { result ≡ is_funding_repeat is_defunding funding.now self.now.book.events }
    {
        let kept = self.references.get(&funding.reference);
        is_funding_of(is_defunding, funding.cents, kept)
    }

    /// Returns the number of the participant's own live transfers.
    pub fn live_submissions(&self) -> usize
        ensures { result ≡ live_submissions self.now.book.who self.now.book.events }
    {
        self.table.live()
    }

    /// Returns the number of fund and defund commands since the last opening.
    pub fn fundings(&self) -> usize
        ensures { result ≡ fundings self.now.book.events }
    {
        self.fundings
    }

    /// Returns the reserved amount in cents: own transfers without a booked outcome.
    pub fn reserved(&self) -> u128
        ensures value { result ≡ reserved self.now.book.events }
        ensures within { result < 2 ^ 64 }
    {
        self.table.reserved()
    }

    /// Returns the position in cents: net funding and credits, less debits.
    pub fn position(&self) -> u128
        ensures value { result ≡ position self.now.book.events }
        ensures within { result < 2 ^ 64 }
    {
        let Totals { funded, defunded } = self.totals;
        funded + self.table.credits() - defunded - self.table.debits()
    }

    /// Returns the available amount in cents: the position less the reserved amount, or 0 if more
    /// is reserved.
    pub fn available(&self) -> u128
        ensures { result ≡ available self.now.book.events }
    {
        self.position().saturating_sub(self.reserved())
    }
}

/// Returns the details of an own transfer.
pub(crate) fn sending_in(found: &Option<Transfer>) -> Option<Sending>
    ensures { result ≡ sending_in found.now }
{
    match found {
        Some(
            Transfer {
                cents,
                side: Side::Own { to, stamp },
                ..
            },
        ) => Some(Sending {
            to: *to,
            cents: *cents,
            stamp: *stamp,
        }),
        _ => None,
    }
}

/// Returns the details of a forwarded transfer.
pub(crate) fn forwarding_in(found: &Option<Transfer>) -> Option<Forwarding>
    ensures { result ≡ forwarding_in found.now }
{
    match found {
        Some(
            Transfer {
                cents,
                side: Side::Other { deadline },
                ..
            },
        ) => Some(Forwarding {
            cents: *cents,
            deadline: *deadline,
        }),
        _ => None,
    }
}

/// Returns the booked outcome of a transfer.
pub(crate) fn outcome_in(found: &Option<Transfer>) -> Option<Outcome>
    ensures { result ≡ outcome_in found.now }
{
    match found {
        Some(transfer) => transfer.outcome,
        None => None,
    }
}

/// Returns `true` if these are the details of the submission.
pub(crate) fn is_sending(found: Option<Sending>, submission: &Submission) -> bool
    ensures { result ≡ is_sending submission.now found }
{
    match found {
        Some(sending) => {
            sending.to == submission.to
                && sending.cents == submission.cents
                && sending.stamp == submission.stamp
        }
        None => false,
    }
}

/// Returns `true` if the funding found has this kind and amount.
fn is_funding_of(is_defunding: bool, cents: Cents, found: Option<KeptFunding>) -> bool
    ensures { result ≡ is_funding_of is_defunding cents found }
{
    match found {
        Some(funding) => funding.is_defunding == is_defunding && funding.cents == cents,
        None => false,
    }
}
