//! What a book has of a transfer, found by a scan of its events.
use inst_base::{Fault, Ident};
use inst_command::Outcome;
use inst_journal::{Event, Journal};
use std::alloc::Global;

/// How often a book has a transfer and its outcomes, and its amount in cents.
#[derive(Clone, Copy, Debug, PartialEq, Eq)]
pub(crate) struct TransferCounts {
    pub(crate) taken: u32,
    pub(crate) forwarded: u32,
    pub(crate) cents: u64,
    pub(crate) accepted: u32,
    pub(crate) timed_out: u32,
}

impl TransferCounts {
    /// Adds what the event says of the transfer with this identifier.
    fn with(self, event: &Event, id: &Ident) -> TransferCounts {
        let TransferCounts {
            taken,
            forwarded,
            accepted,
            timed_out,
            ..
        } = self;
        match event {
            Event::Taken {
                id: other,
                cents,
                ..
            } if other == id => TransferCounts {
                taken: taken.saturating_add(1),
                cents: cents.get(),
                ..self
            },
            Event::Forwarded {
                id: other,
                cents,
                ..
            } if other == id => TransferCounts {
                forwarded: forwarded.saturating_add(1),
                cents: cents.get(),
                ..self
            },
            Event::Booked {
                id: other,
                outcome,
                ..
            } if other == id => match outcome {
                Outcome::Accepted => TransferCounts {
                    accepted: accepted.saturating_add(1),
                    ..self
                },
                Outcome::TimedOut => TransferCounts {
                    timed_out: timed_out.saturating_add(1),
                    ..self
                },
                Outcome::Rejected(_) => self,
            },
            _ => self,
        }
    }
}

/// Returns what the book has of the drill's transfer with this number. Numbers run through all
/// openings, from 1.
pub(crate) fn kept_of(
    alloc: Global,
    journal: &Journal,
    number: u32,
) -> Result<TransferCounts, Fault> {
    let text = format!(in alloc; "D{number}")?;
    let id = Ident::new(text.as_str())?;
    let mut kept = TransferCounts {
        taken: 0,
        forwarded: 0,
        cents: 0,
        accepted: 0,
        timed_out: 0,
    };
    for event in journal.events() {
        kept = kept.with(event, &id);
    }
    Ok(kept)
}

/// Returns how often the book was opened from, and the funding in it, in cents.
pub(crate) fn funded(journal: &Journal) -> (u32, u64) {
    let mut opened = 0u32;
    let mut funded = 0u64;
    for event in journal.events() {
        match event {
            Event::Opened => opened = opened.saturating_add(1),
            Event::Funded(funding) => funded = funded.saturating_add(funding.cents.get()),
            _ => {}
        }
    }
    (opened, funded)
}
