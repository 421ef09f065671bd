//! A hub that doesn't have the disk of its log yet.
ghost use Rattle.std.specs.Prelude.{◌≡◌, IfOk, IfSome};
ghost use Rattle.inst_settings.specs.Lawful.{IsSettings};
ghost use Rattle.inst_lines.specs.Answering.{new_past};
ghost use Rattle.inst_world.specs.NextOpening.{CanOpenFrom};
ghost use Rattle.inst_chain.specs.Chain.{IsHexadecimal};
ghost use Rattle.inst_logged.specs.Header.{header, header_from, CanBeginFrom};
ghost use Rattle.inst_logged.specs.Answering.{opened_from};
ghost use Rattle.inst_logged.specs.Logged.{IsUnbegun};
ghost use Rattle.inst_logged.specs.NewHub.{IsNewHub};

use super::LoggedHub;
use crate::intake::Intake;
use crate::{Heading, LineAnswers, OpeningBooks, Version, first_batch, first_batch_from};
use inst_lines::Mode;
use inst_log::{Log, Recorder};
use inst_settings::Settings;
use sqlite_disk::Disk;
use std::alloc::{AllocError, Global};

/// A hub that has answered nothing, without the disk of its log. Its slots and places are
/// allocated.
#[derive(Drop)]
pub struct NewHub {
    pub(super) answers: LineAnswers,
    pub(super) intake: Intake,
    pub(super) version: Version,
    /// The first lines of its log.
    pub(super) heading: Heading,
}

impl NewHub {
    /// Returns a hub that opens for the first time, with a log of this version.
    ///
    /// For a file that may already be a log, use [`of_log`](NewHub::of_log).
    ///
    /// # Errors
    ///
    /// [`AllocError`] if the hub or its first lines can't be allocated.
    pub fn open(
        alloc: Global,
        version: Version,
        mode: Mode,
        settings: &Settings,
    ) -> Result<NewHub, AllocError>
        ensures { IfOk result
            (IsNewHub version mode (new_past settings.now) (header version mode settings.now)) }
    {
        let intake = Intake::new(alloc)?;
        let heading = first_batch(alloc, version, mode, settings)?;
        let answers = LineAnswers::open(alloc, mode, settings)?;
        Ok(NewHub {
            answers,
            intake,
            version,
            heading,
        })
    }

    /// Returns a hub that opens from a copy of these books, with a log of this version.
    ///
    /// Requires journals from which a hub with these settings can open (`CanOpenFrom`), as
    /// [`LoggedHub::close`] returns them, and a digest of lower-case hexadecimal digits if there is
    /// one ([`Digest::is_hexadecimal`](inst_chain::Digest::is_hexadecimal)).
    ///
    /// # Errors
    ///
    /// [`AllocError`] if the hub, the copies or its first lines can't be allocated.
    pub fn open_from(
        alloc: Global,
        version: Version,
        mode: Mode,
        settings: &Settings,
        books: OpeningBooks<'_>,
    ) -> Result<NewHub, AllocError>
        requires journals { CanOpenFrom settings.now books.journals.now }
        requires digest { IfSome books.previous IsHexadecimal }
        ensures new { IfOk result
            (IsNewHub version mode (opened_from settings.now books.entry.journals.now)
            (header_from version mode settings.now books.entry.journals.now
            books.entry.previous)) }
        // Then a start finds the log by its first lines.
        ensures again { IfOk result (λ _. IsSettings settings.now →
            CanBeginFrom settings.now books.entry.journals.now) }
    {
        let intake = Intake::new(alloc)?;
        let heading = first_batch_from(alloc, version, mode, settings, books)?;
        let answers = LineAnswers::open_from(alloc, mode, settings, books.journals)?;
        Ok(NewHub {
            answers,
            intake,
            version,
            heading,
        })
    }

    /// Returns the hub with the disk of its log.
    ///
    /// Requires a hub that has read no line. Use the disk of a file that was just opened;
    /// [`LoggedHub::into_parts`] returns it.
    pub fn with_disk<D: Disk + Drop>(self, alloc: Global, disk: D) -> LoggedHub<D>
        requires unbegun { IsUnbegun self.version self.heading.batch.items self.heading.marker
            self.intake }
        ensures unbegun { IsUnbegun result.version result.header.items result.marker result.intake }
        ensures version { result.version ≡ self.version }
        ensures header { result.header ≡ self.heading.batch }
        ensures answers { result.recorder.answers ≡ self.answers }
        ensures disk { result.recorder.log.disk ≡ disk }
    {
        let NewHub {
            answers,
            intake,
            version,
            heading,
        } = self;
        let Heading { batch, marker } = heading;
        LoggedHub {
            recorder: Recorder {
                log: Log { disk, end: 0 },
                answers,
                out: Vec::new(alloc),
            },
            intake,
            batch: Vec::new(alloc),
            version,
            header: batch,
            marker,
            size: 0,
        }
    }
}
