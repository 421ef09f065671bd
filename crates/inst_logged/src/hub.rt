//! A hub with a log, and its whole runs.
ghost use Rattle.std.specs.Prelude.{◌≡◌, ◌≤◌, ◌^◌, [], List, ℕ, length, IsTrue, IfOk, IfErr, OnOk};
ghost use Rattle.std.specs.Prelude.{MatchBool};
ghost use Rattle.std.specs.Io.KnownBytes.{IsAtEnd};
ghost use Rattle.inst_log.specs.Disks.{HasKeptFaith};
ghost use Rattle.inst_log.specs.Layout.{recovered_lines, blocks};
ghost use Rattle.inst_log.specs.Log.{IsSettled};
ghost use Rattle.inst_log.specs.inner.Serving.{TellsFront};
ghost use Rattle.inst_chain.specs.Chain.{kept_said};
ghost use Rattle.inst_lines.specs.Answering.{HubPast};
ghost use Rattle.inst_world.specs.HasRun.{world_settings};
ghost use Rattle.inst_logged.specs.Input.{shortened_line};
ghost use Rattle.inst_logged.specs.Intake.{line_part};
ghost use Rattle.inst_logged.specs.Answering.{SaysLines, told_count};
ghost use Rattle.inst_logged.specs.Marking.{IsIntact, IsIntactBy};
ghost use Rattle.inst_logged.specs.Running.{disk_of, file_of, StopsBy, HasGone};
ghost use Rattle.inst_logged.specs.Running.{HasNoRoom, SurvivesEachCrash, IsReadyHub, RunsThrough};
ghost use Rattle.inst_logged.specs.Running.{StaysAlike};
ghost use Rattle.inst_logged.specs.Streams.{streams};
ghost use Rattle.inst_logged.specs.Logged.{AreReplies, unsent_replies_at};
ghost use Rattle.inst_logged.specs.inner.Failing.{FailsUnrefused};
ghost use Rattle.inst_logged.specs.inner.Logged.{Turned, Ended, Came, IsInput, CameIn, ServedOn};
ghost use Rattle.inst_logged.specs.inner.Logged.{KeptOn};
ghost use Rattle.inst_logged.specs.inner.Reopening.{Reopens};
ghost use Rattle.inst_logged.specs.inner.Serving.{IsServing};

mod closing;
mod examining;
mod finding;
mod measuring;
mod new_hub;
mod replaying;

use crate::intake::Intake;
use crate::marking::mark_batch;
use crate::{LineAnswers, LoggedError, Version};
use examining::{LogFindings, examine};
use inst_agenda::Runner;
use inst_chain::{Digest, Marker};
use inst_log::{Log, LogError, Recorder};
use inst_settings::Settings;
use measuring::{open_measured, serve_measured};
pub use new_hub::NewHub;
use replaying::start_again;
use sqlite_disk::Disk;
use std::io::{Read, Write};

/// A hub in one thread that syncs each line to its log before it writes a byte of the line's reply.
#[derive(Drop)]
pub struct LoggedHub<D: Disk> {
    recorder: Recorder<D, LineAnswers>,
    intake: Intake,
    batch: Vec<u8>,
    version: Version,
    /// The first lines of the log, as a batch.
    header: Vec<u8>,
    /// The marker that makes the log's next mark.
    marker: Marker,
    /// The size of the log's file in bytes after the last write.
    size: usize,
}

impl<D: Disk + Drop> LoggedHub<D> {
    /// Returns the hub's settings.
    pub fn settings(&self) -> &Settings
        ensures { result.now ≡ world_settings self.now.recorder.answers.runner.world }
    {
        self.recorder.answers.runner.settings()
    }

    /// Returns the hub's runner and the disk of its log. Also after an error, to take the disk
    /// back.
    pub fn into_parts(self) -> (Runner, D)
        ensures runner { result.0 ≡ self.recorder.answers.runner }
        ensures disk { result.1 ≡ self.recorder.log.disk }
    {
        let LoggedHub { recorder, .. } = self;
        let Recorder { log, answers, .. } = recorder;
        let Log { disk, .. } = log;
        let LineAnswers { runner, .. } = answers;
        (runner, disk)
    }

    /// Opens the log, or makes it in a new file, and answers its lines again; then answers each
    /// line of the input after it is synced.
    ///
    /// Of the replies to the log's lines those to the first `told` lines aren't written again;
    /// `None` writes none of them. The log's marks are verified before anything else is done. The
    /// log is read twice, in pieces. Blocks on the reader and the writer.
    ///
    /// Requires a hub that has run nothing, over a disk whose file was just opened.
    ///
    /// # Errors
    ///
    /// The log is refused; nothing was read of the input, no reply was written, and the log is
    /// unchanged:
    ///
    /// - `Damaged` if a mark or the end of the log is wrong.
    /// - `Log(OtherSettings)` if the log begins with other lines than this hub's: another version
    ///   or mode, other settings or books.
    /// - `Log(NoLog)` if the file has no line, and isn't new or what a crash may leave of a new
    ///   log.
    /// - `Log(Told)` if the log has fewer than `told` lines.
    /// - `OtherDigest` if the log has no mark with the `wanted` digest.
    ///
    /// The run stops. The log has every line of which a reply byte was written, if the disk gave no
    /// wrong answer:
    ///
    /// - `Changed` if the log's file has another size than after the last write: another program
    ///   changed it.
    /// - `Read` if the reader fails.
    /// - `Log(Write)` if the writer fails; the log has the lines, and a prefix of their replies was
    ///   written.
    /// - `Log(Disk)` if the disk fails, `Log(Full)` if the log has 2^62 bytes or the input 2^64 -
    ///   1, `Log(Memory)` if an allocation fails.
    ///
    /// After any error take the disk back with [`into_parts`](LoggedHub::into_parts), open its file
    /// again, and make a new hub.
    pub fn run<R: Read, W: Write>(
        &mut self,
        told: Option<u64>,
        wanted: Option<Digest>,
        reader: &mut R,
        writer: &mut W,
    ) -> Result<(), LoggedError>
        requires ready { IsReadyHub D.Disk self.old }
        ensures end { OnOk result (IsAtEnd (R.remaining reader.new)) }
        ensures ok { OnOk result (HasKeptFaith D.Disk (disk_of self.new) →
            RunsThrough D.Disk told wanted self.old self.new
            (streams R.Read W.Write reader.old reader.new writer.old writer.new)) }
        // Holds at `Ok` and at `Err`. docs/promises.md argues for a crash within the call.
        ensures any_moment { HasKeptFaith D.Disk (disk_of self.new) →
            SurvivesEachCrash D.Disk told self.old self.new
            (streams R.Read W.Write reader.old reader.new writer.old writer.new) }
        ensures err { IfErr result (StopsBy D.Disk told wanted self.old self.new
            ((reader.new ≡ reader.old) × (writer.new ≡ writer.old))
            (HasNoRoom D.Disk self.new (R.remaining reader.old) (R.remaining reader.new))) }
        ensures clean { HasKeptFaith D.Disk (disk_of self.new) →
            HasKeptFaith D.Disk (disk_of self.old) }
    {
        self.reopen(told, wanted, writer)?;
        self.serve_all(reader, writer)
    }

    /// Opens the log with its first lines, and writes the replies to its lines after the first
    /// `told`.
    fn reopen<W: Write>(
        &mut self,
        told: Option<u64>,
        wanted: Option<Digest>,
        writer: &mut W,
    ) -> Result<(), LoggedError>
        requires ready { IsReadyHub D.Disk self.old }
        ensures ok { OnOk result (IsTrue (D.Disk.is_usable (disk_of self.new))
            × (HasKeptFaith D.Disk (disk_of self.new)
            → Reopens D.Disk told wanted self.old self.new (W.contents writer.old)
            (W.contents writer.new))) }
        ensures any_moment { HasKeptFaith D.Disk (disk_of self.new) →
            StaysAlike D.Disk self.old self.new }
        ensures part { HasKeptFaith D.Disk (disk_of self.new) → (past : HubPast) →
            HasGone self.old past
            → TellsFront
            (AreReplies (unsent_replies_at self.old.recorder.answers.mode past
            (kept_said self.old.header.items (file_of D.Disk self.old))
            (told_count told (kept_said self.old.header.items (file_of D.Disk self.old))))) []
            (W.contents writer.old) (W.contents writer.new) }
        ensures err { IfErr result (StopsBy D.Disk told wanted self.old self.new (writer.new
            ≡ writer.old) ⊥) }
        ensures same { (self.new.intake ≡ self.old.intake) × (self.new.version ≡ self.old.version)
            × (self.new.recorder.answers.mode ≡ self.old.recorder.answers.mode) }
        ensures clean { HasKeptFaith D.Disk (disk_of self.new) →
            HasKeptFaith D.Disk (disk_of self.old) }
    {
        let alloc = *self.batch.allocator();
        let recorder = &mut self.recorder;
        let header = self.header.as_slice();
        let found = examine(
            alloc,
            self.version,
            header,
            &self.marker,
            &mut recorder.log.disk,
            wanted,
        )?;
        let LogFindings { extent, marker } = found;
        let start = recorder.log.inspect(alloc, header, &extent)?;
        start_again(recorder, header, start, told, writer)?;
        self.size = open_measured(&mut recorder.log, header, &extent, start)?;
        match marker {
            Some(marker) => {
                self.marker = marker;
                Ok(())
            }
            None => Ok(()),
        }
    }

    /// Answers each line of the input after it is synced.
    fn serve_all<R: Read, W: Write>(
        &mut self,
        reader: &mut R,
        writer: &mut W,
    ) -> Result<(), LoggedError>
        requires ready { IsServing D.Disk self.old }
        requires nothing { line_part self.old.intake ≡ [] }
        ensures ok { OnOk result
            (ServedOn D.Disk.seen D.Disk.may_leave (HasKeptFaith D.Disk (disk_of self.new))
            (IsInput (R.remaining reader.old) (R.remaining reader.new))
            self.old.recorder self.new.recorder (W.contents writer.old) (W.contents writer.new)) }
        ensures any_moment { HasKeptFaith D.Disk (disk_of self.new)
            → KeptOn (D.Disk.may_leave (disk_of self.new))
            (CameIn (R.remaining reader.old) (R.remaining reader.new))
            (SaysLines self.old.recorder.answers.mode self.old.recorder.answers.runner)
            (recovered_lines (file_of D.Disk self.old)) (W.contents writer.old)
            (W.contents writer.new) }
        ensures intact { ((d : D) → IsTrue (D.Disk.is_mixing d)) →
            HasKeptFaith D.Disk (disk_of self.new)
            → (c : List ℕ) → D.Disk.may_leave (disk_of self.new) c →
            IsIntact self.old.version c }
        ensures intact_now { OnOk result (HasKeptFaith D.Disk (disk_of self.new)
            → IsIntactBy self.old.version (file_of D.Disk self.new) self.new.marker) }
        ensures failure { FailsUnrefused D.Disk (disk_of self.old) (disk_of self.new)
            (HasNoRoom D.Disk self.new (R.remaining reader.old) (R.remaining reader.new))
            (IsSettled D.Disk.seen D.Disk.may_leave self.new.recorder.log) result }
        ensures clean { HasKeptFaith D.Disk (disk_of self.new) →
            HasKeptFaith D.Disk (disk_of self.old) }
    {
        for _ in 0..u64::MAX {
            if !self.turn(reader, writer)? {
                return Ok(());
            }
        }
        Err(LoggedError::Log(LogError::Full))
    }

    /// Reads once and answers the lines that end there, and at the end of the input the last line
    /// too. Returns `true` if the input may have more.
    fn turn<R: Read, W: Write>(
        &mut self,
        reader: &mut R,
        writer: &mut W,
    ) -> Result<bool, LoggedError>
        requires ready { IsServing D.Disk self.old }
        ensures ok { (part : List ℕ) → line_part self.old.intake ≡ shortened_line part →
            IfOk result (λ more.
            ServedOn D.Disk.seen D.Disk.may_leave (HasKeptFaith D.Disk (disk_of self.new))
            (λ lines.
            MatchBool more
            (Turned part self.new.intake lines (R.remaining reader.old)
            (R.remaining reader.new))
            (Ended part lines (R.remaining reader.old) (R.remaining reader.new)))
            self.old.recorder self.new.recorder (W.contents writer.old) (W.contents writer.new)) }
        ensures ready { OnOk result (IsServing D.Disk self.new) }
        ensures version { self.new.version ≡ self.old.version }
        ensures any_moment { HasKeptFaith D.Disk (disk_of self.new) → (part : List ℕ)
            → line_part self.old.intake ≡ shortened_line part
            → KeptOn (D.Disk.may_leave (disk_of self.new))
            (λ lines. Came part lines (R.remaining reader.old) (R.remaining reader.new))
            (SaysLines self.old.recorder.answers.mode self.old.recorder.answers.runner)
            (recovered_lines (file_of D.Disk self.old)) (W.contents writer.old)
            (W.contents writer.new) }
        ensures intact { ((d : D) → IsTrue (D.Disk.is_mixing d)) →
            HasKeptFaith D.Disk (disk_of self.new)
            → (c : List ℕ) → D.Disk.may_leave (disk_of self.new) c →
            IsIntact self.old.version c }
        ensures failure { FailsUnrefused D.Disk (disk_of self.old) (disk_of self.new)
            (2 ^ 62 ≤ length (blocks (recovered_lines (file_of D.Disk self.new))))
            (IsSettled D.Disk.seen D.Disk.may_leave self.new.recorder.log) result }
        ensures clean { HasKeptFaith D.Disk (disk_of self.new) →
            HasKeptFaith D.Disk (disk_of self.old) }
    {
        self.batch.clear();
        let more = self.intake.read(reader, &mut self.batch)?;
        mark_batch(self.version, &mut self.marker, &mut self.batch)?;
        serve_measured(&mut self.recorder, &mut self.size, &mut self.batch, writer)?;
        Ok(more)
    }
}
