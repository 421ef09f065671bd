//! The recorder: it answers lines into memory, syncs them to the log, and only then writes their
//! replies.
ghost use Rattle.std.specs.Prelude.{◌≡◌, ◌≤◌, ◌+◌, ◌^◌, ◌++◌, [], length, IfErr, OnOk, ⊤};
ghost use Rattle.sqlite_disk.specs.Disk.{MoreFaults};
ghost use Rattle.inst_log.specs.Disks.{HasKeptFaith, IsJustOpened};
ghost use Rattle.inst_log.specs.Layout.{recovered_lines, blocks, IsBatch, AreWholeLines, EndsWell};
ghost use Rattle.inst_log.specs.Log.{IsSettled, IsOpenLog, HasLines, StandsWhole, HasCause};
ghost use Rattle.inst_log.specs.Opening.{lines_after_settings, OpensLog, SparesLines, Unopened};
ghost use Rattle.inst_log.specs.Serving.{Replies, TellsKept, Tells, SaysOn, AllBatches};
ghost use Rattle.inst_log.specs.Serving.{batch_lines, HasAnsweredLines, HasRunLog, KeepsRun};
ghost use Rattle.inst_log.specs.Serving.{Owing, HasFewer, Unanswered};
ghost use Rattle.inst_log.specs.inner.Serving.{TellsFront};

use crate::batch::close_batch;
use crate::delivery::deliver;
use crate::{Log, LogError, Responder};
use sqlite_disk::Disk;
use std::io::Write;

/// A log, the responder that answers its lines, and the replies that aren't written yet.
#[derive(Drop)]
pub struct Recorder<D: Disk, A: Responder + Drop> {
    /// The log.
    pub log: Log<D>,
    /// The responder, in its state after all lines of the log.
    pub answers: A,
    /// The buffer of the replies.
    pub out: Vec<u8>,
}

impl<D: Disk, A: Responder + Drop> Recorder<D, A> {
    /// Opens the log, writes the replies to its lines except for their first `told` bytes, and then
    /// answers batch after batch. The settings are a batch, the first lines of the log. The
    /// responder must be in its initial state. Reads the whole file into memory.
    ///
    /// # Errors
    ///
    /// `OtherSettings`, `NoLog`: as of [`Log::open`]; the file is unchanged. `Told` if the replies
    /// to the log's lines have fewer than `told` bytes. `Memory`, `Disk`, `Full`: a batch isn't
    /// answered, or is in the log without its reply. `Write`: the log has the lines, and a prefix
    /// of their replies was written. After any error, open the log again with a new responder.
    pub fn run<W: Write>(
        &mut self,
        settings: &[u8],
        told: usize,
        batches: &[Vec<u8>],
        writer: &mut W,
    ) -> Result<(), LogError>
        // After a restart, reads return what is on the disk.
        requires ready { IsJustOpened D.Disk self.old.log.disk }
        requires settings { IsBatch settings.now }
        requires batches { AllBatches batches.now }

        ensures ok { OnOk result (HasRunLog D.Disk A.Responder.says settings.now told
            (batch_lines batches.now) self.old self.new
            (W.Write.contents writer.old) (W.Write.contents writer.new)) }
        // Holds at `Ok` and at `Err`.
        ensures any_moment { KeepsRun D.Disk A.Responder.says settings.now told
            (batch_lines batches.now) self.old self.new
            (W.Write.contents writer.old) (W.Write.contents writer.new) }
        ensures cause { IfErr result
            (Unanswered (Unopened settings.now (D.Disk.seen self.old.log.disk)
            (HasKeptFaith D.Disk self.new.log.disk)
            (D.Disk.seen self.new.log.disk ≡ D.Disk.seen self.old.log.disk)
            (HasKeptFaith D.Disk self.new.log.disk
            → MoreFaults (D.Disk.faults self.old.log.disk) (D.Disk.faults self.new.log.disk)))
            (HasKeptFaith D.Disk self.new.log.disk →
            2 ^ 62 ≤ length (blocks ((recovered_lines settings.now
            ++ lines_after_settings settings.now (D.Disk.seen self.old.log.disk))
            ++ batch_lines batches.now)))
            (HasKeptFaith D.Disk self.new.log.disk
            → HasFewer (A.Responder.says self.old.answers)
            (lines_after_settings settings.now (D.Disk.seen self.old.log.disk)) told)
            (HasKeptFaith D.Disk self.new.log.disk →
            IsSettled D.Disk.seen D.Disk.may_leave self.new.log)) }
    {
        self.reopen(settings, told, writer)?;
        self.serve_all(batches, writer)
    }

    /// Opens the log, and writes the replies to its lines except for their first `told` bytes.
    fn reopen<W: Write>(
        &mut self,
        settings: &[u8],
        told: usize,
        writer: &mut W,
    ) -> Result<(), LogError>
        requires ready { IsJustOpened D.Disk self.old.log.disk }
        requires settings { IsBatch settings.now }

        ensures log { OnOk result (HasLines D.Disk (recovered_lines settings.now
            ++ lines_after_settings settings.now (D.Disk.seen self.old.log.disk))
            (EndsWell (D.Disk.seen self.old.log.disk)) self.old.log self.new.log) }
        ensures any_moment { SparesLines D.Disk settings.now self.old.log.disk self.new.log.disk }
        ensures replied { OnOk result (HasKeptFaith D.Disk self.new.log.disk
            → Tells (Owing (A.Responder.says self.old.answers)
            (lines_after_settings settings.now (D.Disk.seen self.old.log.disk)) told)
            [] (W.Write.contents writer.old) (W.Write.contents writer.new)) }
        ensures began { OnOk result (HasKeptFaith D.Disk self.new.log.disk
            → OpensLog settings.now (D.Disk.seen self.old.log.disk)) }
        ensures told { OnOk result (HasKeptFaith D.Disk self.new.log.disk
            → (replies : Replies) → A.Responder.says self.old.answers replies
            → told ≤ length
            (replies (lines_after_settings settings.now (D.Disk.seen self.old.log.disk)))) }
        ensures part { HasKeptFaith D.Disk self.new.log.disk
            → TellsFront (Owing (A.Responder.says self.old.answers)
            (lines_after_settings settings.now (D.Disk.seen self.old.log.disk)) told) []
            (W.Write.contents writer.old) (W.Write.contents writer.new) }
        ensures on { OnOk result (HasKeptFaith D.Disk self.new.log.disk
            → SaysOn (A.Responder.says self.old.answers)
            (lines_after_settings settings.now (D.Disk.seen self.old.log.disk))
            (A.Responder.says self.new.answers)) }
        ensures cause { IfErr result
            (Unanswered (Unopened settings.now (D.Disk.seen self.old.log.disk)
            (HasKeptFaith D.Disk self.new.log.disk)
            (D.Disk.seen self.new.log.disk ≡ D.Disk.seen self.old.log.disk)
            (HasKeptFaith D.Disk self.new.log.disk
            → MoreFaults (D.Disk.faults self.old.log.disk) (D.Disk.faults self.new.log.disk)))
            ⊥ (HasKeptFaith D.Disk self.new.log.disk
            → HasFewer (A.Responder.says self.old.answers)
            (lines_after_settings settings.now (D.Disk.seen self.old.log.disk)) told)
            (HasKeptFaith D.Disk self.new.log.disk →
            IsSettled D.Disk.seen D.Disk.may_leave self.new.log
            × (recovered_lines (D.Disk.seen self.new.log.disk)
            ≡ recovered_lines settings.now
            ++ lines_after_settings settings.now (D.Disk.seen self.old.log.disk)))) }
    {
        let alloc = *self.out.allocator();
        let text = self.log.open(alloc, settings)?;
        self.out.clear();
        self.answers
            .answer(&text[settings.len() - 1..], &mut self.out)?;
        if told > self.out.len() {
            return Err(LogError::Told);
        }
        deliver(writer, &self.out[told..])
    }

    /// Appends a batch to the log and writes the replies to its lines.
    ///
    /// # Errors
    ///
    /// - `Memory` if an allocation fails, `Disk` if the disk fails, `Full` if the log has 2^62
    ///   bytes.
    /// - `Write` if the writer fails; the log has the lines, and a prefix of their replies was
    ///   written.
    ///
    /// No byte of a reply was written unless the log has its line. Open the log again with a new
    /// responder.
    pub fn serve<W: Write>(&mut self, batch: &[u8], writer: &mut W) -> Result<(), LogError>
        requires open { IsOpenLog D.Disk self.old.log }
        requires batch { IsBatch batch.now }

        ensures ok { OnOk result (HasAnsweredLines D.Disk A.Responder.says
            (recovered_lines batch.now) self.old self.new
            (W.Write.contents writer.old) (W.Write.contents writer.new)) }
        // Holds at `Ok` and at `Err`: a line is in each file that a crash may leave if a byte of
        // its reply was passed to the writer.
        ensures any_moment { HasKeptFaith D.Disk self.new.log.disk →
            TellsKept recovered_lines (D.Disk.may_leave self.new.log.disk)
            (A.Responder.says self.old.answers) (recovered_lines (D.Disk.seen self.old.log.disk))
            (recovered_lines batch.now)
            (W.Write.contents writer.old) (W.Write.contents writer.new) }
        // A file that a crash may leave has the whole batch or none of it.
        ensures stands { StandsWhole D.Disk (recovered_lines batch.now) self.old.log.disk
            self.new.log.disk }
        ensures cause { IfErr result
            (Unanswered (HasCause (MoreFaults (D.Disk.faults self.old.log.disk)
            (D.Disk.faults self.new.log.disk)) ⊤ ⊥)
            (2 ^ 62 ≤ self.old.log.end) ⊥
            (HasKeptFaith D.Disk self.new.log.disk →
            IsSettled D.Disk.seen D.Disk.may_leave self.new.log
            × (recovered_lines (D.Disk.seen self.new.log.disk)
            ≡ recovered_lines (D.Disk.seen self.old.log.disk) ++ recovered_lines batch.now))) }
    {
        self.out.clear();
        self.answers.answer(batch, &mut self.out)?;
        self.log.append(batch)?;
        deliver(writer, &self.out)
    }

    /// Closes a batch and serves it as [`serve`](Recorder::serve) does; does nothing if the batch
    /// is empty. Errors are those of `serve`.
    pub fn serve_lines<W: Write>(
        &mut self,
        batch: &mut Vec<u8>,
        writer: &mut W,
    ) -> Result<(), LogError>
        requires open { IsOpenLog D.Disk self.old.log }
        requires whole { AreWholeLines batch.old.items }

        ensures ok { OnOk result (HasAnsweredLines D.Disk A.Responder.says
            (recovered_lines batch.old.items) self.old self.new
            (W.Write.contents writer.old) (W.Write.contents writer.new)) }
        // Holds at `Ok` and at `Err`: a line is in each file that a crash may leave if a byte of
        // its reply was passed to the writer.
        ensures any_moment { HasKeptFaith D.Disk self.new.log.disk →
            TellsKept recovered_lines (D.Disk.may_leave self.new.log.disk)
            (A.Responder.says self.old.answers) (recovered_lines (D.Disk.seen self.old.log.disk))
            (recovered_lines batch.old.items)
            (W.Write.contents writer.old) (W.Write.contents writer.new) }
        // A file that a crash may leave has the whole batch or none of it.
        ensures stands { StandsWhole D.Disk (recovered_lines batch.old.items) self.old.log.disk
            self.new.log.disk }
        ensures cause { IfErr result
            (Unanswered (HasCause (MoreFaults (D.Disk.faults self.old.log.disk)
            (D.Disk.faults self.new.log.disk)) ⊤ ⊥)
            (2 ^ 62 ≤ self.old.log.end) ⊥
            (HasKeptFaith D.Disk self.new.log.disk →
            IsSettled D.Disk.seen D.Disk.may_leave self.new.log
            × (recovered_lines (D.Disk.seen self.new.log.disk)
            ≡ recovered_lines (D.Disk.seen self.old.log.disk)
            ++ recovered_lines batch.old.items))) }
    {
        if batch.is_empty() {
            return Ok(());
        }
        close_batch(batch)?;
        self.serve(batch, writer)
    }

    /// Serves batch after batch as [`serve`](Recorder::serve) does, and stops at the first error.
    pub fn serve_all<W: Write>(
        &mut self,
        batches: &[Vec<u8>],
        writer: &mut W,
    ) -> Result<(), LogError>
        requires open { IsOpenLog D.Disk self.old.log }
        requires batches { AllBatches batches.now }

        ensures ok { OnOk result (HasAnsweredLines D.Disk A.Responder.says
            (batch_lines batches.now) self.old self.new
            (W.Write.contents writer.old) (W.Write.contents writer.new)) }
        // Holds at `Ok` and at `Err`: a line is in each file that a crash may leave if a byte of
        // its reply was passed to the writer.
        ensures any_moment { HasKeptFaith D.Disk self.new.log.disk →
            TellsKept recovered_lines (D.Disk.may_leave self.new.log.disk)
            (A.Responder.says self.old.answers) (recovered_lines (D.Disk.seen self.old.log.disk))
            (batch_lines batches.now)
            (W.Write.contents writer.old) (W.Write.contents writer.new) }
        ensures cause { IfErr result
            (Unanswered (HasCause (MoreFaults (D.Disk.faults self.old.log.disk)
            (D.Disk.faults self.new.log.disk)) ⊤ ⊥)
            (2 ^ 62 ≤ self.old.log.end + length (blocks (batch_lines batches.now))) ⊥
            (HasKeptFaith D.Disk self.new.log.disk →
            IsSettled D.Disk.seen D.Disk.may_leave self.new.log)) }
        ensures clean { D.Disk.is_clean self.new.log.disk ≡ D.Disk.is_clean self.old.log.disk }
    {
        for batch in batches {
            self.serve(batch.as_slice(), writer)?;
        }
        Ok(())
    }
}
