//! Opening a log that begins with the given settings, or making a new one. Any other file is left
//! unchanged.
ghost use Rattle.std.specs.Prelude.{◌≡◌, ◌≢◌, ◌⊎◌, ◌≤◌, ◌++◌, [], ◌∷◌, List, ℕ, length, take};
ghost use Rattle.std.specs.Prelude.{IsTrue, IfOk, IfErr, OnOk, MatchBool, MatchResult, ⊤};
ghost use Rattle.sqlite_disk.specs.Disk.{MoreFaults, CountsFault};
ghost use Rattle.inst_log.specs.Disks.{HasKeptFaith, IsOnlyRead, IsJustOpened};
ghost use Rattle.inst_log.specs.Layout.{recovered_lines, blocks, IsBatch, IsShut, EndsWell};
ghost use Rattle.inst_log.specs.Log.{HasLines, HasCause};
ghost use Rattle.inst_log.specs.Opening.{lines_after_settings, Begins, IsNewFile, OpensLog};
ghost use Rattle.inst_log.specs.Opening.{SparesLines, IsLogText, Unopened};
ghost use Rattle.inst_log.specs.Pieces.{IsExtent, IsFrontFor, IsFoundAs, Starts};
ghost use Rattle.inst_log.specs.declared.start.Start.TheVariants as start;
ghost use Rattle.inst_log.specs.declared.error.LogError.TheVariants.{OtherSettings, NoLog};
ghost use Rattle.inst_log.specs.inner.Opening.{IsBlanked, IsBlanking};

use crate::extent::Extent;
use crate::repair::repair;
use crate::start::Start;
use crate::synced::write_synced;
use crate::{Log, LogError};
use sqlite_disk::Disk;
use std::alloc::{AllocError, Global};
use std::io;

impl<D: Disk> Log<D> {
    /// Opens the disk's file, in whatever state a crash left it, and repairs its end. The settings
    /// are a batch, the first lines of the log; a new file gets them. Returns the file's lines,
    /// each with its newline, the settings first. Reads the whole file into memory.
    ///
    /// # Errors
    ///
    /// `OtherSettings` if the file begins with other lines, and `NoLog` if it has no line and isn't
    /// new; the file is unchanged. `Memory` if an allocation fails, and `Disk` if the disk fails;
    /// open it again.
    pub fn open(&mut self, alloc: Global, settings: &[u8]) -> Result<Vec<u8>, LogError>
        // After a restart, reads return what is on the disk.
        requires ready { IsJustOpened D.Disk self.old.disk }
        requires settings { IsBatch settings.now }
        ensures log { OnOk result (HasLines D.Disk (recovered_lines settings.now
            ++ lines_after_settings settings.now (D.Disk.seen self.old.disk))
            (EndsWell (D.Disk.seen self.old.disk)) self.old self.new) }
        ensures text { IfOk result (λ text.
            IsLogText D.Disk settings.now self.old.disk self.new.disk text.items) }
        // During the call a crash leaves the same lines, in a file that can be opened again.
        ensures any_moment { SparesLines D.Disk settings.now self.old.disk self.new.disk }
        ensures cause { IfErr result (λ error.
            Unopened settings.now (D.Disk.seen self.old.disk)
            (HasKeptFaith D.Disk self.new.disk)
            (D.Disk.seen self.new.disk ≡ D.Disk.seen self.old.disk)
            (HasKeptFaith D.Disk self.new.disk →
            MoreFaults (D.Disk.faults self.old.disk) (D.Disk.faults self.new.disk)) error) }
    {
        let text = read_file(alloc, &mut self.disk)?;
        let extent = Extent::of(&text);
        let front = text.len().min(settings.len() + 1);
        let start = start_of(&text[..front], settings, &extent)?;
        self.open_at(settings, &extent, start)?;
        Ok(lines_of(text, settings, &extent, start)?)
    }

    /// Returns what the file is by these settings: a log of theirs, or a new file. `extent` must be
    /// the file's extent, as [`survey`](crate::survey) returns it. Nothing is written.
    ///
    /// # Errors
    ///
    /// `OtherSettings` if the file begins with other lines, `NoLog` if it has no line and isn't
    /// new, `Memory` if an allocation fails, `Disk` if the disk fails.
    pub fn inspect(
        &mut self,
        alloc: Global,
        settings: &[u8],
        extent: &Extent,
    ) -> Result<Start, LogError>
        requires usable { IsTrue (D.Disk.is_usable self.old.disk) }
        requires settings { IsBatch settings.now }
        requires extent { HasKeptFaith D.Disk self.old.disk →
            IsExtent (D.Disk.seen self.old.disk) extent.now }
        ensures start { IfOk result (λ start. HasKeptFaith D.Disk self.new.disk
            → Starts settings.now (D.Disk.seen self.old.disk) start) }
        ensures cause { MatchResult result (λ _.
            D.Disk.faults self.new.disk ≡ D.Disk.faults self.old.disk) (λ error.
            Unopened settings.now (D.Disk.seen self.old.disk)
            (HasKeptFaith D.Disk self.new.disk)
            (D.Disk.seen self.new.disk ≡ D.Disk.seen self.old.disk)
            (HasKeptFaith D.Disk self.new.disk →
            MoreFaults (D.Disk.faults self.old.disk) (D.Disk.faults self.new.disk)) error) }
        ensures read { IsOnlyRead D.Disk self.old.disk self.new.disk
            × (self.new.end ≡ self.old.end) }
    {
        let front = read_front(alloc, &mut self.disk, extent.len.min(settings.len() + 1))?;
        start_of(&front, settings, extent)
    }

    /// Opens the file as what [`inspect`](Log::inspect) found: repairs the end of a log, or writes
    /// the settings to a new file.
    ///
    /// # Errors
    ///
    /// `Disk` if the disk fails; open the log again.
    pub fn open_at(
        &mut self,
        settings: &[u8],
        extent: &Extent,
        start: Start,
    ) -> Result<(), LogError>
        requires ready { IsJustOpened D.Disk self.old.disk }
        requires settings { IsBatch settings.now }
        requires found { HasKeptFaith D.Disk self.old.disk →
            IsFoundAs settings.now (D.Disk.seen self.old.disk) extent.now start }
        ensures log { OnOk result (HasLines D.Disk (recovered_lines settings.now
            ++ lines_after_settings settings.now (D.Disk.seen self.old.disk))
            (EndsWell (D.Disk.seen self.old.disk)) self.old self.new) }
        // During the call a crash leaves the same lines, in a file that can be opened again.
        ensures any_moment { SparesLines D.Disk settings.now self.old.disk self.new.disk }
        ensures cause { IfErr result
            (HasCause (MoreFaults (D.Disk.faults self.old.disk) (D.Disk.faults self.new.disk))
            ⊥ ⊥) }
    {
        match start {
            Start::Log => self.go_on(extent),
            Start::New(is_blank) => self.begin(is_blank, settings),
        }
    }

    /// Opens a log of this extent.
    fn go_on(&mut self, extent: &Extent) -> Result<(), LogError>
        requires ready { IsJustOpened D.Disk self.old.disk }
        requires extent { HasKeptFaith D.Disk self.old.disk →
            IsExtent (D.Disk.seen self.old.disk) extent.now }
        ensures log { OnOk result (HasLines D.Disk (recovered_lines (D.Disk.seen self.old.disk))
            (IsShut (D.Disk.seen self.old.disk)) self.old self.new) }
        ensures any_moment { HasKeptFaith D.Disk self.new.disk → (c : List ℕ) →
            D.Disk.may_leave self.new.disk c
            → recovered_lines c ≡ recovered_lines (D.Disk.seen self.old.disk) }
        ensures shut { HasKeptFaith D.Disk self.new.disk → IsShut (D.Disk.seen self.old.disk)
            → (c : List ℕ) → D.Disk.may_leave self.new.disk c → IsShut c }
        ensures clean { HasKeptFaith D.Disk self.new.disk → HasKeptFaith D.Disk self.old.disk }
        ensures cause { IfErr result
            (HasCause (MoreFaults (D.Disk.faults self.old.disk) (D.Disk.faults self.new.disk))
            ⊥ ⊥) }
    {
        repair(&mut self.disk, extent)?;
        self.end = extent.end;
        Ok(())
    }

    /// Makes a log of a new file.
    fn begin(&mut self, is_blank: bool, settings: &[u8]) -> Result<(), LogError>
        requires ready { IsJustOpened D.Disk self.old.disk }
        requires settings { IsBatch settings.now }
        requires new { HasKeptFaith D.Disk self.old.disk →
            Starts settings.now (D.Disk.seen self.old.disk) (start.New is_blank) }
        ensures log { OnOk result
            (HasLines D.Disk (recovered_lines settings.now) ⊤ self.old self.new) }
        ensures any_moment { HasKeptFaith D.Disk self.new.disk → (c : List ℕ) →
            D.Disk.may_leave self.new.disk c
            → OpensLog settings.now c × (lines_after_settings settings.now c ≡ []) }
        ensures stands { HasKeptFaith D.Disk self.new.disk → (c : List ℕ) →
            D.Disk.may_leave self.new.disk c
            → (recovered_lines c ≡ []) ⊎ (recovered_lines c ≡ recovered_lines settings.now) }
        ensures shut { ((d : D) → IsTrue (D.Disk.is_mixing d)) → HasKeptFaith D.Disk self.new.disk
            → (c : List ℕ) → D.Disk.may_leave self.new.disk c → EndsWell c }
        ensures clean { D.Disk.is_clean self.new.disk ≡ D.Disk.is_clean self.old.disk }
        ensures cause { IfErr result
            (HasCause (MoreFaults (D.Disk.faults self.old.disk) (D.Disk.faults self.new.disk))
            ⊥ ⊥) }
    {
        blank(&mut self.disk, is_blank)?;
        self.end = 0;
        self.append(settings)
    }
}

/// Writes the byte 0 to the beginning of a file unless it is there.
fn blank<D: Disk>(disk: &mut D, is_blank: bool) -> io::Result<()>
    requires ready { IsJustOpened D.Disk disk.old }
    requires is_blank { HasKeptFaith D.Disk disk.old
        → MatchBool is_blank (take 1 (D.Disk.seen disk.old) ≡ 0 ∷ []) (take 1 (D.Disk.seen disk.old)
        ≢ 0 ∷ []) }
    ensures written { OnOk result (HasKeptFaith D.Disk disk.new →
        IsBlanked (D.Disk.seen disk.old) (D.Disk.seen disk.new)) }
    ensures ready { OnOk result (IsJustOpened D.Disk disk.new) }
    ensures any_moment { HasKeptFaith D.Disk disk.new → (c : List ℕ) →
        D.Disk.may_leave disk.new c
        → IsBlanking (D.Disk.seen disk.old) c }
    ensures clean { D.Disk.is_clean disk.new ≡ D.Disk.is_clean disk.old }
    ensures cause { CountsFault result (D.Disk.faults disk.old) (D.Disk.faults disk.new) }
{
    if is_blank {
        return Ok(());
    }
    write_synced(disk, 0, &[0])
}

/// Returns all bytes of the disk's file.
///
/// # Errors
///
/// `Disk` if the disk fails, `Memory` if an allocation fails.
pub fn read_file<D: Disk>(alloc: Global, disk: &mut D) -> Result<Vec<u8>, LogError>
    requires usable { IsTrue (D.Disk.is_usable disk.old) }
    ensures bytes { IfOk result (λ bytes. HasKeptFaith D.Disk disk.new →
        bytes.items ≡ D.Disk.seen disk.old) }
    ensures cause { MatchResult result (λ _. D.Disk.faults disk.new ≡ D.Disk.faults disk.old)
        (HasCause (HasKeptFaith D.Disk disk.new
        → MoreFaults (D.Disk.faults disk.old) (D.Disk.faults disk.new)) ⊤ ⊥) }
    ensures read { IsOnlyRead D.Disk disk.old disk.new }
{
    let len = disk.len()?;
    let mut bytes = vec![in alloc; 0; len]?;
    disk.read_at(0, &mut bytes)?;
    Ok(bytes)
}

/// Returns the lines of the opened log, given the file's bytes from before the opening.
fn lines_of(
    mut bytes: Vec<u8>,
    settings: &[u8],
    extent: &Extent,
    start: Start,
) -> Result<Vec<u8>, AllocError>
    requires settings { IsBatch settings.now }
    requires extent { IsExtent bytes.items extent.now }
    requires start { Starts settings.now bytes.items start }
    ensures { IfOk result (λ text.
        text.items
        ≡ blocks (recovered_lines settings.now
        ++ lines_after_settings settings.now bytes.items)) }
{
    match start {
        Start::Log => bytes.truncate(extent.end),
        Start::New(_) => {
            bytes.clear();
            bytes.extend_from_slice(&settings[..settings.len() - 1])?;
        }
    }
    Ok(bytes)
}

/// Returns the first `len` bytes of a file.
fn read_front<D: Disk>(alloc: Global, disk: &mut D, len: usize) -> Result<Vec<u8>, LogError>
    requires usable { IsTrue (D.Disk.is_usable disk.old) }
    requires within { HasKeptFaith D.Disk disk.old → len ≤ length (D.Disk.seen disk.old) }
    ensures front { IfOk result (λ front. HasKeptFaith D.Disk disk.new →
        front.items ≡ take len (D.Disk.seen disk.old)) }
    ensures cause { MatchResult result (λ _. D.Disk.faults disk.new ≡ D.Disk.faults disk.old)
        (HasCause (HasKeptFaith D.Disk disk.new
        → MoreFaults (D.Disk.faults disk.old) (D.Disk.faults disk.new)) ⊤ ⊥) }
    ensures read { IsOnlyRead D.Disk disk.old disk.new }
{
    let mut bytes = vec![in alloc; 0; len]?;
    disk.read_at(0, &mut bytes)?;
    Ok(bytes)
}

/// Returns what a file of this extent, with these first bytes, is by these settings.
fn start_of(front: &[u8], settings: &[u8], extent: &Extent) -> Result<Start, LogError>
    requires settings { IsBatch settings.now }
    ensures start { IfOk result (λ start. (file : List ℕ) → IsExtent file extent.now →
        IsFrontFor settings.now front.now file
        → Starts settings.now file start) }
    ensures cause { IfErr result (λ error. (file : List ℕ) → IsExtent file extent.now →
        IsFrontFor settings.now front.now file
        → Unopened settings.now file ⊤ ⊤ ⊥ error) }
    ensures only { IfErr result (λ error. (error ≡ OtherSettings) ⊎ (error ≡ NoLog)) }
{
    if begins(front, settings) {
        return Ok(Start::Log);
    }
    if extent.end > 0 {
        return Err(LogError::OtherSettings);
    }
    if !is_new(front, settings) {
        return Err(LogError::NoLog);
    }
    Ok(Start::New(is_blank(front)))
}

/// Returns `true` if the first lines are the settings.
fn begins(bytes: &[u8], settings: &[u8]) -> bool
    requires settings { IsBatch settings.now }
    ensures { MatchBool result (Begins settings.now bytes.now) (Begins settings.now bytes.now → ⊥) }
{
    bytes.starts_with(&settings[..settings.len() - 1])
}

/// Returns `true` if the file can be made a log: it has at most one byte, or the making of this log
/// was cut off.
fn is_new(bytes: &[u8], settings: &[u8]) -> bool
    requires settings { IsBatch settings.now }
    ensures { MatchBool result (IsNewFile settings.now bytes.now)
        (IsNewFile settings.now bytes.now → ⊥) }
{
    if bytes.len() <= 1 {
        return true;
    }
    if is_blank(bytes) {
        return bytes.len() <= settings.len();
    }
    bytes[1..] == settings[1..]
}

/// Returns `true` if the first byte is 0.
fn is_blank(bytes: &[u8]) -> bool
    ensures { MatchBool result (take 1 bytes.now ≡ 0 ∷ []) (take 1 bytes.now ≢ 0 ∷ []) }
{
    !bytes.is_empty() && bytes[0] == 0
}
