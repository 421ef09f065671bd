//! The task `log`: the contents of a log.
ghost use Rattle.std.specs.Prelude.{◌≡◌, ◌≢◌, true, Err, IfOk, IfSome, OnOk, IfErr, string_bytes};
ghost use Rattle.inst_chain.specs.Chain.{IsHexadecimal};
ghost use Rattle.std.specs.Io.KnownBytes.{Appends};
ghost use Rattle.inst_logged.specs.declared.version.Version.TheVariants.{Two};
ghost use Rattle.inst_program.specs.Files.{IfKept, IsUntouched};
ghost use Rattle.inst_program.specs.Keeping.{HasContents, IsGoodLog, TellsOfTheLog, digest_line};
ghost use Rattle.inst_program.specs.Keeping.{log_text};
ghost use Rattle.inst_program.specs.inner.ExitReason.{status_of_ending};
ghost use Rattle.inst_program.specs.inner.Showing.{HasDigest};

use crate::exit_reason::{ExitReason, ending_of, tell_damage};
use crate::logs::Logs;
use inst_base::Fault;
use inst_chain::{Digest, Prefix, Summary, summarize};
use inst_logged::{LoggedError, Version, read_beginning, version_of};
use inst_options::LogFault;
use std::alloc::{AllocError, Global};
use std::io::Write;

/// Prints the settings of the log of this name, the number of its lines after the first one and its
/// books, and the digest of its last mark, if it has marks. Only reads the log, which a hub may
/// have open. If it is damaged, prints on `errors` how far it is right.
pub(crate) fn show<L: Logs, W: Write, E: Write>(
    logs: &mut L,
    alloc: Global,
    path: &str,
    writer: &mut W,
    errors: &mut E,
) -> Result<(), ExitReason>
    ensures ok { OnOk result (IfKept (L.files logs.new)
        (TellsOfTheLog ((L.files logs.old).bytes path.now) (W.contents writer.old)
        (W.contents writer.new))) }
    ensures err { IfErr result (λ ending. status_of_ending ending ≡ 2 → (writer.new ≡ writer.old)
        × IfKept (L.files logs.new) (¬ (IsGoodLog ((L.files logs.old).bytes path.now)))) }
    ensures untouched { IsUntouched (L.files logs.old) (L.files logs.new) }
{
    let contents = contents_of(logs, alloc, path, errors)?;
    tell(alloc, &contents, writer)
}

/// The contents of a log.
#[derive(Drop)]
pub(crate) struct LogContents {
    /// Its first line.
    first: Vec<u8>,
    /// The number of its lines without marks, the first one and those of books.
    pub(crate) lines: u64,
    /// The digest of its last mark, if it has marks.
    pub(crate) digest: Option<Digest>,
}

/// Returns the contents of the log of this name. Only reads the log, which a hub may have open. If it
/// is damaged, prints on `errors` how far it is right.
pub(crate) fn contents_of<L: Logs, E: Write>(
    logs: &mut L,
    alloc: Global,
    path: &str,
    errors: &mut E,
) -> Result<LogContents, ExitReason>
    ensures ok { IfOk result (λ contents. IfKept (L.files logs.new)
        (HasContents ((L.files logs.old).bytes path.now) contents.first.items contents.lines
        contents.digest)) }
    ensures err { IfErr result (λ ending. status_of_ending ending ≡ 2 →
        IfKept (L.files logs.new) (¬ (IsGoodLog ((L.files logs.old).bytes path.now)))) }
    ensures untouched { IsUntouched (L.files logs.old) (L.files logs.new) }
{
    let mut reader = logs.read(path)?;
    let summary = match summarize(alloc, &mut reader) {
        Ok(summary) => summary,
        Err(error) => return Err(ending_of(LoggedError::Log(error))),
    };
    let Some(beginning) = read_beginning(alloc, &summary.first)? else {
        return Err(ExitReason::Log(LogFault::NoLog));
    };
    let version = version_of(alloc, &summary.first)?.unwrap_or(Version::Two);
    let digest = match digest_of(version, &summary.chain) {
        Ok(digest) => digest,
        Err(right) => {
            tell_damage(right, errors);
            return Err(ExitReason::Log(LogFault::DamagedLog));
        }
    };
    let lines = summary
        .lines
        .saturating_sub(1)
        .saturating_sub(beginning.books.unwrap_or(0));
    Ok(LogContents {
        first: summary.first,
        lines,
        digest,
    })
}

/// Returns `true` if the digest, if there is one, has hexadecimal digits, as each mark has.
pub(crate) fn is_hexadecimal(digest: Option<Digest>) -> bool
    ensures { result ≡ true → IfSome digest IsHexadecimal }
{
    match digest {
        Some(digest) => digest.is_hexadecimal(),
        None => true,
    }
}

/// Returns the digest of a log's last mark, or `None` for a version without marks.
///
/// # Errors
/// If a mark is missing or wrong, or the end is, the lines up to the last right mark.
fn digest_of(version: Version, chain: &Result<Digest, Prefix>) -> Result<Option<Digest>, Prefix>
    ensures digest { IfOk result (HasDigest version chain.now) }
    ensures none { IfErr result (λ right. (version ≡ Two) × (chain.now ≡ Err right)) }
{
    match (version, chain) {
        (Version::One, _) => Ok(None),
        (Version::Two, Ok(digest)) => Ok(Some(*digest)),
        (Version::Two, Err(right)) => Err(*right),
    }
}

/// Prints the contents of a log.
fn tell<W: Write>(alloc: Global, contents: &LogContents, writer: &mut W) -> Result<(), ExitReason>
    ensures ok { OnOk result
        (Appends (W.contents writer.old) (W.contents writer.new)
        (log_text contents.now.first.items contents.now.lines contents.now.digest)) }
    ensures err { IfErr result (λ ending. status_of_ending ending ≢ 2) }
{
    let first = String::from_utf8_lossy(alloc, &contents.first)?;
    let lines = contents.lines;
    let digest = digest_line(alloc, contents.digest)?;
    match write!(writer, "settings {first}\nlines {lines}\n{digest}") {
        Ok(()) => Ok(()),
        Err(_) => Err(ExitReason::Fault(Fault::WriteFault)),
    }
}

/// Returns the line of a digest with its newline, or an empty text if there is none.
fn digest_line(alloc: Global, digest: Option<Digest>) -> Result<String, AllocError>
    ensures { IfOk result (λ text. string_bytes text ≡ digest_line digest) }
{
    let mut text = String::new(alloc);
    if let Some(digest) = digest {
        text.push_str("digest ")?;
        text.push_str(&String::from_utf8_lossy(alloc, &digest.text)?)?;
        text.push_str("\n")?;
    }
    Ok(text)
}
