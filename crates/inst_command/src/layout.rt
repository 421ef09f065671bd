//! The text of a statement line.
ghost use Rattle.std.specs.Prelude.{◌≡◌, ◌≤◌, true, length, Some, IfOk, string_bytes};
ghost use Rattle.std.specs.List.{list_all};
ghost use Rattle.inst_base.specs.Text.{is_code_character, is_latin};
ghost use Rattle.inst_command.specs.LineText.{line_fits, line_text, kind_name, other_code};
ghost use Rattle.inst_command.specs.Layout.{shown};
ghost use Rattle.inst_base.specs.declared.code.TheConstants.{BRANCH_CODE_LENGTH};

use crate::{Line, LineKind};
use inst_settings::Settings;
use std::alloc::{AllocError, Global};
use std::fmt::{self, Display, Formatter};

/// A statement line as text of 91 characters; `Display` writes it without allocating.
///
/// It has six columns, separated by a space:
///
/// | Column | Width | Aligned |
/// |---|---|---|
/// | number of the line | 6 | right |
/// | kind: `FND`, `DFD`, `IN`, `OUT` | 3 | left |
/// | code of the other participant, blank for a funding | 11 | left |
/// | identifier or reference | 35 | left |
/// | amount in cents | 11 | right |
/// | position after the entry, in cents | 20 | right |
#[derive(Clone, Copy)]
pub struct LineText<'a> {
    settings: &'a Settings,
    line: &'a Line,
}

impl<'a> LineText<'a> {
    /// Makes the text of `line` in a hub with these settings. The line's number must be at most
    /// 999,999, and only a transfer names another participant.
    pub fn new(settings: &'a Settings, line: &'a Line) -> LineText<'a>
        requires { line_fits settings.now line.now ≡ true }
        ensures text { shown result ≡ line_text settings.entry.now line.entry.now }
        ensures len { length (shown result) ≡ 91 }
        ensures latin { list_all is_latin (shown result) ≡ true }
    {
        // No effect at run time: the verifier learns the forms of the parts, on which the length
        // and the character set depend.
        let _id = line.id.text();
        let _cents = line.cents.get();
        let _other = other_code(settings, line.other);
        let _position = line.position;
        LineText { settings, line }
    }
}

impl Display for LineText<'_> {
    ghost output = { λ text. Some (shown text) };

    fn fmt<W: fmt::Write>(&self, f: &mut Formatter<W>) -> fmt::Result {
        let line = self.line;
        let number = line.number;
        let kind = kind_name(line.kind);
        let other = other_code(self.settings, line.other);
        let id = line.id.text();
        let cents = line.cents.get();
        let position = line.position;
        write!(
            f,
            "{number:>6} {kind:<3} {other:<11} {id:<35} {cents:>11} {position:>20}"
        )
    }
}

/// Returns the text of a statement line, as [`LineText`] writes it.
///
/// # Errors
///
/// [`AllocError`] if the text can't be allocated.
pub fn line_text(alloc: Global, settings: &Settings, line: &Line) -> Result<String, AllocError>
    requires { line_fits settings.now line.now ≡ true }
    ensures text { IfOk result (λ text. string_bytes text ≡ line_text settings.now line.now) }
    ensures len { IfOk result (λ text. length (string_bytes text) ≡ 91) }
{
    LineText::new(settings, line).to_string(alloc)
}

/// Returns the text for a line's kind.
pub fn kind_name(kind: LineKind) -> &'static str
    ensures value { result.now ≡ kind_name kind }
    ensures short { length result.now ≤ 3 }
    ensures form { list_all is_code_character result.now ≡ true }
{
    match kind {
        LineKind::Funded => "FND",
        LineKind::Defunded => "DFD",
        LineKind::Received => "IN",
        LineKind::Paid => "OUT",
    }
}

/// Returns the other participant's code, or an empty text without one.
pub fn other_code(settings: &Settings, other: Option<u8>) -> &str
    ensures value { result.now ≡ other_code settings.now other }
    ensures short { length result.now ≤ BRANCH_CODE_LENGTH }
    ensures form { list_all is_code_character result.now ≡ true }
{
    match other.and_then(|number| settings.code(number)) {
        Some(code) => code.text(),
        None => "",
    }
}
