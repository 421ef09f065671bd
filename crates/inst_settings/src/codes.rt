//! Comparing and finding codes in a list.
ghost use Rattle.std.specs.Prelude.{◌≡◌};
ghost use Rattle.inst_settings.specs.Codes.{index_of};
ghost use Rattle.inst_settings.specs.Lawful.{are_different};

use inst_base::Code;

/// Returns `true` if the codes are pairwise different. Quadratic: there are at most 256.
pub(crate) fn are_different(codes: &[Code]) -> bool
    ensures { result ≡ are_different codes.now }
{
    match codes {
        [] => true,
        [code, others @ ..] => !others.contains(code) && are_different(others),
    }
}

/// Returns the index of the code in `codes`.
pub(crate) fn index_of(codes: &[Code], code: &Code) -> Option<usize>
    ensures { result ≡ index_of code.now codes.now }
{
    codes.iter().position(|other| code == other)
}
