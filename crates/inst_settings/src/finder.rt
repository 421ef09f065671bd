//! A hash table from a code to the participants that may have it.
ghost use Rattle.std.specs.Prelude.{◌≡◌, ◌<◌, ◌≤◌, length};
ghost use Rattle.inst_settings.specs.Finder.{mark_of, bank_of, branch_of, mixed, holders_of};
ghost use Rattle.inst_settings.specs.Finder.{TellsAll};
ghost use Rattle.inst_settings.specs.inner.Finder.{with_one_more};
ghost use Rattle.inst_base.specs.declared.code.TheConstants.{CODE_LENGTH};

use inst_base::{BRANCH_CODE_LENGTH, CODE_LENGTH, Code};

/// The number of marks: 16 for each of 256 participants, so that few codes share one.
const MARKS: usize = 4096;

/// The participants whose codes have a mark.
#[derive(Clone, Copy)]
pub(crate) enum Holders {
    Nobody,
    /// One participant, with this number.
    Only(u8),
    Several,
}

impl Holders {
    /// Adds the participant with this number.
    fn with(self, number: u8) -> Holders
        ensures { result ≡ with_one_more self number }
    {
        match self {
            Holders::Nobody => Holders::Only(number),
            Holders::Only(_) | Holders::Several => Holders::Several,
        }
    }
}

/// The holders of each mark. A code belongs to no participant if its mark has no holder.
#[derive(Clone, Copy, Drop)]
pub(crate) struct Finder {
    table: [Holders; MARKS],
}

/// Returns the mark of a code. Codes that differ in bank, country, place or branch mostly have
/// different marks.
#[inline(always)]
fn mark(code: &Code) -> usize
    ensures value { result ≡ mark_of code.now }
    ensures below { result < 4096 }
{
    let text = code.text().as_bytes();
    mixed(bank(text), branch(text))
}

/// Returns the first eight characters (bank, country and place) as a number.
#[inline(always)]
fn bank(text: &[u8]) -> u64
    requires { CODE_LENGTH ≤ length text.now }
    ensures { result ≡ bank_of text.now }
{
    u64::from_be_bytes([
        text[0], text[1], text[2], text[3], text[4], text[5], text[6], text[7],
    ])
}

/// Returns the three characters of the branch as a number, or 0 without a branch.
#[inline(always)]
fn branch(text: &[u8]) -> u64
    ensures { result ≡ branch_of text.now }
{
    if text.len() < BRANCH_CODE_LENGTH {
        return 0;
    }
    u64::from_be_bytes([0, 0, 0, 0, 0, text[8], text[9], text[10]])
}

/// Returns the highest twelve bits of a sum of products.
#[inline(always)]
fn mixed(bank: u64, branch: u64) -> usize
    ensures value { result ≡ mixed bank branch }
    ensures below { result < 4096 }
{
    let mixed = bank
        .wrapping_mul(0x9e37_79b9_7f4a_7c15)
        .wrapping_add(branch.wrapping_mul(0xc2b2_ae3d_27d4_eb4f));
    (mixed >> 52) as usize % MARKS
}

impl Finder {
    /// Makes the table of these codes.
    pub(crate) fn new(codes: &[Code]) -> Finder
        requires { length codes.now ≤ 256 }
        ensures { TellsAll codes.now result.table }
    {
        let mut table = [Holders::Nobody; MARKS];
        let mut number = 0u16;
        for code in codes {
            let mark = mark(code);
            table[mark] = table[mark].with(number as u8);
            number += 1;
        }
        Finder { table }
    }

    /// Returns the participants that may have the code.
    #[inline(always)]
    pub(crate) fn holders(&self, code: &Code) -> Holders
        ensures { result ≡ holders_of code.now self.now.table }
    {
        self.table[mark(code)]
    }
}
