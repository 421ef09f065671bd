//! Opening the next hub from the books.
ghost use Rattle.std.specs.Prelude.{◌≡◌, ◌⊎◌, [], ℕ, true, false, length, IfOk, IfErr, Err};
ghost use Rattle.inst_journal.specs.Opened.{HasOpeningsLeft};
ghost use Rattle.inst_participant.specs.Together.{histories};
ghost use Rattle.inst_participant.specs.Wider.{widened};
ghost use Rattle.inst_close.specs.NextOpening.{MayOpenUnder, MayOpenWider};
ghost use Rattle.inst_close.specs.inner.NextOpening.{AreCopies, AreCopiesAnd};
ghost use Rattle.inst_close.specs.Closing.{IsNextOf, AreNextTellers};

use crate::Books;
use crate::widening::{keeps_base_and_codes, widened};
use inst_base::{Code, Fault};
use inst_books::can_open;
use inst_hub::{Hub, Teller};
use inst_journal::Journal;
use inst_settings::Settings;
use std::alloc::{AllocError, Global};

impl Books {
    /// Copies the books, by number.
    pub(crate) fn copies(&self, alloc: Global) -> Result<Vec<Journal>, AllocError>
        ensures ok { IfOk result (λ journals. AreCopies self.now.books journals.items) }
    {
        let mut journals = Vec::new(alloc);
        for slot in self.slots.as_slice() {
            journals.push(slot.journal().copy()?)?;
        }
        Ok(journals)
    }

    /// Copies the books, by number, and appends so many empty ones.
    pub(crate) fn copies_and(&self, alloc: Global, more: usize) -> Result<Vec<Journal>, AllocError>
        ensures ok { IfOk result (λ journals. AreCopiesAnd self.now.books more journals.items) }
    {
        let mut journals = self.copies(alloc)?;
        for _ in 0..more {
            journals.push(Journal::new(alloc))?;
        }
        Ok(journals)
    }

    /// Returns `true` if each book can be opened from once more: it has fewer than 500 openings.
    /// Scans the events of each book.
    pub fn may_open(&self) -> bool
        ensures few { result ≡ true → (p : ℕ) → HasOpeningsLeft (histories self.now.books p) }
        ensures many { result ≡ false → ¬ ((p : ℕ) → HasOpeningsLeft (histories self.now.books p)) }
    {
        for slot in self.slots.as_slice() {
            if !slot.journal().has_openings_left() {
                return false;
            }
        }
        true
    }

    /// Opens the hub of the next opening, with 1 to 16 tellers that have seen each book with an
    /// opening after it.
    ///
    /// Pending transfers stay pending; decided ones give their places back. The books are copied
    /// and stay unchanged.
    ///
    /// # Errors
    ///
    /// - `BadSettings` if `tellers` is not 1 to 16 or a book can't be opened from once more.
    /// - [`Memory`](Fault::Memory) if allocation fails.
    ///
    /// The books are unchanged.
    pub fn open_next(&self, alloc: Global, tellers: u8) -> Result<(Hub, Vec<Teller>), Fault>
        ensures settings { IfOk result (λ r. r.0.settings ≡ self.now.settings) }
        ensures tellers { IfOk result (λ r. (length r.1.items ≡ tellers)
            × AreNextTellers self.now.books r.0 r.1.items) }
        ensures opened { IfOk result (λ r. IsNextOf self.now.books r.0) }
        ensures may { IfOk result (λ r. MayOpenWider self.now [] tellers) }
        ensures bad { result ≡ Err Fault.BadSettings → ¬ MayOpenWider self.now [] tellers }
        ensures only { IfErr result (λ e. (e ≡ Fault.Memory) ⊎ (e ≡ Fault.BadSettings)) }
    {
        self.open_wider(alloc, Vec::new(alloc), tellers)
    }

    /// Opens the hub of the next opening as [`open_next`](Books::open_next) does, with participants
    /// of these codes, who join: their numbers follow the existing ones, and their books are empty.
    ///
    /// # Errors
    ///
    /// - `BadSettings` as for [`open_next`](Books::open_next), and if a code occurs twice or there
    ///   are then more than 256 participants.
    /// - [`Memory`](Fault::Memory) if allocation fails.
    ///
    /// The books are unchanged.
    pub fn open_wider(
        &self,
        alloc: Global,
        codes: Vec<Code>,
        tellers: u8,
    ) -> Result<(Hub, Vec<Teller>), Fault>
        ensures settings { IfOk result (λ r. r.0.settings ≡ widened self.now.settings codes.items) }
        ensures tellers { IfOk result (λ r. (length r.1.items ≡ tellers)
            × AreNextTellers self.now.books r.0 r.1.items) }
        ensures opened { IfOk result (λ r. IsNextOf self.now.books r.0) }
        ensures may { IfOk result (λ r. MayOpenWider self.now codes.items tellers) }
        ensures bad { result ≡ Err Fault.BadSettings → ¬ MayOpenWider self.now codes.items tellers }
        ensures only { IfErr result (λ e. (e ≡ Fault.Memory) ⊎ (e ≡ Fault.BadSettings)) }
    {
        if !self.may_open() {
            return Err(Fault::BadSettings);
        }
        let settings = widened(alloc, self.settings(), &codes)?;
        let journals = self.copies_and(alloc, codes.len())?;
        Hub::open_from(alloc, settings, &journals, tellers)
    }

    /// Opens the hub of the next opening as [`open_next`](Books::open_next) does, under these
    /// settings. Participants whose codes follow the existing ones join, as by
    /// [`open_wider`](Books::open_wider).
    ///
    /// A hub of these settings must be able to have each history. So `places` and `fundings` must
    /// be at least the most that a participant used in one opening, the ceiling at least the
    /// largest amount, and the limit stays once a transfer was forwarded. Each history continues
    /// (`IsNextOf`).
    ///
    /// Copies the books, and replays them once to check them before the hub opens.
    ///
    /// # Errors
    ///
    /// - `BadSettings` if `tellers` is not 1 to 16, the base changes, the codes don't begin with the
    ///   existing ones, a hub of these settings can't have the books, or a book can't be opened
    ///   from once more.
    /// - [`Memory`](Fault::Memory) if allocation fails. The settings are dropped.
    ///
    /// The books are unchanged.
    pub fn open_under(
        &self,
        alloc: Global,
        settings: Settings,
        tellers: u8,
    ) -> Result<(Hub, Vec<Teller>), Fault>
        ensures settings { IfOk result (λ r. r.0.settings ≡ settings) }
        ensures tellers { IfOk result (λ r. (length r.1.items ≡ tellers)
            × AreNextTellers self.now.books r.0 r.1.items) }
        ensures opened { IfOk result (λ r. IsNextOf self.now.books r.0) }
        ensures may { IfOk result (λ r. MayOpenUnder self.now settings tellers) }
        ensures bad { result ≡ Err Fault.BadSettings → ¬ MayOpenUnder self.now settings tellers }
        ensures only { IfErr result (λ e. (e ≡ Fault.Memory) ⊎ (e ≡ Fault.BadSettings)) }
    {
        if !keeps_base_and_codes(self.settings(), &settings) {
            return Err(Fault::BadSettings);
        }
        let joined = settings.participants() - self.settings().participants();
        let journals = self.copies_and(alloc, usize::from(joined))?;
        if !can_open(alloc, &settings, &journals)? {
            return Err(Fault::BadSettings);
        }
        Hub::open_from(alloc, settings, &journals, tellers)
    }
}
