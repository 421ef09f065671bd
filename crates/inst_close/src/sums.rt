//! Sums over all books.
ghost use Rattle.std.specs.Prelude.{◌≡◌, pos};
ghost use Rattle.inst_journal.specs.Money.{position};
ghost use Rattle.inst_journal.specs.Sums.{net};
ghost use Rattle.inst_model.specs.Untold.{sum_over_participants, signed_total};
ghost use Rattle.inst_participant.specs.Together.{histories};

use crate::Books;

impl Books {
    /// Returns the net funding of all participants over all openings, in cents: what was funded
    /// less what was defunded. Scans the events of all books.
    pub fn net(&self) -> u128
        ensures { pos result
            ≡ signed_total self.now.settings (λ p. net (histories self.now.books p)) }
    {
        let mut total = 0;
        for slot in self.slots.as_slice() {
            total += slot.journal().net();
        }
        total.unsigned_abs()
    }

    /// Returns the sum of all positions, in cents. It is the net funding, since the books are
    /// closed.
    pub fn sum(&self) -> u128
        ensures sum { result ≡ sum_over_participants self.now.settings (λ p.
            position (histories self.now.books p)) }
        ensures net { pos result
            ≡ signed_total self.now.settings (λ p. net (histories self.now.books p)) }
    {
        let mut total = 0;
        for slot in self.slots.as_slice() {
            total += slot.position();
        }
        total
    }
}
