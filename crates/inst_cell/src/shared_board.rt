//! The shared board and the numbers of its words.
ghost use Rattle.std.specs.Prelude.{◌≡◌, ◌≤◌, ◌+◌, ◌*◌, length};
ghost use Rattle.std.specs.Arc.{arc_value};
ghost use Rattle.inst_cell.specs.View.{KnowsOne, knows_one_once};

mod board;
mod meeting;
mod opening;
mod stepping;

use crate::{Law, View};
use atomic_table::{Seat, Table};
use inst_command::Place;
use inst_settings::Settings;
pub use opening::MOST_TELLERS;
use std::alloc::Global;
use std::snapshot::Snapshot;
use std::sync::Arc;

/// The table of all outcome and terms words.
type Words = Table<(), View, Snapshot<Settings>, Law, Global>;

/// One slot's board over the words that all boards and sights of a hub share.
///
/// Implements [`Board`](inst_board::Board). No call blocks, and only opening and dealing allocate.
/// A look costs one atomic load, and five more if the place is opened; `place_state` one load; a
/// decision one load and at most one compare-exchange, which is never retried.
///
/// ```text
/// let (boards, sights) = SharedBoard::open(alloc, &settings, 2)?;
/// board.write_terms(place, &terms);    // the originator's board
/// board.open(place, deadline);
/// other.decide(place, Wish::Accept, at) // the beneficiary's, in any thread
/// ```
#[derive(Drop)]
pub struct SharedBoard {
    table: Arc<Words, Global>,
    seat: Seat<(), View>,
    participants: u16,
    places: u16,
    margin: u32,
    pub ghost seated: { seat.table_id ≡ (arc_value table).shared.table_id },
    pub ghost sized: { (arc_value table).shared.table_id.words ≡ places * participants * 6 },
    pub ghost participants_is: { participants ≡ length (arc_value table).shared.key.value.codes },
    pub ghost places_is: { places ≡ (arc_value table).shared.key.value.places },
    pub ghost some: { (1 ≤ participants) × (1 ≤ places) },
    pub ghost most: { (participants ≤ 256) × (places ≤ 1024) },
    pub ghost margin_is: { margin ≡ (arc_value table).shared.key.value.margin },
    pub ghost based: { seat.me.0.places ≡ (arc_value table).shared.key.value.places },
    pub ghost bounded: { seat.me.0.margin ≡ (arc_value table).shared.key.value.margin },
    pub ghost empty: { length seat.me.1 ≡ 0 },
    pub ghost one: { KnowsOne seat.me.0 } by { knows_one_once seat.me.0 },
}

impl SharedBoard {
    ghost use Rattle.inst_board.specs.Standing.{IsPlace, is_place};
    ghost use Rattle.inst_board.specs.Plain.{place_number};
    ghost use Rattle.inst_cell.specs.Held.{settings_of};

    /// Returns `true` if the settings have the place.
    fn has(&self, place: Place) -> bool
        ensures { result ≡ is_place (settings_of self.now) place }
    {
        u16::from(place.owner) < self.participants && place.index < self.places
    }

    /// Returns the number of the place's first word.
    fn first_word(&self, place: Place) -> usize
        requires { IsPlace (settings_of self.now) place }
        ensures value { result ≡ place_number (settings_of self.now) place * 6 }
        ensures within { result + 6 ≤ self.now.places * self.now.participants * 6 }
    {
        (usize::from(place.owner) * usize::from(self.places) + usize::from(place.index)) * 6
    }
}
