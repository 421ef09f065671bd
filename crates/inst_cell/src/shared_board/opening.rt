//! Opening: makes the words of a hub, the boards of its slots and the sights of its tellers.
ghost use Rattle.std.specs.Prelude.{◌≡◌, ◌⊎◌, ◌↔◌, Err, IfOk, IfErr};
ghost use Rattle.inst_cell.specs.View.{first_view};
ghost use Rattle.inst_board.specs.declared.about.Fact.{Fact};
ghost use Rattle.inst_cell.specs.Held.{settings_of, view_of, knows, AtOneTable};
ghost use Rattle.inst_cell.specs.Opening.{HasAllRoles, IsWhole, AreDealt, AreAdmitted, AreOpened};
ghost use Rattle.inst_cell.specs.Opening.{MayOpen, CutsView};

use super::SharedBoard;
use crate::Sight;
use crate::steps::{HandOver, Tell};
use crate::view::View;
use atomic_table::{Split, Table};
use inst_base::Fault;
use inst_settings::Settings;
use std::alloc::{AllocError, Global};
use std::snapshot::Snapshot;
use std::sync::Arc;

/// The most tellers that a hub opens with.
pub const MOST_TELLERS: u8 = 16;

impl SharedBoard {
    /// Makes a second board of the same table. The split `S` says which roles and what knowledge
    /// each gets.
    fn beside<S: Split<View>>(&mut self) -> Result<SharedBoard, AllocError>
        requires { CutsView S.Split.left S.Split.right }
        ensures new { IfOk result (λ b. AtOneTable self.old b
            × (view_of b ≡ S.Split.right (view_of self.old))) }
        ensures old { IfOk result (λ b. AtOneTable self.old self.new
            × (view_of self.new ≡ S.Split.left (view_of self.old))) }
    {
        let table = Arc::try_clone(&self.table)?;
        let seat = self.table.shared.split_seat::<S>(&mut self.seat);
        Ok(SharedBoard {
            table,
            seat,
            participants: self.participants,
            places: self.places,
            margin: self.margin,
        })
    }

    /// Makes a table with all words 0 and a board with all roles, which knows nothing.
    fn whole(alloc: Global, settings: &Settings) -> Result<SharedBoard, AllocError>
        ensures board { IfOk result (λ b. (settings_of b ≡ settings.now)
            × (view_of b ≡ first_view settings.now)) }
    {
        let participants = settings.participants();
        let places = settings.places();
        let size = usize::from(places) * usize::from(participants) * 6;
        let words = vec![in alloc; 0; size]?;
        let key = Snapshot::of(settings);
        let (table, seat) = Table::of_words(alloc, words.as_slice(), &key)?;
        let table = Arc::new(alloc, table)?;
        Ok(SharedBoard {
            table,
            seat,
            participants,
            places,
            margin: settings.margin(),
        })
    }
}

impl SharedBoard {
    /// Makes a sight for each teller. The sights know nothing.
    fn admit(&mut self, alloc: Global, tellers: u8) -> Result<Vec<Sight>, AllocError>
        requires { (f : Fact) → ¬ knows self.old f }
        ensures sights { IfOk result (λ all. AreAdmitted self.old tellers all.items) }
        ensures same { IfOk result (λ _. AtOneTable self.old self.new
            × (view_of self.new ≡ view_of self.old)) }
    {
        let mut all = Vec::new(alloc);
        for _next in 0..tellers {
            let board = self.beside::<Tell>()?;
            all.push(Sight::of(board))?;
        }
        Ok(all)
    }

    /// Opens the board of a hub: one board with the roles of all participants, and a sight for each
    /// teller. None of them knows of any place.
    ///
    /// Until it is dealt, this one board can open places and decide for all participants.
    ///
    /// # Errors
    ///
    /// `BadSettings` exactly if `tellers` is not 1 to 16; [`Memory`](Fault::Memory) if allocation
    /// fails.
    pub fn open_whole(
        alloc: Global,
        settings: &Settings,
        tellers: u8,
    ) -> Result<(SharedBoard, Vec<Sight>), Fault>
        ensures whole { IfOk result (λ r. IsWhole settings.now r.0) }
        ensures sights { IfOk result (λ r. AreAdmitted r.0 tellers r.1.items) }
        ensures bad { (result ≡ Err Fault.BadSettings) ↔ ¬ MayOpen tellers }
        ensures only { IfErr result (λ e. (e ≡ Fault.Memory) ⊎ (e ≡ Fault.BadSettings)) }
    {
        if tellers == 0 || tellers > MOST_TELLERS {
            return Err(Fault::BadSettings);
        }
        let mut all = SharedBoard::whole(alloc, settings)?;
        let sights = all.admit(alloc, tellers)?;
        Ok((all, sights))
    }

    /// Splits a board with all roles into one board for each participant, by number.
    ///
    /// Each has its participant's role alone, and knows what this board knew.
    ///
    /// # Errors
    ///
    /// [`AllocError`] if the boards can't be allocated; the board is dropped.
    pub fn deal(self, alloc: Global) -> Result<Vec<SharedBoard>, AllocError>
        requires { HasAllRoles self }
        ensures boards { IfOk result (λ boards. AreDealt self boards.items) }
    {
        let mut all = self;
        let mut boards = Vec::new(alloc);
        for _next in 0..all.participants {
            let board = all.beside::<HandOver>()?;
            boards.push(board)?;
        }
        Ok(boards)
    }

    /// Opens the boards of a hub, one for each participant, by number, with that role alone, and a
    /// sight for each teller. None of them knows of any place.
    ///
    /// # Errors
    ///
    /// `BadSettings` exactly if `tellers` is not 1 to 16; [`Memory`](Fault::Memory) if allocation
    /// fails.
    pub fn open(
        alloc: Global,
        settings: &Settings,
        tellers: u8,
    ) -> Result<(Vec<SharedBoard>, Vec<Sight>), Fault>
        ensures ok { IfOk result (λ r. AreOpened settings.now tellers r.0.items r.1.items) }
        ensures bad { (result ≡ Err Fault.BadSettings) ↔ ¬ MayOpen tellers }
        ensures only { IfErr result (λ e. (e ≡ Fault.Memory) ⊎ (e ≡ Fault.BadSettings)) }
    {
        let (all, sights) = SharedBoard::open_whole(alloc, settings, tellers)?;
        Ok((all.deal(alloc)?, sights))
    }
}
