//! Tickets.
ghost use Rattle.std.specs.Prelude.{◌≡◌};

use inst_command::Place;
use std::marker::Model;

/// Names a place, so that a caller can ask later for its state. In contracts a ticket is its place.
#[derive(Clone, Copy, Debug, PartialEq, Eq)]
pub struct Ticket {
    place: Place,
}

impl Model for Ticket {
    ghost use Rattle.inst_command.specs.declared.place.Place.{Place};

    ghost Value = { Place };

    ghost view = { λ t. t.place };

    ghost inverse = { λ p. record { place = p } };
}

impl Ticket {
    /// Makes a ticket of the place.
    pub(crate) fn of(place: Place) -> Ticket
        ensures { result ≡ place }
    {
        Ticket { place }
    }

    /// Returns the place that the ticket names.
    pub fn place(&self) -> Place
        ensures { result ≡ self.now }
    {
        self.place
    }
}
