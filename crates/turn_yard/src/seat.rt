ghost use Rattle.std.specs.Prelude.{◌≡◌};

use crate::view::View;
use atomic_table::Seat;
use std::marker::Model;

/// What one worker takes turns with. Contracts see its yard, its number, and what it has seen, added and
/// noted.
#[derive(Drop)]
pub struct YardSeat<T> {
    pub(crate) seat: Seat<Option<T>, View>,
    pub(crate) number: u32,
}

impl<T> Model for YardSeat<T> {
    ghost use Rattle.turn_yard.specs.Seat.{SeatState};

    ghost Value = { SeatState };

    ghost use Rattle.turn_yard.specs.Inside.{seat_state, IsSeat};

    ghost view = { λ s. seat_state s.seat.table_id s.seat.me.0 };

    ghost invariant = { λ s. IsSeat s.seat.table_id s.seat.me s.number };
}

/// Seats of workers, such as all that a yard made.
pub type Seats<T> = Vec<YardSeat<T>>;

impl<T> YardSeat<T> {
    /// The number of the seat at its yard, which each entry that it adds bears.
    pub fn number(&self) -> u32
        ensures { result ≡ self.now.number }
    {
        self.number
    }
}
