//! The rule of the table, and what each step shows its caller.
ghost use Rattle.tally_desk.specs.inside.Rule.{Orderly};
ghost use Rattle.tally_desk.specs.inside.Views.{opening_view, spent, dealt, kept, joined};
ghost use Rattle.tally_desk.specs.inside.Steps.{Draws, Looks, Counts, Leaves, Tells};

use crate::lock::view::View;
use atomic_table::{Join, Play, Split, TableRule};
use tally_book::{Book, Room};
use tally_clock::Clock;

/// What a table opens with: how many callers it has, the clock of the book's days, and the room of the book.
#[derive(Drop)]
pub struct Opening {
    pub callers: u32,
    pub clock: Clock,
    pub room: Room,
}

/// The table of so many callers: its words are the calls, the next ticket and the ticket that is
/// served, and its slot is the book.
pub struct Order;

impl TableRule<Book, View, Opening> for Order {
    ghost holds = { λ o. Orderly o.callers };

    ghost first = { opening_view };
}

/// A ticket is drawn.
pub struct Draw;

impl Play<Book, View> for Draw {
    ghost then = { Draws };
}

/// The ticket that is served is read, and the book taken where it is the own one.
pub struct Look;

impl Play<Book, View> for Look {
    ghost then = { Looks };
}

/// A call is counted.
pub struct Count;

impl Play<Book, View> for Count {
    ghost then = { Counts };
}

/// The book is given back, and the next ticket served.
pub struct Leave;

impl Play<Book, View> for Leave {
    ghost then = { Leaves };
}

/// The number of calls is read.
pub struct Tell;

impl Play<Book, View> for Tell {
    ghost then = { Tells };
}

/// Gives the first caller to a new seat.
pub struct Deal;

impl Split<View> for Deal {
    ghost left = { kept };

    ghost right = { dealt };
}

/// Gathers what two seats know.
pub struct Gather;

impl Join<View> for Gather {
    ghost both = { joined };

    ghost spent = { spent };
}
