//! What a seat of the table knows. No value of these types is made.
use std::collections::LinkedList;
use tally_book::{Book, Call};

/// What a caller knows: the contents that it has seen of the book, its own calls, and the number of
/// calls that it last learned.
pub struct Known {
    pub number: u32,
    pub seen: Book,
    pub mine: LinkedList<Call>,
    pub told: u64,
}

/// Where a caller stands: it holds no ticket, waits with one, or has its turn and the book, which
/// had these contents as it took it or counted its call.
pub enum Stage {
    Idle,
    Waiting(u64),
    Serving(u64, Book),
}

/// The callers whose passes the seat stands for, and the stage.
pub struct View {
    pub known: LinkedList<Known>,
    pub stage: Stage,
}
