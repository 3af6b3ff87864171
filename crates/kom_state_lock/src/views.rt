// What a seat at the table of a hall knows. No value of these types is made.
use std::collections::LinkedList;

/// How far a seat is with its turn.
pub enum Turn<B, E> {
    /// It has no ticket.
    Resting,
    /// It has drawn this ticket.
    Waiting(u64),
    /// The ticket has the turn: the value that was taken, and the history that leads to it.
    Holding(u64, B, LinkedList<E>),
    /// The turn of this ticket is logged, with this value.
    Logged(u64, B),
    /// The seat was joined into another one.
    Spent,
    /// The hall is closed.
    Closed,
}

/// What was known to a seat that was joined into another one.
pub struct Share<E> {
    pub number: u32,
    pub mine: LinkedList<E>,
}

/// What a seat knows.
pub struct View<B, E> {
    pub number: u32,
    pub seen: LinkedList<E>,
    pub mine: LinkedList<E>,
    /// One more than the greatest ticket that the seat knows to be drawn, or 0.
    pub drawn: u64,
    pub turn: Turn<B, E>,
    /// The seats that were joined into this one.
    pub joined: LinkedList<Share<E>>,
    /// What this seat and they had seen when they were joined.
    pub beginnings: LinkedList<LinkedList<E>>,
    /// For the seat that splits: the number of the next one.
    pub next: u32,
}
