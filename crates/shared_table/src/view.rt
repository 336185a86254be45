// What a seat knows. No value of these types is made.
ghost use Rattle.std.specs.Prelude.{ℕ};

use crate::object::{Object, Slot};
use run_record::Limits;
use std::collections::LinkedList;

/// What is settled when a table is made, and never changes.
pub struct Layout {
    /// The first values of the objects.
    pub firsts: LinkedList<Slot>,
    /// How many granules each stripe has.
    pub sizes: LinkedList<u32>,
    /// How many granules there are. Each has four shadow cells.
    pub granules: u32,
    pub limits: Limits,
}

/// A step of a seat: what its log has of it. Takings out and puttings in of an object's value aren't
/// logged.
pub enum Item {
    /// A new seat was made: its number.
    Split(u64),
    /// A seat was joined: its number.
    Join(u64),
    /// A turn began: its object and the turn's number, from 1.
    Take(u64, u64),
    /// The turn ended: its object, the turn's number, the value that it found and the one that it left.
    Give(u64, u64, Object, Object),
    /// A shadow cell was loaded: its number, and the word that came.
    Load(u64, u64),
    /// A shadow cell was stored: its number, and the word.
    Store(u64, u64),
}

/// The open turn of a seat: its object, how many turns of it were finished before, and the value that
/// was found.
pub struct Held {
    pub object: u64,
    pub done: u64,
    pub found: Object,
}

/// What one seat knows.
pub struct View {
    /// A seat that was joined is live no more.
    pub live: bool,
    /// The opening seat has 0, and the others the numbers from 1 in the order in which they were made.
    pub number: u64,
    /// The steps of this seat, the first one first.
    pub log: LinkedList<Item>,
    pub held: Option<Held>,
    /// Of the opening seat: by number, the log of each seat that was joined, and `None` for each other
    /// that was made.
    pub logs: LinkedList<Option<LinkedList<Item>>>,
    pub layout: Layout,
}
