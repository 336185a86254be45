// The values that the table keeps under locks.
ghost use Rattle.std.specs.Prelude.{◌≡◌, ◌<◌, ◌∷◌, ◌++◌, [], length, slice_index, slice_set, OnOk};

use guest_memory::Reservations;
use machine_desk::MachineDesk;
use slot_desk::Desk;
use std::alloc::AllocError;
use std::marker::Model;
use sync_slab::SyncSet;

/// Words of guest memory, one for each granule. Contracts see them as a list.
#[derive(Drop)]
pub struct GuestWords {
    words: Vec<u64>,
}

impl Model for GuestWords {
    ghost use Rattle.std.specs.Prelude.{List, ℕ};

    ghost Value = { List ℕ };

    ghost view = { λ it. it.words.items };
}

impl GuestWords {
    /// The words of a `Vec`, which are moved.
    pub fn from_vec(words: Vec<u64>) -> GuestWords
        ensures { result ≡ words.items }
    {
        GuestWords { words }
    }

    /// The `Vec` of the words, which are moved.
    pub fn into_vec(self) -> Vec<u64>
        ensures { result.items ≡ self }
    {
        let GuestWords { words } = self;
        words
    }

    pub fn as_slice(&self) -> &[u64]
        ensures { result.now ≡ self.now }
    {
        self.words.as_slice()
    }

    pub fn len(&self) -> usize
        ensures { result ≡ length self.now }
    {
        self.words.len()
    }

    pub(crate) fn push(&mut self, word: u64) -> Result<(), AllocError>
        ensures { OnOk result (self.new ≡ self.old ++ word ∷ []) }
    {
        self.words.push(word)?;
        Ok(())
    }

    pub fn get(&self, index: u32) -> u64
        requires { index < length self.now }
        ensures { result ≡ slice_index self.now index }
    {
        self.words[index as usize]
    }

    pub fn set(&mut self, index: u32, word: u64)
        requires { index < length self.old }
        ensures { self.new ≡ slice_set self.old index word }
    {
        self.words[index as usize] = word;
    }
}

/// A stripe of guest memory: the granules whose address, divided by eight, has one remainder modulo 64.
#[derive(Drop)]
pub struct Stripe {
    /// The words of its granules, by rising granule.
    pub words: GuestWords,
    /// The threads that have reserved one of its granules.
    pub reserved: Reservations,
    /// The synchronisation objects at its addresses.
    pub sync: SyncSet,
    /// The stamp of the last entry that used it; 0 before the first.
    pub last: u64,
}

/// The desk.
#[derive(Drop)]
pub struct DeskState {
    /// The slots, which threads live, and the clocks that wait for threads.
    pub desk: Desk,
    /// The threads as they were made, the output, and the first exit or fault.
    pub machine: MachineDesk,
    /// The stamp of the last entry that used it; 0 before the first.
    pub last: u64,
}

/// What one lock keeps. Objects 0 to 63 are the stripes, and 64 is the desk. Each is on the heap, so
/// that a turn moves it at the cost of a pointer.
#[derive(Drop)]
pub enum Object {
    Stripe(Box<Stripe>),
    Desk(Box<DeskState>),
}

/// The place of an object in the table. It is empty while a seat has the object out.
pub type Slot = Option<Object>;
