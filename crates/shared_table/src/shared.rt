// The table.
ghost use Rattle.std.specs.Prelude.{◌≡◌, ◌≢◌, ℕ, ◌+◌, ◌*◌, ◌^◌, ◌<◌, ◌≤◌, replicate, List, [], ◌∷◌, length, slice_index, vec_len, vec_capacity, Option, None, Some, IfOk, IfSome, IfNone};
ghost use Rattle.slot_desk.specs.Steps.{AreDeskLimits};
ghost use Rattle.shared_table.specs.Layouts.{objects_of, cells_of, IsTableOf};
ghost use Rattle.shared_table.specs.Past.{IsSound, IsCellWord};
ghost use Rattle.shared_table.specs.Rule.{opener};
ghost use Rattle.shared_table.specs.Steps.{loaded, stored, parted, new_seat, joined, Told};
ghost use Rattle.shared_table.specs.Ends.{EndsAs};
ghost use Rattle.shared_table.specs.Seats.{IsSeatOf, IsFree, Holds, Took, Gave};

use crate::closing::{copy_words, take_desk, take_stripes};
use crate::object::{DeskState, Object, Slot, Stripe};
use crate::opening::{deal, sizes_of, spread_out, with_desk};
use crate::plays::{Closes, Gives, Lawful, Learns, Loads, Opens, Plan, SharedSeat, Stores, Takes};
use crate::view::View;
use atomic_table::Table;
use crossbeam_utils::Backoff;
use elf_image::Image;
use run_record::{Items, Limits, NoMemory};
use std::alloc::{AllocError, Global};
use std::marker::Model;
use std::snapshot::Snapshot;
use std::sync::Wait;

/// The values of the stripes, by number.
pub type Stripes = Items<Option<Stripe>>;

/// The words of the shadow cells, by number.
pub type CellWords = Items<u64>;

/// 64 memory stripes and the desk, each under a lock of its own, and the shadow cells, which are
/// words that threads load and store as they like. Object k below 64 is stripe k, and object 64 is
/// the desk. Cell `4 * granule + i` is cell i of the granule.
#[derive(Drop)]
pub struct Shared {
    table: Table<Slot, View, Plan, Lawful, Global>,
    granules: u32,
    places: Vec<u32>,
    // Room for what `close` leaves.
    stripes: Vec<Option<Stripe>>,
    cells: Vec<u64>,
}

impl Model for Shared {
    ghost use Rattle.std.specs.Prelude.{◌≡◌, ◌≤◌, ◌*◌, vec_len, vec_capacity};
    ghost use Rattle.shared_table.specs.Layouts.{SharedTable};
    ghost use Rattle.shared_table.specs.Plans.{layout_of};
    ghost use Rattle.shared_table.specs.Tables.{IsTable};

    ghost Value = { SharedTable };

    ghost view = { λ s. record {
      id = s.table.shared.table_id;
      layout = layout_of s.table.shared.key;
      places = s.places.items;
    } };

    ghost invariant = { λ s. IsTable s.table.shared.table_id (layout_of s.table.shared.key) s.granules s.places.items
        × (vec_len s.stripes ≡ 0) × (64 ≤ vec_capacity s.stripes) × (vec_len s.cells ≡ 0) × (4 * s.granules ≤ vec_capacity s.cells) };
}

/// What a table leaves. A value is `None` where a seat had it out.
#[derive(Drop)]
pub struct Closed {
    pub stripes: Stripes,
    pub desk: Option<DeskState>,
    pub cells: CellWords,
}

// The word of an object stands at eight times its number, and the cells behind these.
const CELLS_FROM: usize = 520;

fn zeros(alloc: Global, count: usize) -> Result<Vec<u64>, AllocError>
    ensures { IfOk result (λ v. v.items ≡ replicate count 0) }
{
    Vec::from_elem(alloc, 0u64, count)
}

impl Shared {
    /// A table over the image's memory, as it begins, and the opening seat.
    pub fn new(
        alloc: Global,
        image: &Image,
        limits: &Limits,
    ) -> Result<(Shared, SharedSeat), NoMemory>
        requires { AreDeskLimits limits.now }
        ensures table { IfOk result (λ r. IsTableOf image.now limits.now r.0) }
        ensures seat { IfOk result (λ r. IsSeatOf r.0 r.1 × (r.1.me ≡ (opener r.0.layout, []))) }
    {
        image.accepted();
        let granules = image.granules();
        let dealt = deal(alloc, image, limits)?;
        let sizes = sizes_of(alloc, dealt.stripes.as_slice())?;
        let firsts = with_desk(alloc, image, limits, dealt.stripes)?;
        let cell_count = 4 * granules as usize;
        let words = zeros(alloc, CELLS_FROM + cell_count)?;
        let stripes = Vec::with_capacity(alloc, 64)?;
        let cells = Vec::with_capacity(alloc, cell_count)?;
        let plan = Plan {
            firsts: Snapshot::of(&firsts),
            sizes: Snapshot::of(&sizes),
            granules,
            limits: *limits,
        };
        let slots = spread_out(alloc, firsts)?;
        match Table::new(alloc, words.as_slice(), slots, &plan) {
            Ok((table, seat)) => Ok((
                Shared {
                    table,
                    granules,
                    places: dealt.places,
                    stripes,
                    cells,
                },
                seat,
            )),
            Err(_) => Err(NoMemory),
        }
    }

    /// Where the granule's word stands among the words of its stripe.
    pub fn word_index(&self, granule: u32) -> u32
        requires { granule < self.now.layout.granules }
        ensures { result ≡ slice_index self.now.places granule }
    {
        self.places[granule as usize]
    }

    /// Waits until the object is free, and takes it.
    pub fn take<R: Wait>(&self, rt: &R, seat: &mut SharedSeat, object: u32) -> Object
        requires own { IsSeatOf self.now seat.old }
        requires free { IsFree seat.old.me }
        requires object { object ≤ 64 }
        ensures own { IsSeatOf self.now seat.new }
        ensures took { Took object seat.old.me result seat.new.me }
    {
        let backoff = Backoff::new();
        for _ in rt.forever() {
            if let Some(value) = self.try_take(seat, object) {
                return value;
            }
            backoff.snooze();
        }
        unreachable!()
    }

    // One try. It fails where the object is out.
    fn try_take(&self, seat: &mut SharedSeat, object: u32) -> Option<Object>
        requires own { IsSeatOf self.now seat.old }
        requires free { IsFree seat.old.me }
        requires object { object ≤ 64 }
        ensures own { IsSeatOf self.now seat.new }
        ensures some { IfSome result (λ y. Took object seat.old.me y seat.new.me) }
        ensures none { IfNone result (seat.new.me ≡ seat.old.me) }
    {
        let place = 8 * object as usize;
        let word = self.table.shared.peek(place);
        if word % 2 != 0 || word >= u64::MAX - 1 {
            return None;
        }
        let odd = word + 1;
        if self
            .table
            .shared
            .compare_exchange::<Takes>(seat, place, word, odd)
            != word
        {
            return None;
        }
        self.table.shared.exchange(seat, 4 * object as usize, None)
    }

    /// Gives the object back with this value.
    pub fn give(&self, seat: &mut SharedSeat, object: u32, value: Object)
        requires own { IsSeatOf self.now seat.old }
        requires holds { Holds seat.old.me object }
        requires object { object ≤ 64 }
        requires sound { IsSound self.now.layout object value }
        ensures own { IsSeatOf self.now seat.new }
        ensures gave { Gave seat.old.me value seat.new.me }
    {
        match self
            .table
            .shared
            .exchange(seat, 4 * object as usize, Some(value))
        {
            None => {}
            Some(_) => unreachable!(),
        }
        self.table
            .shared
            .fetch_add::<Gives>(seat, 8 * object as usize, 1);
    }

    /// The word of a shadow cell, in one step.
    pub fn load_cell(&self, seat: &mut SharedSeat, cell: u32) -> u64
        requires own { IsSeatOf self.now seat.old }
        requires cell { cell < cells_of self.now.layout }
        ensures own { IsSeatOf self.now seat.new }
        ensures log { seat.new.me ≡ (loaded seat.old.me.0 cell result, seat.old.me.1) }
        ensures word { result ≢ 0 → IsCellWord self.now.layout result }
    {
        self.table
            .shared
            .load::<Loads>(seat, CELLS_FROM + cell as usize)
    }

    /// Puts a word into a shadow cell, in one step.
    pub fn store_cell(&self, seat: &mut SharedSeat, cell: u32, word: u64)
        requires own { IsSeatOf self.now seat.old }
        requires cell { cell < cells_of self.now.layout }
        requires word { IsCellWord self.now.layout word }
        ensures own { IsSeatOf self.now seat.new }
        ensures log { seat.new.me ≡ (stored seat.old.me.0 cell word, seat.old.me.1) }
    {
        self.table
            .shared
            .store::<Stores>(seat, CELLS_FROM + cell as usize, word);
    }

    /// A new seat, whose number is how many were made so far.
    pub fn split(&self, seat: &mut SharedSeat) -> SharedSeat
        requires own { IsSeatOf self.now seat.old }
        requires opening { seat.old.me.0.number ≡ 0 }
        ensures own { IsSeatOf self.now seat.new }
        ensures log { seat.new.me ≡ (parted seat.old.me.0, seat.old.me.1) }
        ensures new { IsSeatOf self.now result × (result.me ≡ (new_seat seat.old.me.0, [])) }
    {
        self.table.shared.split_seat::<Opens>(seat)
    }

    /// The opening seat takes the other's log.
    pub fn join(&self, seat: &mut SharedSeat, other: SharedSeat)
        requires own { IsSeatOf self.now seat.old }
        requires opening { seat.old.me.0.number ≡ 0 }
        requires other { IsSeatOf self.now other }
        requires free { IsFree other.me }
        ensures own { IsSeatOf self.now seat.new }
        ensures log { seat.new.me ≡ (joined seat.old.me.0 other.me.0, seat.old.me.1) }
        ensures told { Told seat.new.me.0 }
    {
        self.table.shared.join_seat::<Closes>(seat, other);
        self.learn(seat);
    }

    /// Tells the opening seat all logs of seats that were joined.
    pub fn learn(&self, seat: &mut SharedSeat)
        requires own { IsSeatOf self.now seat.old }
        requires opening { seat.old.me.0.number ≡ 0 }
        ensures own { IsSeatOf self.now seat.new }
        ensures same { seat.new.me ≡ seat.old.me }
        ensures told { Told seat.new.me.0 }
    {
        self.table.shared.load::<Learns>(seat, 0);
    }

    /// The values of the objects and the words of the cells. It takes no memory.
    pub fn close(self, seat: SharedSeat) -> Closed
        requires own { IsSeatOf self seat }
        requires opening { seat.me.0.number ≡ 0 }
        ensures sizes { (length result.stripes ≡ 64) × (length result.cells ≡ cells_of self.layout) }
        ensures ends { EndsAs seat.me.0 result.stripes result.desk result.cells }
    {
        let Shared {
            table,
            granules,
            places: _,
            stripes,
            cells,
        } = self;
        let mut closed = table.close_with(seat);
        let cells = copy_words(&closed, 4 * granules as usize, cells);
        let stripes = take_stripes(&mut closed, stripes);
        let desk = take_desk(&mut closed);
        closed.free();
        Closed {
            stripes: Items::from_vec(stripes),
            desk,
            cells: Items::from_vec(cells),
        }
    }
}
