// The set of synchronisation objects.
ghost use Rattle.std.specs.Prelude.{◌≡◌, ℕ, ◌≤◌, ◌+◌, [], length, IfOk, OnOk, IsOk, None};
ghost use Rattle.vector_clock.specs.Clocks.{joined};

use crate::id::ObjectId;
use crate::index::Index;
use crate::object::Object;
use crate::{index, object};
use indexmap::IndexMap;
use run_record::{NoMemory, Part};
use slab::Slab;
use std::alloc::Global;
use std::marker::Model;
use vector_clock::Clock;

/// The synchronisation objects of some addresses. Contracts see a list of them, in any order, with the number of slots
/// of their clocks and `spare`, the number of new objects that need no memory.
#[derive(Drop)]
pub struct SyncSet {
    alloc: Global,
    slots: u32,
    objects: Slab<Object>,
    index: Index,
    // The clock for the next new object.
    kept_clock: Option<Clock>,
    // A new object needs no memory: there is a kept clock, and room in the slab and the index.
    has_spare: bool,
}

impl Model for SyncSet {
    ghost use Rattle.std.specs.Prelude.{if◌then◌else◌};
    ghost use Rattle.sync_slab.specs.Objects.{SyncObjects};
    ghost use Rattle.sync_slab.specs.Inside.{objects_of, IsSound};

    ghost Value = { SyncObjects };

    ghost view = { λ set. record {
      slots = set.slots;
      objects = objects_of set.objects set.index;
      spare = if set.has_spare then 1 else 0;
    } };

    ghost invariant = { λ set. IsSound set.slots set.objects set.index set.kept_clock set.has_spare };
}

impl SyncSet {
    ghost use Rattle.run_record.specs.declared.event.Part.TheVariants.{Main};
    ghost use Rattle.sync_slab.specs.Objects.{AreObjects, object_at, clock_in, Puts, Ends, Removes};

    /// No objects. Their clocks will have 1 to 255 slots.
    pub fn new(alloc: Global, slots: u32) -> Result<SyncSet, NoMemory>
        requires { (1 ≤ slots) × (slots ≤ 255) }
        ensures slots { IfOk result (λ set. set.slots ≡ slots) }
        ensures empty { IfOk result (λ set. set.objects ≡ []) }
    {
        Ok(SyncSet {
            alloc,
            slots,
            objects: Slab::new(alloc),
            index: IndexMap::new(alloc),
            kept_clock: Some(Clock::new(alloc, slots)?),
            has_spare: false,
        })
    }

    /// Makes room for one new object.
    pub fn reserve_one(&mut self) -> Result<(), NoMemory>
        ensures ok { OnOk result (1 ≤ self.new.spare) }
        ensures succeeds { 1 ≤ self.old.spare → IsOk result }
        ensures rest_kept { self.new ≡ record self.old { spare = self.new.spare } }
        ensures spare_kept { self.old.spare ≤ self.new.spare }
    {
        if self.has_spare {
            return Ok(());
        }
        if self.kept_clock.is_none() {
            self.kept_clock = Some(Clock::new(self.alloc, self.slots)?);
        }
        self.objects.reserve(1)?;
        self.index.reserve(1)?;
        self.has_spare = true;
        Ok(())
    }

    /// Joins what was released to the object in this era.
    pub fn acquire(&self, era: u32, addr: u64, part: Part, clock: &mut Clock)
        requires { length clock.old ≡ self.now.slots }
        ensures joins { clock.new ≡ joined clock.old (clock_in self.now era addr part) }
        ensures slots { length clock.new ≡ self.now.slots }
    {
        if let Some(at) = index::find(&self.index, ObjectId { addr, part }) {
            let object = &self.objects[at];
            if object.era == era {
                clock.join(&object.clock);
            }
        }
    }

    /// Puts the clock in place of the object's.
    pub fn release_store(&mut self, era: u32, addr: u64, part: Part, clock: &Clock)
        requires room { 1 ≤ self.old.spare }
        requires slots { length clock.now ≡ self.old.slots }
        ensures puts { Puts self.old self.new (record { addr = addr; part = part; era = era; clock = clock.now }) }
        ensures objects { AreObjects self.new }
        ensures spare { self.old.spare ≤ self.new.spare + 1 }
    {
        let id = ObjectId { addr, part };
        match index::find(&self.index, id) {
            Some(at) => object::replace(&mut self.objects[at], era, clock),
            None => self.add(id, era, clock),
        }
    }

    /// Joins the clock to what was released to the object in this era.
    pub fn release_join(&mut self, era: u32, addr: u64, part: Part, clock: &Clock)
        requires room { 1 ≤ self.old.spare }
        requires slots { length clock.now ≡ self.old.slots }
        ensures puts { Puts self.old self.new (record { addr = addr; part = part; era = era; clock = joined (clock_in self.old era addr part) clock.now }) }
        ensures objects { AreObjects self.new }
        ensures spare { self.old.spare ≤ self.new.spare + 1 }
    {
        let id = ObjectId { addr, part };
        match index::find(&self.index, id) {
            Some(at) => object::join(&mut self.objects[at], era, clock),
            None => self.add(id, era, clock),
        }
    }

    // Adds an object that wasn't there.
    fn add(&mut self, id: ObjectId, era: u32, clock: &Clock)
        requires room { 1 ≤ self.old.spare }
        requires slots { length clock.now ≡ self.old.slots }
        requires absent { object_at self.old id.addr id.part ≡ None }
        ensures puts { Puts self.old self.new (record { addr = id.addr; part = id.part; era = era; clock = clock.now }) }
        ensures objects { AreObjects self.new }
    {
        let mut own = self.kept_clock.take().unwrap();
        own.copy_from(clock);
        let at = self.objects.insert_reserved(Object { era, clock: own });
        index::add(&mut self.index, id, at);
        self.has_spare = false;
    }

    /// Takes both objects of the address away.
    pub fn destroy(&mut self, addr: u64)
        ensures ends { Ends self.old self.new addr }
        ensures objects { AreObjects self.new }
        ensures spare { self.old.spare ≤ self.new.spare }
    {
        self.remove(ObjectId {
            addr,
            part: Part::Main,
        });
        self.remove(ObjectId {
            addr,
            part: Part::Readers,
        });
    }

    /// Takes the object of the address and the part Main away.
    pub fn clear(&mut self, addr: u64)
        ensures removes { Removes self.old self.new addr Main }
        ensures objects { AreObjects self.new }
        ensures spare { self.old.spare ≤ self.new.spare }
    {
        let main = ObjectId {
            addr,
            part: Part::Main,
        };
        self.remove(main);
    }

    // Takes an object away, and keeps its clock for the next new one where none is kept.
    fn remove(&mut self, id: ObjectId)
        ensures removes { Removes self.old self.new id.addr id.part }
        ensures objects { AreObjects self.new }
        ensures spare { self.old.spare ≤ self.new.spare }
    {
        if let Some(at) = index::remove(&mut self.index, id) {
            let object = self.objects.remove(at);
            object::keep(&mut self.kept_clock, object.clock);
        }
    }
}
