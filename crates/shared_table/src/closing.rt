// What is left of a table that no thread shares any more.
ghost use Rattle.std.specs.Prelude.{◌≡◌, ℕ, ◌+◌, ◌*◌, ◌<◌, ◌≤◌, slice_index, slice_index_or, vec_len, vec_capacity, None};
ghost use mathlib.Core.Option.{some};
ghost use lib.ListN.{get_elem?};
ghost use Rattle.shared_table.specs.Past.{Slot as Place};
ghost use Rattle.shared_table.specs.Rule.{word_place, slot_place};
ghost use Rattle.shared_table.specs.Ends.{ends_as, stripe_in, desk_in, Filled, AreEmpty};

use crate::object::{DeskState, Object, Slot, Stripe};
use atomic_table::Closed as Table;
use std::alloc::Global;

fn value_if_even(word: u64, value: Slot) -> Slot
    ensures { result ≡ ends_as word value }
{
    if word % 2 == 0 { value } else { None }
}

fn discard(_value: Slot) {}

// Takes the value of an object, and what the empty slots behind it have. The value counts where the
// object's word is even.
fn take_value(table: &mut Table<Slot, Global>, object: usize) -> Slot
    requires size { (table.old.slots.len ≡ 260) × (520 ≤ table.old.words.len) × (object ≤ 64) }
    requires slots { Filled table.old.slots.filled (4 * object) 260 }
    requires words { Filled table.old.words.filled 0 table.old.words.len }
    ensures value { (y : Place) → get_elem? (table.old.slots.items) (slot_place object) ≡ some y → result ≡ ends_as (slice_index (table.old.words.items) (word_place object)) y }
    ensures rest { Filled table.new.slots.filled (4 * object + 4) 260 }
    ensures gone { AreEmpty table.old.slots.filled (4 * object) → AreEmpty table.new.slots.filled (4 * object + 4) }
    ensures same { (table.new.words ≡ table.old.words) × (table.new.slots.items ≡ table.old.slots.items) × (table.new.slots.len ≡ table.old.slots.len) }
{
    let word = table.word(8 * object);
    let value = table.take(4 * object);
    discard(table.take(4 * object + 1));
    discard(table.take(4 * object + 2));
    discard(table.take(4 * object + 3));
    value_if_even(word, value)
}

fn stripe_of(value: Slot) -> Option<Stripe>
    ensures { result ≡ stripe_in value }
{
    match value {
        Some(Object::Stripe(stripe)) => Some(Box::into_inner(stripe)),
        _ => None,
    }
}

fn desk_of(value: Slot) -> Option<DeskState>
    ensures { result ≡ desk_in value }
{
    match value {
        Some(Object::Desk(desk)) => Some(Box::into_inner(desk)),
        _ => None,
    }
}

pub(crate) fn take_stripes(
    table: &mut Table<Slot, Global>,
    mut room: Vec<Option<Stripe>>,
) -> Vec<Option<Stripe>>
    requires size { (table.old.slots.len ≡ 260) × (520 ≤ table.old.words.len) }
    requires slots { Filled table.old.slots.filled 0 260 }
    requires words { Filled table.old.words.filled 0 table.old.words.len }
    requires room { (vec_len room ≡ 0) × (64 ≤ vec_capacity room) }
    ensures len { vec_len result ≡ 64 }
    ensures values { (k : ℕ) (y : Place) → k < 64 → get_elem? (table.old.slots.items) (slot_place k) ≡ some y → slice_index_or result.items k None ≡ stripe_in (ends_as (slice_index (table.old.words.items) (word_place k)) y) }
    ensures rest { Filled table.new.slots.filled 256 260 }
    ensures gone { AreEmpty table.new.slots.filled 256 }
    ensures same { (table.new.words ≡ table.old.words) × (table.new.slots.items ≡ table.old.slots.items) × (table.new.slots.len ≡ table.old.slots.len) }
{
    for stripe in 0..64 {
        let value = take_value(table, stripe);
        room.push_reserved(stripe_of(value));
    }
    room
}

pub(crate) fn take_desk(table: &mut Table<Slot, Global>) -> Option<DeskState>
    requires size { (table.old.slots.len ≡ 260) × (520 ≤ table.old.words.len) }
    requires slots { Filled table.old.slots.filled 256 260 }
    requires words { Filled table.old.words.filled 0 table.old.words.len }
    requires gone { AreEmpty table.old.slots.filled 256 }
    ensures value { (y : Place) → get_elem? (table.old.slots.items) (slot_place 64) ≡ some y → result ≡ desk_in (ends_as (slice_index (table.old.words.items) (word_place 64)) y) }
    ensures gone { (table.new.slots.len ≡ 260) × AreEmpty table.new.slots.filled 260 }
{
    let value = take_value(table, 64);
    desk_of(value)
}

pub(crate) fn copy_words(table: &Table<Slot, Global>, cells: usize, mut room: Vec<u64>) -> Vec<u64>
    requires size { table.now.words.len ≡ 520 + cells }
    requires full { Filled table.now.words.filled 0 table.now.words.len }
    requires room { (vec_len room ≡ 0) × (cells ≤ vec_capacity room) }
    ensures len { vec_len result ≡ cells }
    ensures values { (c : ℕ) → c < cells → slice_index result.items c ≡ slice_index (table.now.words.items) (520 + c) }
{
    for i in 0..cells {
        room.push_reserved(table.word(520 + i));
    }
    room
}
