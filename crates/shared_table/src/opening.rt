// The objects as they begin.
ghost use Rattle.std.specs.Prelude.{◌≡◌, ℕ, ◌+◌, ◌^◌, ◌<◌, ◌∷◌, ◌++◌, [], length, slice_index, slice_index_or, vec_len, IfOk, OnOk, None};
ghost use Rattle.elf_image.specs.File.{granules_of};
ghost use Rattle.slot_desk.specs.Steps.{AreDeskLimits};
ghost use Rattle.run_record.specs.declared.limits.Limits.{Limits};
ghost use Rattle.shared_table.specs.Opening.{words_in, IsBlank, AreBlank, AreDealt, HasDesk, spread};

use crate::object::{DeskState, GuestWords, Object, Slot, Stripe};
use elf_image::Image;
use guest_memory::Reservations;
use machine_desk::MachineDesk;
use run_record::{Limits, NoMemory};
use slot_desk::Desk;
use std::alloc::{AllocError, Global};
use sync_slab::SyncSet;

/// The stripes and where the word of each granule stands in its stripe.
#[derive(Drop)]
pub(crate) struct Dealt {
    pub stripes: Vec<Slot>,
    pub places: Vec<u32>,
}

fn blank_stripe(alloc: Global, limits: &Limits) -> Result<Slot, NoMemory>
    requires { AreDeskLimits limits.now }
    ensures blank { IfOk result (IsBlank limits.now) }
    ensures words { IfOk result (λ x. words_in x ≡ []) }
{
    let stripe = Stripe {
        words: GuestWords::from_vec(Vec::new(alloc)),
        reserved: Reservations::new(alloc),
        sync: SyncSet::new(alloc, limits.slots)?,
        last: 0,
    };
    Ok(Some(Object::Stripe(Box::new(alloc, stripe)?)))
}

// The 64 stripes with no words.
fn blank_stripes(alloc: Global, limits: &Limits) -> Result<Vec<Slot>, NoMemory>
    requires { AreDeskLimits limits.now }
    ensures { IfOk result (λ v. (vec_len v ≡ 64) × AreBlank limits.now 64 v.items) }
{
    let mut stripes = Vec::with_capacity(alloc, 65)?;
    for _ in 0usize..64 {
        stripes.push(blank_stripe(alloc, limits)?)?;
    }
    Ok(stripes)
}

// How many words the stripe has.
fn word_count(slot: &Slot) -> u32
    requires { length (words_in slot.now) < 2 ^ 32 }
    ensures { result ≡ length (words_in slot.now) }
{
    match slot {
        Some(Object::Stripe(stripe)) => stripe.words.len() as u32,
        _ => 0,
    }
}

// The stripe gets one more word.
fn append(slot: &mut Slot, word: u64) -> Result<(), AllocError>
    ensures blank { (limits : Limits) → IsBlank limits slot.old → IsBlank limits slot.new }
    ensures words { (limits : Limits) → IsBlank limits slot.old → OnOk result (words_in slot.new ≡ words_in slot.old ++ word ∷ []) }
{
    match slot {
        Some(Object::Stripe(stripe)) => stripe.words.push(word),
        _ => Ok(()),
    }
}

/// The words of all granules in their stripes, by rising granule.
pub(crate) fn deal(alloc: Global, image: &Image, limits: &Limits) -> Result<Dealt, NoMemory>
    requires { AreDeskLimits limits.now }
    ensures { IfOk result (λ d. AreDealt image.now limits.now (granules_of image.now) d.stripes.items d.places.items) }
{
    image.accepted();
    let granules = image.granules();
    let mut stripes = blank_stripes(alloc, limits)?;
    let mut places = Vec::with_capacity(alloc, granules as usize)?;
    for granule in 0..granules {
        let stripe = (image.granule_address(granule) / 8 % 64) as usize;
        places.push(word_count(&stripes[stripe]))?;
        append(&mut stripes[stripe], image.initial_word(granule))?;
    }
    Ok(Dealt { stripes, places })
}

/// How many words each stripe has.
pub(crate) fn sizes_of(alloc: Global, stripes: &[Slot]) -> Result<Vec<u32>, NoMemory>
    requires { (k : ℕ) → k < length stripes.now → length (words_in (slice_index_or stripes.now k None)) < 2 ^ 32 }
    ensures { IfOk result (λ v. (k : ℕ) → k < length stripes.now → slice_index v.items k ≡ length (words_in (slice_index_or stripes.now k None))) }
{
    let mut sizes = Vec::with_capacity(alloc, stripes.len())?;
    for stripe in stripes {
        sizes.push(word_count(stripe))?;
    }
    Ok(sizes)
}

/// The desk behind the stripes.
pub(crate) fn with_desk(
    alloc: Global,
    image: &Image,
    limits: &Limits,
    mut objects: Vec<Slot>,
) -> Result<Vec<Slot>, NoMemory>
    requires { AreDeskLimits limits.now }
    ensures { IfOk result (λ v. HasDesk image.now limits.now objects.items v.items) }
{
    let desk = Desk::new(alloc, limits)?;
    let machine = MachineDesk::new(alloc, image.entry())?;
    let state = DeskState {
        desk,
        machine,
        last: 0,
    };
    let state = Box::new(alloc, state)?;
    objects.push(Some(Object::Desk(state)))?;
    Ok(objects)
}

/// The values with three empty slots after each.
pub(crate) fn spread_out(alloc: Global, objects: Vec<Slot>) -> Result<Vec<Slot>, NoMemory>
    ensures { IfOk result (λ v. v.items ≡ spread objects.items) }
{
    let mut slots = Vec::with_capacity(alloc, 260)?;
    for value in objects {
        slots.push(value)?;
        slots.push(None)?;
        slots.push(None)?;
        slots.push(None)?;
    }
    Ok(slots)
}
