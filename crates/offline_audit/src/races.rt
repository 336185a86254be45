// All racing pairs of a recorded run.
ghost use Rattle.std.specs.Prelude.{◌≡◌, ◌↔◌, ◌<◌, ℕ, List, Contains, length, IsTrue, IfOk, OnOk};
ghost use Rattle.std.specs.List.Sorted.{IsNonDecreasing};
ghost use Rattle.elf_image.specs.File.{granule_of};
ghost use Rattle.run_record.specs.declared.entry.Entry.{Entry};
ghost use Rattle.offline_audit.specs.Orders.{IsOrderOf};
ghost use Rattle.run_laws.specs.Moments.{moments, items};
ghost use Rattle.offline_audit.specs.Pairs.{IsRacingPair, AreRisingPairs};
ghost use Rattle.offline_audit.specs.Kinds.{HasGranule, KindsConflict};
ghost use Rattle.offline_audit.specs.Chains.{IsChain};
ghost use Rattle.offline_audit.specs.Groups.{addresses, AreChains, IsCompared, AreCompared, AreFound};

use crate::access::{Kind, accesses};
use crate::group::{Group, grouped};
use crate::order::Order;
use crate::pair::{add, has, paired};
use crate::sweep::are_apart;
use elf_image::Image;
use report_text::{Pair, Pairs};
use run_record::{Items, NoMemory, Record};
use std::alloc::Global;

/// Whether some byte from the one address to the other is in a granule.
fn has_granule(image: &Image, low: u64, high: u64) -> bool
    ensures { IsTrue result ↔ HasGranule (granule_of image.now) low high }
{
    if low > high {
        return false;
    }
    for block in low / 8..high / 8 + 1 {
        if image.granule_of(8 * block).is_some() {
            return true;
        }
    }
    false
}

/// Whether accesses of the two kinds conflict.
fn do_conflict(image: &Image, one: &Kind, other: &Kind) -> bool
    ensures { IsTrue result ↔ KindsConflict (granule_of image.now) one.now other.now }
{
    if one.tid == other.tid {
        return false;
    }
    if one.read & other.read {
        return false;
    }
    if one.atomic & other.atomic {
        return false;
    }
    has_granule(image, one.addr.max(other.addr), one.last.min(other.last))
}

/// Adds the pair of two groups' places, if accesses of theirs race. A pair that is there isn't looked for again.
fn compare(
    image: &Image,
    order: &Order,
    one: &Group,
    other: &Group,
    found: &mut Vec<Pair>,
) -> Result<(), NoMemory>
    requires { AreRisingPairs found.old.items }
    ensures rising { OnOk result (AreRisingPairs found.new.items) }
    ensures settled { OnOk result ((entries : List Entry) → IsOrderOf entries order.now
        → IsChain (items (moments entries)) entries one.now.names → IsChain (items (moments entries)) entries other.now.names
        → IsCompared (granule_of image.now) entries one.now other.now found.old.items found.new.items) }
{
    if !do_conflict(image, &one.kind, &other.kind) {
        return Ok(());
    }
    let pair = paired(one.kind.place, other.kind.place);
    if has(found.as_slice(), pair) {
        return Ok(());
    }
    if !are_apart(order, one.names.as_slice(), other.names.as_slice()) {
        return Ok(());
    }
    add(found, pair)
}

/// Adds the pairs of one group with later ones, which begin by rising address.
fn compare_with(
    image: &Image,
    order: &Order,
    one: &Group,
    later: &[Group],
    found: &mut Vec<Pair>,
) -> Result<(), NoMemory>
    requires rising { AreRisingPairs found.old.items }
    requires by_address { IsNonDecreasing (addresses later.now) }
    ensures rising { OnOk result (AreRisingPairs found.new.items) }
    ensures settled { OnOk result ((entries : List Entry) → IsOrderOf entries order.now
        → IsChain (items (moments entries)) entries one.now.names → AreChains (items (moments entries)) entries later.now
        → AreCompared (granule_of image.now) entries one.now later.now (length later.now) found.old.items found.new.items) }
{
    for other in later {
        if one.kind.last < other.kind.addr {
            return Ok(());
        }
        compare(image, order, one, other, found)?;
    }
    Ok(())
}

/// The pairs of all groups.
fn compare_all(
    alloc: Global,
    image: &Image,
    order: &Order,
    groups: &[Group],
) -> Result<Vec<Pair>, NoMemory>
    requires { IsNonDecreasing (addresses groups.now) }
    ensures rising { IfOk result (λ found. AreRisingPairs found.items) }
    ensures found { IfOk result (λ found. (entries : List Entry) → IsOrderOf entries order.now
        → AreChains (items (moments entries)) entries groups.now
        → AreFound (granule_of image.now) entries groups.now (length groups.now) found.items) }
{
    let mut found = Vec::new(alloc);
    for (n, one) in groups.iter().enumerate() {
        compare_with(image, order, one, &groups[n + 1..], &mut found)?;
    }
    Ok(found)
}

/// The pairs of code places that race in the history, whose order this is: each once, by rising low, then high.
pub fn pairs(
    alloc: Global,
    image: &Image,
    history: &Record,
    order: &Order,
) -> Result<Pairs, NoMemory>
    requires { IsOrderOf history.now.entries order.now }
    ensures rising { IfOk result AreRisingPairs }
    ensures exact { IfOk result (λ pairs. (p q : ℕ) → Contains pairs (record { low = p; high = q })
        ↔ IsRacingPair (granule_of image.now) history.now.entries p q) }
{
    let made = accesses(alloc, history)?;
    let groups = grouped(alloc, order, made.as_slice())?;
    let found = compare_all(alloc, image, order, groups.as_slice())?;
    Ok(Items::from_vec(found))
}
