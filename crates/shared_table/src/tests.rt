// Workers on threads of their own.
ghost use Rattle.std.specs.Prelude.{◌≡◌, ℕ, ◌<◌, ◌≤◌, All, IfOk};
ghost use Rattle.shared_table.specs.declared.view.Layout.{Layout};
ghost use Rattle.shared_table.specs.Layouts.{cells_of};
ghost use Rattle.shared_table.specs.Past.{IsSound};
ghost use Rattle.shared_table.specs.Seats.{IsSeatOf, IsFree, Holds};

use crate::{Object, Shared, SharedSeat, Worker, round, useful_threads};
use elf_image::load;
use run_record::Limits;
use std::alloc::{AllocError, Global};
use std::sync::Wait;
use std::test::Fail;

// How often each worker goes over all objects.
const PASSES: u64 = 16;

// One instruction at 0x10000 and 1,024 bytes of data at 0x1000000.
fn file(alloc: Global) -> Result<Vec<u8>, AllocError> {
    let mut bytes = Vec::new(alloc);
    bytes.extend_from_slice(&[0x7f, 0x45, 0x4c, 0x46, 2, 1, 1, 0, 0, 0, 0, 0, 0, 0, 0, 0])?;
    bytes.extend_from_slice(&[2, 0, 243, 0, 1, 0, 0, 0])?;
    for field in [0x1_0000u64, 64, 0] {
        bytes.extend_from_slice(&field.to_le_bytes())?;
    }
    bytes.extend_from_slice(&[0, 0, 0, 0, 64, 0, 56, 0, 2, 0, 64, 0, 0, 0, 0, 0])?;
    bytes.extend_from_slice(&[1, 0, 0, 0, 5, 0, 0, 0])?;
    for field in [176u64, 0x1_0000, 0x1_0000, 4, 4, 8] {
        bytes.extend_from_slice(&field.to_le_bytes())?;
    }
    bytes.extend_from_slice(&[1, 0, 0, 0, 6, 0, 0, 0])?;
    for field in [180u64, 0x100_0000, 0x100_0000, 8, 1024, 8] {
        bytes.extend_from_slice(&field.to_le_bytes())?;
    }
    bytes.extend_from_slice(&[0x73, 0, 0, 0, 1, 2, 3, 4, 5, 6, 7, 8])?;
    Ok(bytes)
}

fn limits() -> Limits
    ensures { (result.harts ≡ 4) × (result.slots ≡ 255) × (result.epochs ≡ 16383) }
{
    Limits {
        harts: 4,
        slots: 255,
        epochs: 16_383,
        steps: 1_000_000,
        quantum: 1_000,
        parts: 8,
        part_words: 512,
    }
}

// The value with its stamp raised, and the stamp that it had.
fn stamped(value: Object) -> (Object, u64)
    ensures { (lay : Layout) (k : ℕ) → IsSound lay k value → IsSound lay k result.0 }
{
    match value {
        Object::Stripe(mut stripe) => {
            let found = stripe.last;
            stripe.last = found.wrapping_add(1);
            (Object::Stripe(stripe), found)
        }
        Object::Desk(mut desk) => {
            let found = desk.last;
            desk.last = found.wrapping_add(1);
            (Object::Desk(desk), found)
        }
    }
}

// It has no handle, so it waits for nobody.
fn finish(shared: &Shared, seat: &mut SharedSeat, object: u32, value: Object, cell: u32) -> u64
    requires own { IsSeatOf shared.now seat.old }
    requires holds { Holds seat.old.me object }
    requires object { object ≤ 64 }
    requires sound { IsSound shared.now.layout object value }
    requires cell { cell < cells_of shared.now.layout }
    requires slots { 0 < shared.now.layout.limits.slots }
    ensures own { IsSeatOf shared.now seat.new }
    ensures free { IsFree seat.new.me × (seat.new.me.0.number ≡ seat.old.me.0.number) }
{
    let seen = shared.load_cell(seat, cell);
    shared.store_cell(seat, cell, WORD);
    shared.give(seat, object, value);
    seen
}

fn turn<R: Wait>(rt: &R, shared: &Shared, seat: &mut SharedSeat, object: u32, cell: u32) -> u64
    requires own { IsSeatOf shared.now seat.old }
    requires free { IsFree seat.old.me }
    requires object { object ≤ 64 }
    requires cell { cell < cells_of shared.now.layout }
    requires slots { 0 < shared.now.layout.limits.slots }
    ensures own { IsSeatOf shared.now seat.new }
    ensures free { IsFree seat.new.me × (seat.new.me.0.number ≡ seat.old.me.0.number) }
{
    let value = shared.take(rt, seat, object);
    let (next, found) = stamped(value);
    let _seen = finish(shared, seat, object, next, cell);
    found
}

// A word of slot 0, epoch 1 and all bytes.
const WORD: u64 = 0x1_00ff;

// It makes turns of all objects, and keeps what it found of each.
#[derive(Drop)]
struct Turner {
    cell: u32,
    found: Vec<u64>,
}

fn keep(turner: &mut Turner, found: u64)
    ensures { turner.new.cell ≡ turner.old.cell }
{
    let _ = turner.found.push(found);
}

impl Worker for Turner {
    ghost use Rattle.std.specs.Prelude.{◌<◌};
    ghost use Rattle.shared_table.specs.Layouts.{cells_of};

    ghost can_work = { λ t w. (w.cell < cells_of t.layout) × (0 < t.layout.limits.slots) };

    ghost works = { λ t w log after. Unit {0} };

    fn work<R: Wait>(&mut self, rt: &R, shared: &Shared, seat: &mut SharedSeat) {
        for _ in 0..PASSES {
            for object in 0..65u32 {
                let found = turn(rt, shared, seat, object, self.cell);
                keep(self, found);
            }
        }
    }
}

// Whether some worker's turn of the object found that stamp.
fn was_found(workers: &[Turner], object: u64, stamp: u64) -> bool {
    workers.iter().any(|worker| {
        let found = worker.found.as_slice();
        found
            .iter()
            .enumerate()
            .any(|(i, f)| i as u64 % 65 == object && *f == stamp)
    })
}

fn turners(alloc: Global) -> Result<Vec<Turner>, AllocError>
    ensures { IfOk result (λ v. All (λ w. w.cell < 4) v.items) }
{
    let mut workers = Vec::new(alloc);
    for cell in 0..4 {
        workers.push(Turner {
            cell,
            found: Vec::new(alloc),
        })?;
    }
    Ok(workers)
}

// Four workers make 64 turns of each object, and find 64 stamps: those from 0 to 63, so each turn
// found what the one before had left.
#[test]
fn turns_follow(rt: HostRuntime) -> Result<(), Fail> {
    let alloc = rt.alloc();
    let bytes = file(alloc)?;
    let image = load(alloc, bytes.as_slice())?;
    let granules = image.granules();
    assert!(rt; granules == 8320);
    let (shared, mut seat) = Shared::new(alloc, &image, &limits())?;
    let workers = turners(alloc)?;
    let workers = round(&rt, alloc, &shared, &mut seat, workers, useful_threads(&rt))?;
    for object in 0..65 {
        for stamp in 0..4 * PASSES {
            assert!(rt;
                was_found(workers.as_slice(), object, stamp),
                "{object} {stamp}"
            );
        }
    }
    let closed = shared.close(seat);
    let stamps_end = closed
        .stripes
        .as_slice()
        .iter()
        .all(|s| matches!(s, Some(stripe) if stripe.last == 64));
    assert!(rt; stamps_end && matches!(&closed.desk, Some(desk) if desk.last == 64));
    assert_eq!(rt;
        &closed.cells.as_slice()[..5],
        [WORD, WORD, WORD, WORD, 0].as_slice()
    );
    Ok(())
}

// A table begins with the image's words, and each granule has its place.
#[test]
fn begins_with_the_image(rt: HostRuntime) -> Result<(), Fail> {
    let alloc = rt.alloc();
    let bytes = file(alloc)?;
    let image = load(alloc, bytes.as_slice())?;
    let (shared, seat) = Shared::new(alloc, &image, &limits())?;
    assert!(rt; image.granules() == 8320);
    assert_eq!(rt;
        (
            shared.word_index(0),
            shared.word_index(64),
            shared.word_index(128)
        ),
        (0, 1, 2)
    );
    let closed = shared.close(seat);
    let first = match &closed.stripes.as_slice()[0] {
        Some(stripe) => (stripe.words.len(), stripe.words.as_slice().first().copied()),
        None => (0, None),
    };
    assert_eq!(rt; first, (130, Some(0x0807_0605_0403_0201)));
    assert_eq!(rt; (closed.stripes.len(), closed.cells.len()), (64, 33_280));
    let main = match &closed.desk {
        Some(desk) => desk.machine.made.as_slice().first().copied(),
        None => None,
    };
    assert!(rt; matches!(main, Some(thread) if thread.lives && thread.regs.pc() == 0x1_0000));
    Ok(())
}
