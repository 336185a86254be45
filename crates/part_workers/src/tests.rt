// A worker alone at a table makes its thread's part of a round.
ghost use Rattle.std.specs.Prelude.{◌≡◌, ◌≤◌};
ghost use Rattle.slot_desk.specs.Steps.{AreDeskLimits};
ghost use Rattle.race_core.specs.Watched.{AreWatcherLimits};

use crate::{HartWorker, PartSoFar, Post};
use elf_image::{Image, load};
use guest_code::Code;
use hart_turns::ThreadState;
use race_core::Watcher;
use run_record::Limits;
use shared_table::{Shared, round};
use std::alloc::{AllocError, Global};
use std::sync::Wait;
use std::test::Fail;
use std::thread::Threads;
use tool_ports::OpenGate;

// lui x10, 0x1000; addi x17, x0, 41; ecall; ecall; addi x17, x0, 2; ecall: it releases twice at the data's address, and exits.
const CODE: [u32; 6] = [0x0100_0537, 0x0290_0893, 0x73, 0x73, 0x0020_0893, 0x73];

// The code at 0x10000 and 1,024 bytes of data at 0x1000000.
fn file(alloc: Global) -> Result<Vec<u8>, AllocError> {
    let mut bytes = Vec::new(alloc);
    bytes.extend_from_slice(&[0x7f, 0x45, 0x4c, 0x46, 2, 1, 1, 0, 0, 0, 0, 0, 0, 0, 0, 0])?;
    bytes.extend_from_slice(&[2, 0, 243, 0, 1, 0, 0, 0])?;
    for field in [0x1_0000u64, 64, 0] {
        bytes.extend_from_slice(&field.to_le_bytes())?;
    }
    bytes.extend_from_slice(&[0, 0, 0, 0, 64, 0, 56, 0, 2, 0, 64, 0, 0, 0, 0, 0])?;
    bytes.extend_from_slice(&[1, 0, 0, 0, 5, 0, 0, 0])?;
    for field in [176u64, 0x1_0000, 0x1_0000, 24, 24, 4] {
        bytes.extend_from_slice(&field.to_le_bytes())?;
    }
    bytes.extend_from_slice(&[1, 0, 0, 0, 6, 0, 0, 0])?;
    for field in [176u64, 0x100_0000, 0x100_0000, 8, 1024, 8] {
        bytes.extend_from_slice(&field.to_le_bytes())?;
    }
    for word in CODE {
        bytes.extend_from_slice(&word.to_le_bytes())?;
    }
    Ok(bytes)
}

// One thread and one slot, of so many epochs.
fn limits(epochs: u16) -> Limits
    requires { (2 ≤ epochs) × (epochs ≤ 16383) }
    ensures desk { AreDeskLimits result }
    ensures watcher { AreWatcherLimits result }
{
    Limits {
        harts: 1,
        slots: 1,
        epochs,
        steps: 1_000_000,
        quantum: 1_000,
        parts: 8,
        part_words: 512,
    }
}

// What came of a worker.
#[derive(Clone, Copy, Debug, PartialEq, Eq)]
struct Outcome {
    failed: bool,
    starved: bool,
    lives: bool,
    entries: usize,
    steps: u32,
}

fn outcome_of<G: Drop>(alloc: Global, worker: &HartWorker<'_, '_, G>) -> Result<Outcome, Fail> {
    let entries = worker.part.entries.to_vec(alloc)?;
    let mut steps: u32 = 0;
    for entry in entries.as_slice() {
        steps = steps.wrapping_add(entry.steps);
    }
    let lives = match &worker.state.hart {
        Some(hart) => hart.thread.lives,
        None => true,
    };
    Ok(Outcome {
        failed: worker.failed,
        starved: worker.starved,
        lives,
        entries: entries.len(),
        steps,
    })
}

// The main thread's part, in the first round of a run with these limits.
fn part_at<'a, 'b, R: Threads + Wait + Sync>(
    rt: &R,
    alloc: Global,
    image: &'a Image<'b>,
    code: &'a Code<'b>,
    limits: &'a Limits,
    gate: &'a OpenGate,
    share: u32,
) -> Result<Outcome, Fail>
    requires code { code.now ≡ image.now }
    requires desk { AreDeskLimits limits.now }
    requires watcher { AreWatcherLimits limits.now }
{
    let (shared, mut seat) = Shared::new(alloc, image, limits)?;
    let state = ThreadState {
        hart: None,
        watcher: Watcher::new(alloc, 0, limits)?,
    };
    let post = Post {
        tid: 0,
        round: 0,
        era: 0,
    };
    let mut workers = Vec::new(alloc);
    workers.push(HartWorker {
        alloc,
        image,
        code,
        limits,
        gate,
        post,
        share,
        state,
        part: PartSoFar::new(alloc, 0),
        starved: false,
        failed: false,
    })?;
    let workers = round(rt, alloc, &shared, &mut seat, workers, 1)?;
    let _closed = shared.close(seat);
    match workers.as_slice() {
        [worker] => outcome_of(alloc, worker),
        _ => Err(Fail::new("a worker is missing")),
    }
}

// The same, where a slot has so many epochs.
fn part_of<R: Threads + Wait + Sync>(
    rt: &R,
    alloc: Global,
    epochs: u16,
    share: u32,
) -> Result<Outcome, Fail>
    requires { (2 ≤ epochs) × (epochs ≤ 16383) }
{
    let bytes = file(alloc)?;
    let image = load(alloc, bytes.as_slice())?;
    let code = Code::new(alloc, &image)?;
    part_at(rt, alloc, &image, &code, &limits(epochs), &OpenGate, share)
}

// It makes its share; or all, where the thread ends before; or what it can, where its slot has no epoch left and no other slot is free.
#[test]
fn makes_its_part(rt: HostRuntime) -> Result<(), Fail> {
    let alloc = rt.alloc();
    let made = Outcome {
        failed: false,
        starved: false,
        lives: true,
        entries: 2,
        steps: 3,
    };
    assert_eq!(rt; part_of(&rt, alloc, 16_383, 3)?, made);
    let ended = Outcome {
        lives: false,
        entries: 4,
        steps: 6,
        ..made
    };
    assert_eq!(rt; part_of(&rt, alloc, 16_383, 100)?, ended);
    let starved = Outcome {
        starved: true,
        entries: 5,
        steps: 5,
        ..made
    };
    assert_eq!(rt; part_of(&rt, alloc, 2, 100)?, starved);
    Ok(())
}
