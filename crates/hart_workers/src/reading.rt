// What is read of the desk between two rounds.
ghost use Rattle.std.specs.Prelude.{◌≡◌, ◌⊎◌, ◌<◌, ◌/◌, min, None, Some, length, IfOk};
ghost use Rattle.run_record.specs.declared.finished.GuestEnd.{GuestEnd as End};
ghost use Rattle.run_record.specs.declared.finished.GuestEnd.TheVariants as ends;
ghost use Rattle.shared_table.specs.Past.{HasThreads};
ghost use Rattle.slot_desk.specs.Steps.{new_desk};
ghost use Rattle.thread_turns.specs.Ranges.{AreLimits};
ghost use Rattle.shared_table.specs.declared.object.DeskState.{DeskState as State};
ghost use Rattle.hart_workers.specs.Reading.{HasRead};
ghost use Rattle.hart_workers.specs.Closing.{AreLivingBelow};

use run_record::{Bytes, GuestEnd, Limits, NoMemory};
use shared_table::DeskState;
use std::alloc::Global;

// How many threads a desk keeps.
const THREADS: u32 = 1024;

/// What the desk tells between two rounds: which threads live, how many were made, and, where one more round is due, how many instructions
/// each thread may make in it. Where the run is over `end` tells how, and `output` what the guest put.
#[derive(Drop)]
pub(crate) struct Reading {
    pub live: Vec<u32>,
    pub made: u32,
    pub share: u32,
    pub end: Option<GuestEnd>,
    pub output: Bytes,
}

/// What a desk tells as it begins.
pub(crate) fn first_reading(alloc: Global, limits: &Limits) -> Result<Reading, NoMemory>
    requires { AreLimits limits.now }
    ensures { IfOk result (λ r. (d : State) → d.desk ≡ new_desk limits.now → d.machine.ended ≡ None → (length d.machine.made ≡ 1)
        → HasRead limits.now limits.now.steps d r) }
{
    let mut live = Vec::new(alloc);
    live.push(0u32)?;
    Ok(Reading {
        live,
        made: 1,
        share: share_of(limits, limits.steps, 1),
        end: None,
        output: Bytes::new(alloc),
    })
}

/// What the desk tells while that budget is left.
pub(crate) fn read_desk(
    alloc: Global,
    desk: &DeskState,
    limits: &Limits,
    remaining: u32,
) -> Result<Reading, NoMemory>
    requires { HasThreads desk.now }
    ensures { IfOk result (HasRead limits.now remaining desk.now) }
{
    let count = desk.desk.living();
    let live = living_threads(alloc, desk)?;
    let share = share_of(limits, remaining, count);
    let end = end_with(desk.machine.ended, count, share);
    let output = output_at(alloc, end, &desk.machine.output)?;
    Ok(Reading {
        live,
        made: desk.machine.made.len() as u32,
        share,
        end,
        output,
    })
}

// The threads that live, by rising number. There is no memory where one lives that the machine hasn't made.
fn living_threads(alloc: Global, desk: &DeskState) -> Result<Vec<u32>, NoMemory>
    requires { HasThreads desk.now }
    ensures { IfOk result (λ live. AreLivingBelow desk.now THREADS live.items) }
{
    let mut live = Vec::new(alloc);
    for thread in 0..THREADS {
        if desk.desk.lives(thread) {
            if thread as usize >= desk.machine.made.len() {
                return Err(NoMemory);
            }
            live.push(thread)?;
        }
    }
    Ok(live)
}

// What each of so many threads is given: at most a quantum, and its share of what is left. It is nothing where none lives.
fn share_of(limits: &Limits, remaining: u32, live: u32) -> u32
    ensures { 0 < live → result ≡ min limits.now.quantum (remaining / live) }
{
    if live == 0 {
        return 0;
    }
    let part = remaining / live;
    if part < limits.quantum {
        part
    } else {
        limits.quantum
    }
}

// How the run ends, if it does: by the first exit or fault, or since no thread lives, or since none would be given an instruction.
fn end_with(ended: Option<GuestEnd>, live: u32, share: u32) -> Option<GuestEnd>
    ensures goes_on { result ≡ None → (ended ≡ None) × (0 < live) × (0 < share) }
    ensures ends { (end : End) → result ≡ Some end → (ended ≡ Some end)
        ⊎ (((ended ≡ None) × (live ≡ 0) × (end ≡ ends.AllEnded)) ⊎ ((ended ≡ None) × (0 < live) × (share ≡ 0) × (end ≡ ends.Budget))) }
{
    match ended {
        Some(end) => Some(end),
        None if live == 0 => Some(GuestEnd::AllEnded),
        None if share == 0 => Some(GuestEnd::Budget),
        None => None,
    }
}

// What the guest put, where the run is over.
fn output_at(alloc: Global, end: Option<GuestEnd>, output: &Bytes) -> Result<Bytes, NoMemory>
    ensures { IfOk result (λ bytes. (e : End) → end ≡ Some e → bytes ≡ output.now) }
{
    let mut bytes = Bytes::new(alloc);
    if end.is_some() {
        bytes.extend_from_slice(output.as_slice())?;
    }
    Ok(bytes)
}
