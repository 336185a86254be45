// What is kept of one thread.
ghost use Rattle.std.specs.Prelude.{◌≡◌, ◌≤◌, ◌<◌, length, Some, true, false, IfOk, replicate, map};
ghost use Rattle.slot_desk.specs.Threads.{blank_thread, untold};

use run_record::NoMemory;
use std::alloc::Global;
use vector_clock::Clock;

/// The threads that a run can make, with the main thread.
pub const THREADS: u32 = 1024;

// Contracts see a thread through `shown` of specs/Threads.antt.
#[derive(Drop)]
pub struct ThreadState {
    pub lives: bool,
    // The slot that it took last, which it holds where it is that slot's owner.
    pub slot: u8,
    // While it lives, the clock that its creator gave it; then the one that it ended with.
    pub told: Clock,
    // The era of the desk in which the clock was told, or 0.
    pub told_in: u64,
}

impl ThreadState {
    // The thread begins to live, or ends, with that clock.
    pub fn tell(&mut self, lives: bool, era: u64, clock: &Clock)
        requires { length self.old.told ≡ length clock.now }
        ensures { self.new ≡ record self.old { lives = lives; told = clock.now; told_in = era } }
    {
        self.lives = lives;
        self.told.copy_from(clock);
        self.told_in = era;
    }
}

// All threads, before any is made.
pub fn blank_threads(alloc: Global, slots: u32) -> Result<Vec<ThreadState>, NoMemory>
    requires { (1 ≤ slots) × (slots ≤ 255) }
    ensures { IfOk result (λ v. v.items ≡ replicate 1024 (blank_thread slots)) }
{
    let mut threads = Vec::with_capacity(alloc, THREADS as usize)?;
    for _tid in 0..THREADS {
        threads.push(ThreadState {
            lives: false,
            slot: 0,
            told: Clock::new(alloc, slots)?,
            told_in: 0,
        })?;
    }
    Ok(threads)
}

// Forgets what each thread was told.
pub fn untell(threads: &mut Vec<ThreadState>)
    ensures { threads.new.items ≡ map untold threads.old.items }
{
    for tid in 0..threads.len() {
        let thread = &mut threads[tid];
        thread.told_in = 0;
    }
}
