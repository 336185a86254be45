// The threads of a run between its rounds.
ghost use Rattle.std.specs.Prelude.{◌≡◌, ◌≤◌, ◌<◌, ◌+◌, [], ◌∷◌, ◌++◌, ℕ, max, length, List, Option, None, Some, slice_set, IfOk, OnOk};
ghost use Rattle.race_core.specs.Watched.{AreWatcherLimits, new_watched};
ghost use Rattle.hart_turns.specs.declared.slots.ThreadState.{ThreadState};
ghost use Rattle.made_rounds.specs.Made.{Stand};
ghost use Rattle.hart_workers.specs.Crews.{state_at, IsIdle, IsHired, Hires, TakesBack};
ghost use Rattle.hart_workers.specs.Taking.{TakesOne};

use crate::pending::PendingList;
use elf_image::Image;
use guest_code::Code;
use hart_turns::ThreadState;
use part_workers::{HartWorker, PartSoFar, Post};
use race_core::Watcher;
use run_record::{Entries, Limits, NoMemory};
use std::alloc::Global;

/// The states of the threads that were made, by number. A state is `None` while a worker has it.
#[derive(Drop)]
pub struct Crew {
    pub states: Vec<Option<ThreadState>>,
}

/// The round that is due: its number and era, how many instructions each worker may make, and the greatest stamp so far.
#[derive(Clone, Copy)]
pub struct Due {
    pub round: u32,
    pub era: u32,
    pub share: u32,
    pub base: u64,
}

/// What all workers of a run share.
#[derive(Clone, Copy)]
pub struct NewWorkers<'a, 'b, G> {
    pub alloc: Global,
    pub image: &'a Image<'b>,
    pub code: &'a Code<'b>,
    pub limits: &'a Limits,
    pub gate: &'a G,
}

impl<'a, 'b, G> NewWorkers<'a, 'b, G> {
    // The worker of one thread, with what was kept of it.
    fn worker(&self, due: Due, tid: u32, state: ThreadState) -> HartWorker<'a, 'b, G>
        requires { self.now.code.now ≡ self.now.image.now }
        ensures { (states : List (Option ThreadState)) → state_at states tid ≡ Some state →
            IsHired self.now.image.now self.now.limits.now due states tid result }
    {
        HartWorker {
            alloc: self.alloc,
            image: self.image,
            code: self.code,
            limits: self.limits,
            gate: self.gate,
            post: Post {
                tid,
                round: due.round,
                era: due.era,
            },
            share: due.share,
            state,
            part: PartSoFar::new(self.alloc, due.base),
            starved: false,
            failed: false,
        }
    }
}

impl Crew {
    /// No thread is there.
    pub fn new(alloc: Global) -> Crew
        ensures { result.states.items ≡ [] }
    {
        Crew {
            states: Vec::new(alloc),
        }
    }

    // One more thread was made, which has done nothing.
    fn add(&mut self, alloc: Global, limits: &Limits, tid: u32) -> Result<(), NoMemory>
        requires { AreWatcherLimits limits.now }
        ensures { OnOk result (self.new.states.items ≡ self.old.states.items
            ++ Some (record { hart = None; watcher = new_watched tid limits.now }) ∷ []) }
    {
        let watcher = Watcher::new(alloc, tid, limits)?;
        self.states.push(Some(ThreadState {
            hart: None,
            watcher,
        }))?;
        Ok(())
    }

    /// So many threads were made. Those that are new have done nothing.
    pub fn grow(&mut self, alloc: Global, limits: &Limits, made: u32) -> Result<(), NoMemory>
        requires { AreWatcherLimits limits.now }
        ensures idle { OnOk result ((s : Stand) → IsIdle limits.now s self.old.states.items → IsIdle limits.now s self.new.states.items) }
        ensures count { OnOk result (length self.new.states.items ≡ max (length self.old.states.items) made) }
    {
        while self.states.len() < made as usize {
            let tid = self.states.len() as u32;
            self.add(alloc, limits, tid)?;
        }
        Ok(())
    }

    // Lends what is kept of the thread, if it is there.
    fn lend(&mut self, tid: u32) -> Result<ThreadState, NoMemory>
        ensures was { IfOk result (λ x. state_at self.old.states.items tid ≡ Some x) }
        ensures gone { OnOk result (self.new.states.items ≡ slice_set self.old.states.items tid None) }
    {
        let index = tid as usize;
        if index >= self.states.len() {
            return Err(NoMemory);
        }
        match self.states[index].take() {
            Some(state) => Ok(state),
            None => Err(NoMemory),
        }
    }

    /// A worker for each of these threads, with what is kept of it. There is no memory where nothing is.
    pub fn hire<'a, 'b, G>(
        &mut self,
        new: &NewWorkers<'a, 'b, G>,
        due: Due,
        live: &[u32],
    ) -> Result<Vec<HartWorker<'a, 'b, G>>, NoMemory>
        requires { new.now.code.now ≡ new.now.image.now }
        ensures { IfOk result (λ workers. Hires new.now.image.now new.now.limits.now due self.old.states.items live.now
            self.new.states.items workers.items) }
    {
        let mut workers = Vec::new(new.alloc);
        for tid in live {
            let state = self.lend(*tid)?;
            workers.push(new.worker(due, *tid, state))?;
        }
        Ok(workers)
    }

    // Keeps the thread's state again, where its place is empty.
    fn keep(&mut self, tid: u32, state: ThreadState) -> Result<(), NoMemory>
        ensures within { OnOk result (tid < length self.old.states.items) }
        ensures empty { OnOk result (state_at self.old.states.items tid ≡ None) }
        ensures kept { OnOk result (self.new.states.items ≡ slice_set self.old.states.items tid (Some state)) }
    {
        let index = tid as usize;
        if index >= self.states.len() {
            return Err(NoMemory);
        }
        if self.states[index].is_some() {
            return Err(NoMemory);
        }
        self.states[index] = Some(state);
        Ok(())
    }

    // Takes over what one worker has and told.
    fn take_one<G>(
        &mut self,
        worker: HartWorker<'_, '_, G>,
        logs: &mut Vec<Entries>,
        pending: &mut PendingList,
    ) -> Result<bool, NoMemory>
        ensures { IfOk result (λ starved. TakesOne self.old.states.items self.new.states.items worker.entry logs.old.items logs.new.items
            pending.old pending.new starved) }
    {
        let HartWorker {
            post,
            state,
            part,
            starved,
            failed,
            ..
        } = worker;
        if failed {
            return Err(NoMemory);
        }
        let PartSoFar {
            entries,
            waiting,
            ..
        } = part;
        self.keep(post.tid, state)?;
        logs.push(entries)?;
        pending.add(post.tid, waiting)?;
        Ok(starved)
    }

    /// Takes over what workers have and told: states, entries and the accesses that wait. It tells whether one was starved. There is no
    /// memory where one failed.
    pub fn take_back<G>(
        &mut self,
        workers: Vec<HartWorker<'_, '_, G>>,
        logs: &mut Vec<Entries>,
        pending: &mut PendingList,
    ) -> Result<bool, NoMemory>
        ensures { IfOk result (λ starved. TakesBack self.old.states.items self.new.states.items workers.entry.items logs.old.items
            logs.new.items pending.old pending.new starved) }
    {
        let mut starved = false;
        for worker in workers {
            let one = self.take_one(worker, logs, pending)?;
            starved |= one;
        }
        Ok(starved)
    }
}
