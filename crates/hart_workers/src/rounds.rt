// How far a run is.
ghost use Rattle.std.specs.Prelude.{◌≡◌, [], ℕ, Bool, List, Option, Ok, IfOk};
ghost use Rattle.elf_image.specs.File.{image_of};
ghost use Rattle.shared_table.specs.declared.view.Layout.{Layout};
ghost use Rattle.shared_table.specs.Layouts.{IsLaidOut};
ghost use Rattle.shared_table.specs.Rule.{opener};
ghost use Rattle.thread_turns.specs.Ranges.{AreLimits};
ghost use Rattle.hart_workers.specs.Standing.{IsBetween};

use crate::crew::Crew;
use crate::reading::{Reading, first_reading};
use run_record::{Entries, Limits, NoMemory};
use std::alloc::Global;

/// How far a run is between two rounds: its threads, the entries of all rounds, the numbers of the next round and of its era, the era of the
/// last round, the greatest stamp so far, what is left of the budget, and what the desk tells.
#[derive(Drop)]
pub(crate) struct Rounds {
    pub crew: Crew,
    pub entries: Entries,
    pub round: u32,
    pub era: u32,
    pub last_era: u32,
    pub base: u64,
    pub remaining: u32,
    pub reading: Reading,
}

impl Rounds {
    /// Before the first round, at a new table.
    pub(crate) fn new(alloc: Global, limits: &Limits) -> Result<Rounds, NoMemory>
        requires { AreLimits limits.now }
        ensures { IfOk result (λ r. (meets : Option (List ℕ) → Option (List ℕ) → Bool) (file : List ℕ) (lay : Layout) →
            image_of file ≡ Ok file → IsLaidOut file limits.now lay →
            IsBetween meets file limits.now lay (opener lay) r (record { reports = []; suppressed = 0; equal = 0 })) }
    {
        let mut crew = Crew::new(alloc);
        crew.grow(alloc, limits, 1)?;
        let reading = first_reading(alloc, limits)?;
        Ok(Rounds {
            crew,
            entries: Entries::new(alloc),
            round: 0,
            era: 0,
            last_era: 0,
            base: 0,
            remaining: limits.steps,
            reading,
        })
    }
}
