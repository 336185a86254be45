// What the words of the command line ask for, or why they are refused.
use run_record::{Limits, NoMemory, Plan};
use std::alloc::AllocError;

/// Why words are refused, numbered from 1 in the order in which they are tested.
#[derive(Clone, Copy, Debug, PartialEq, Eq)]
pub enum UsageFault {
    /// An unknown option, an option given twice or without its text, a call for help, no command,
    /// or more than a command and a file.
    Words,
    /// The command isn't `run`, `step`, `audit`, `locks` or `gen`.
    Command,
    /// `run`, `step`, `audit` or `locks` without a file, or `gen` with one.
    File,
    /// A number isn't 1 to 10 decimal digits, or it is out of its range.
    Number,
    /// The plan isn't 1 to 4,096 turns `T:N` joined by commas, with T of 1 to 4 decimal digits, at
    /// most 1023, and N of 1 to 8, from 1 to 8000000.
    Plan,
    /// There are fewer slots than threads may live at once.
    FewSlots,
}

/// Why nothing is asked for.
#[derive(Clone, Copy, Debug, PartialEq, Eq)]
pub enum Refusal {
    Usage(UsageFault),
    /// Memory ran out. No contract says when.
    NoMemory,
}

impl From<AllocError> for Refusal {
    ghost use Rattle.std.specs.Prelude.{◌≡◌};
    ghost use Rattle.command_words.specs.declared.request.Refusal.TheVariants.{NoMemory as no_memory};

    ghost from_gives = { λ _ refusal. refusal ≡ no_memory };

    fn from(_: AllocError) -> Self {
        Refusal::NoMemory
    }
}

/// What is looked for in a recorded run.
#[derive(Clone, Copy, Debug, PartialEq, Eq)]
pub enum Search {
    /// Cycles in the order in which threads took mutexes.
    Locks,
    /// All pairs of code places that race.
    Pairs,
}

/// What is to be done.
#[derive(Clone, Copy, Debug, PartialEq, Eq)]
pub enum Task<'a> {
    /// Runs an executable, all its threads at once.
    Run { file: &'a str },
    /// Runs an executable, one thread at a time.
    Step { file: &'a str },
    /// Runs an executable, one thread at a time, and looks for that in the recorded run.
    Search { search: Search, file: &'a str },
    /// Makes an executable from the seed, with so many operations in each thread.
    Generate { seed: u32, size: u32 },
}

/// What the words ask for.
#[derive(Drop)]
pub struct Request<'a> {
    pub task: Task<'a>,
    pub limits: Limits,
    /// No turns where the words have no plan.
    pub plan: Plan,
    /// The name of a file of rules.
    pub suppressions: Option<&'a str>,
}
