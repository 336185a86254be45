// What the checks of an access find.
ghost use Rattle.std.specs.Option.{option_or};
ghost use Rattle.std.specs.Prelude.{◌≡◌, ◌<◌, ℕ, slice_index, option_map, IsSome, OnOk, Some};
ghost use Rattle.run_laws.specs.Accesses.{Access, access_of};
ghost use Rattle.hart_events.specs.Checks.{waits_on};

use race_core::{Candidate, Watcher};
use run_record::{Event, NoMemory};

/// A granule, and a word in one of its cells that races with an access.
#[derive(Clone, Copy)]
pub struct Raced {
    pub granule: u32,
    pub word: u64,
}

/// What is stored: the word, in the cell that is told.
pub fn stored_word(cell: Option<u8>, word: u64) -> Option<(u8, u64)>
    ensures { result ≡ option_map (λ (i : ℕ). (i, word)) cell }
{
    match cell {
        Some(cell) => Some((cell, word)),
        None => None,
    }
}

/// The word that races, by the cell in which it stands.
pub fn raced_word(granule: u32, cells: &[u64; 4], cell: Option<u8>) -> Option<Raced>
    requires { (i : ℕ) → cell ≡ Some i → i < 4 }
    ensures { result ≡ option_map (λ (i : ℕ). record { granule = granule; word = slice_index cells.now i }) cell }
{
    match cell {
        Some(cell) => Some(Raced {
            granule,
            word: cells[cell as usize],
        }),
        None => None,
    }
}

/// The first of two, if there is one, and else the other.
pub fn first_raced(one: Option<Raced>, other: Option<Raced>) -> Option<Raced>
    ensures { result ≡ option_or one other }
{
    match one {
        Some(raced) => Some(raced),
        None => other,
    }
}

/// Where a word races, the access that the thread makes next waits for the end of the round.
pub fn wait_for(
    watcher: &Watcher,
    event: &Event,
    raced: Option<Raced>,
    waiting: &mut Vec<Candidate>,
) -> Result<(), NoMemory>
    requires access { IsSome (access_of event.now) }
    ensures { (a : Access) → access_of event.now ≡ Some a → OnOk result (waiting.new.items ≡ waits_on watcher.now a raced waiting.old.items) }
{
    if let Some(raced) = raced {
        let mine = watcher.side_now(event)?;
        waiting.push(Candidate {
            mine,
            granule: raced.granule,
            word: raced.word,
        })?;
    }
    Ok(())
}
