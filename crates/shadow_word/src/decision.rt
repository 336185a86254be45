// The check of a granule.
ghost use Rattle.std.specs.Prelude.{◌≡◌, ◌≢◌, ◌<◌, ◌≤◌, ◌^◌, length, slice_index, position, if◌then◌else◌};
ghost use Rattle.std.specs.List.{list_any};
ghost use Rattle.run_laws.specs.Words.{era, sid, cell_for};
ghost use Rattle.run_laws.specs.Candidates.{is_race};
ghost use Rattle.shadow_word.specs.Cells.{word_in};
ghost use Rattle.shadow_word.specs.Decisions.{AreInClock, races, repeats, is_free, is_no_stronger, place_for};

use crate::Cell;
use crate::fields::{epoch_of, era_of, is_of_atomic, mask_of, reads, sid_of};
use vector_clock::Clock;

/// What a check found.
#[derive(Clone, Copy, Debug, PartialEq, Eq)]
pub struct Decision {
    /// The first cell whose word races with the access.
    pub race: Option<u8>,
    /// The cell that gets the access's own word.
    pub store: Option<u8>,
    /// Whether a word tells already what the access's own would, which is then not stored.
    pub repeat: bool,
}

/// What the check of an access finds in its granule's four words, by its thread's clock. The
/// access's cell gives its bytes and its label; `turn` is the cell that is next overwritten where
/// no other serves.
pub fn decide(current: Cell, words: [u64; 4], clock: &Clock, turn: u8) -> Decision
    requires in_clock { AreInClock current.era clock.now words }
    requires a_turn { turn ≤ 3 }
    ensures race { result.race ≡ position (races (slice_index clock.now) current) words }
    ensures repeat { result.repeat ≡ list_any (repeats current) words }
    ensures store { result.store ≡ (if result.repeat then None else Some (place_for current words turn)) }

    // The same by the access's own word, where a word has room for its epoch.
    ensures race_of_word { current.epoch < 2 ^ 14 →
        result.race ≡ position (is_race (slice_index clock.now) (word_in current)) words }
    ensures store_of_word { current.epoch < 2 ^ 14 → result.store ≡ cell_for (word_in current) words turn }
{
    let race = first_race(&current, &words, clock).map(|i| i as u8);
    let repeat = any_repeat(&current, &words);
    let store = place_unless(repeat, &current, &words, turn);
    Decision {
        race,
        store,
        repeat,
    }
}

// Mirrors `races`.
fn is_race(word: u64, current: &Cell, clock: &Clock) -> bool
    requires { word ≢ 0 → era word ≡ current.now.era → sid word < length clock.now }
    ensures { result ≡ races (slice_index clock.now) current.now word }
{
    era_of(word) == current.era
        && word != 0
        && sid_of(word) != current.sid
        && mask_of(word) & current.mask != 0
        && !(reads(word) && current.read)
        && !(is_of_atomic(word) && current.atomic)
        && clock.get(sid_of(word)) < epoch_of(word)
}

fn is_repeated(word: u64, current: &Cell) -> bool
    ensures { result ≡ repeats current.now word }
{
    sid_of(word) == current.sid
        && epoch_of(word) == current.epoch
        && era_of(word) == current.era
        && mask_of(word) == current.mask
        && is_of_atomic(word) == current.atomic
        && (!reads(word) || current.read)
}

fn is_unused(word: u64, current: &Cell) -> bool
    ensures { result ≡ is_free current.now word }
{
    word == 0 || era_of(word) != current.era
}

fn is_weaker(word: u64, current: &Cell) -> bool
    ensures { result ≡ is_no_stronger current.now word }
{
    sid_of(word) == current.sid
        && mask_of(word) == current.mask
        && (reads(word) || !current.read)
        && (is_of_atomic(word) || !current.atomic)
}

fn first_race(current: &Cell, words: &[u64; 4], clock: &Clock) -> Option<usize>
    requires { AreInClock current.now.era clock.now words.now }
    ensures { result ≡ position (races (slice_index clock.now) current.now) words.now }
{
    words.iter().position(|word| is_race(*word, current, clock))
}

fn any_repeat(current: &Cell, words: &[u64; 4]) -> bool
    ensures { result ≡ list_any (repeats current.now) words.now }
{
    words.iter().any(|word| is_repeated(*word, current))
}

fn first_free(current: &Cell, words: &[u64; 4]) -> Option<usize>
    ensures { result ≡ position (is_free current.now) words.now }
{
    words.iter().position(|word| is_unused(*word, current))
}

fn first_weaker(current: &Cell, words: &[u64; 4]) -> Option<usize>
    ensures { result ≡ position (is_no_stronger current.now) words.now }
{
    words.iter().position(|word| is_weaker(*word, current))
}

fn place_unless(repeat: bool, current: &Cell, words: &[u64; 4], turn: u8) -> Option<u8>
    ensures { result ≡ (if repeat then None else Some (place_for current.now words.now turn)) }
{
    if repeat {
        None
    } else {
        Some(place_of(current, words, turn))
    }
}

fn place_of(current: &Cell, words: &[u64; 4], turn: u8) -> u8
    ensures { result ≡ place_for current.now words.now turn }
{
    match first_free(current, words) {
        Some(i) => i as u8,
        None => first_weaker(current, words).map_or(turn, |i| i as u8),
    }
}

#[cfg(test)]
mod tests;
