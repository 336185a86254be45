// The checks of an access, at the shadow cells of the table, and what they find.
ghost use Rattle.std.specs.Prelude.{◌≡◌, ◌≢◌, ◌+◌, ◌*◌, ◌%◌, ◌<◌, ◌≤◌, ◌^◌, ℕ, [], Some, length, slice_index, All, IsSome, IsSomeAnd, IfOk};
ghost use Rattle.elf_image.specs.File.{granules_of};
ghost use Rattle.run_laws.specs.Accesses.{access_of};
ghost use Rattle.shared_table.specs.Past.{IsCellWord};
ghost use Rattle.shared_table.specs.Seats.{IsSeatOf};
ghost use Rattle.hart_parts.specs.Parts.{loads_from, store_at, touches_of};
ghost use Rattle.hart_turns.specs.Checks.{with_items, MadeSteps, IsCheckOn, CanCheck, raced_in, ChecksAll, Checks};

use elf_image::Image;
use hart_events::{Raced, first_raced, raced_word, stored_word, wait_for};
use race_core::{Candidate, Watcher};
use run_record::{Check, CheckList, Event, NoMemory};
use shared_table::{Shared, SharedSeat};
use std::alloc::Global;

/// What the checks of an instruction found: themselves, and the accesses that wait for the end of the round, each with the first word
/// that it loaded which races.
#[derive(Drop)]
pub struct Findings {
    pub checks: CheckList,
    pub waiting: Vec<Candidate>,
}

impl Findings {
    /// No checks yet.
    pub fn new(alloc: Global) -> Findings
        ensures checks { result.checks ≡ [] }
        ensures waiting { result.waiting.items ≡ [] }
    {
        Findings {
            checks: CheckList::new(alloc),
            waiting: Vec::new(alloc),
        }
    }
}

// The words of a granule's four cells, which other threads may store meanwhile.
fn load_four(shared: &Shared, seat: &mut SharedSeat, granule: u32) -> [u64; 4]
    requires own { IsSeatOf shared.now seat.old }
    requires granule { granule < shared.now.layout.granules }
    requires few { 4 * shared.now.layout.granules < 2 ^ 32 }
    ensures own { IsSeatOf shared.now seat.new }
    ensures log { seat.new.me ≡ with_items (loads_from (4 * granule) result) seat.old.me }
    ensures four { length result ≡ 4 }
    ensures words { All (λ (w : ℕ). w ≢ 0 → IsCellWord shared.now.layout w) result }
{
    let first = 4 * granule;
    let one = shared.load_cell(seat, first);
    let two = shared.load_cell(seat, first + 1);
    let three = shared.load_cell(seat, first + 2);
    let four = shared.load_cell(seat, first + 3);
    [one, two, three, four]
}

// The word, in the cell of the granule that is told, if any.
fn store(shared: &Shared, seat: &mut SharedSeat, granule: u32, stored: Option<(u8, u64)>)
    requires own { IsSeatOf shared.now seat.old }
    requires granule { granule < shared.now.layout.granules }
    requires few { 4 * shared.now.layout.granules < 2 ^ 32 }
    requires cell { (s : ℕ × ℕ) → stored ≡ Some s → (s.0 < 4) × IsCellWord shared.now.layout s.1 }
    ensures own { IsSeatOf shared.now seat.new }
    ensures log { seat.new.me ≡ with_items (store_at granule stored) seat.old.me }
{
    if let Some((cell, word)) = stored {
        shared.store_cell(seat, 4 * granule + cell as u32, word);
    }
}

// Checks one part of an access, and gives its check with the first word that races.
#[tactic(auto, using(detector::proofs::CheckLaws::race_within))]
fn check(
    shared: &Shared,
    seat: &mut SharedSeat,
    watcher: &Watcher,
    event: &Event,
    place: u32,
    turn: u8,
    granule: u32,
    mask: u8,
) -> (Check, Option<Raced>)
    requires own { IsSeatOf shared.now seat.old }
    requires granule { granule < shared.now.layout.granules }
    requires few { 4 * shared.now.layout.granules < 2 ^ 32 }
    requires can { CanCheck shared.now.layout.limits watcher.now }
    requires access { IsSome (access_of event.now) }
    requires some_byte { mask ≢ 0 }
    requires a_turn { turn ≤ 3 }
    ensures own { IsSeatOf shared.now seat.new }
    ensures check { IsCheckOn watcher.now event.now place turn granule mask result.0 }
    ensures log { seat.new.me ≡ with_items (touches_of result.0) seat.old.me }
    ensures raced { result.1 ≡ raced_in (slice_index watcher.now.clock) result.0 }
{
    let cells = load_four(shared, seat, granule);
    let (word, decision) = watcher.check_part(event, mask, cells, turn);
    let stored = stored_word(decision.store, word);
    store(shared, seat, granule, stored);
    let check = Check {
        event: place,
        granule,
        word,
        turn,
        cells,
        stored,
    };
    (check, raced_word(granule, &cells, decision.race))
}

// Checks each part of an access, and gives the first word that races.
fn check_all(
    shared: &Shared,
    seat: &mut SharedSeat,
    image: &Image<'_>,
    watcher: &Watcher,
    event: &Event,
    place: u32,
    checks: &mut CheckList,
) -> Result<Option<Raced>, NoMemory>
    requires own { IsSeatOf shared.now seat.old }
    requires granules { shared.now.layout.granules ≡ granules_of image.now }
    requires can { CanCheck shared.now.layout.limits watcher.now }
    requires access { IsSome (access_of event.now) }
    ensures own { IsSeatOf shared.now seat.new }
    ensures seat { MadeSteps seat.old.me seat.new.me }
    ensures all { IfOk result (ChecksAll image.now watcher.now event.now place checks.old checks.new seat.old.me seat.new.me) }
{
    image.accepted();
    let turn = (watcher.trace().count() % 4) as u8;
    let mut parts = watcher.plan_access(image, event);
    let mut raced = None;
    'parts: while let Some((granule, mask)) = parts.next() {
        let (check, found) = check(shared, seat, watcher, event, place, turn, granule, mask);
        checks.push(check)?;
        raced = first_raced(raced, found);
    }
    Ok(raced)
}

/// Checks each part of an access, which is the event of that place in its entry. The checks are appended. Where a loaded word races by
/// the thread's clock, the access waits for the end of the round with the first one.
pub fn check_access(
    shared: &Shared,
    seat: &mut SharedSeat,
    image: &Image<'_>,
    watcher: &Watcher,
    event: &Event,
    place: u32,
    findings: &mut Findings,
) -> Result<(), NoMemory>
    requires own { IsSeatOf shared.now seat.old }
    requires granules { shared.now.layout.granules ≡ granules_of image.now }
    requires can { CanCheck shared.now.layout.limits watcher.now }
    requires access { IsSome (access_of event.now) }
    ensures own { IsSeatOf shared.now seat.new }
    ensures seat { MadeSteps seat.old.me seat.new.me }
    ensures checked { IfOk result (λ done. Checks image.now watcher.now event.now place findings.old.checks findings.new.checks
        findings.old.waiting.items findings.new.waiting.items seat.old.me seat.new.me) }
{
    let checks = &mut findings.checks;
    let raced = check_all(shared, seat, image, watcher, event, place, checks)?;
    wait_for(watcher, event, raced, &mut findings.waiting)
}
