// The checks of an access.
ghost use Rattle.std.specs.Prelude.{◌≡◌, ◌≢◌, ◌+◌, ◌*◌, ◌<◌, ◌≤◌, ℕ, ◌-◌, ◌^◌, Some, None, length, position, slice_index, option_map, IsSome, IsSomeAnd, IfOk, OnOk};
ghost use Rattle.run_record.specs.declared.entry.Label.{Label};
ghost use Rattle.run_laws.specs.Accesses.{Access, access_of};
ghost use Rattle.run_laws.specs.Candidates.{is_race};
ghost use Rattle.shadow_word.specs.Decisions.{AreInClock};
ghost use Rattle.elf_image.specs.File.{granules_of};
ghost use Rattle.race_core.specs.Watched.{CanBeNoted};
ghost use Rattle.detector.specs.Hears.{Hears};
ghost use Rattle.detector.specs.Detected.{watcher_of, cells_at, after_note, IsGoing};
ghost use Rattle.detector.specs.Checking.{IsStanding, ChecksAll};
ghost use Rattle.hart_events.specs.Checks.{waits_on};
ghost use Rattle.detector.specs.Checked.{IsCheckOf, stored_in};

use crate::Detector;
use elf_image::Image;
use hart_events::{Raced, first_raced, raced_word, stored_word, wait_for};
use race_core::Watcher;
use run_record::{Check, CheckList, Event, NoMemory};

/// Stores a word in a cell of a granule, if a cell is told.
fn store(shadow: &mut [u64], granule: u32, stored: Option<(u8, u64)>)
    requires room { 4 * granule + 4 ≤ length shadow.old }
    requires cell { (s : ℕ × ℕ) → stored ≡ Some s → s.0 < 4 }
    ensures { shadow.new ≡ stored_in shadow.old granule stored }
{
    if let Some((cell, word)) = stored {
        shadow[4 * granule as usize + cell as usize] = word;
    }
}

impl Detector {
    /// The watcher of a thread.
    pub(crate) fn watcher(&self, tid: u32) -> &Watcher
        requires { tid < length self.now.watchers }
        ensures { result.now ≡ watcher_of self.now tid }
    {
        &self.watchers[tid as usize]
    }

    /// The four words of a granule.
    fn words_of(&self, granule: u32) -> [u64; 4]
        requires { 4 * granule + 4 ≤ length self.now.shadow }
        ensures { result ≡ cells_at self.now.shadow granule }
    {
        let at = 4 * granule as usize;
        [
            self.shadow[at],
            self.shadow[at + 1],
            self.shadow[at + 2],
            self.shadow[at + 3],
        ]
    }

    // Checks one part of an access, and gives its check with the first word that races.
    #[tactic(auto, using(crate::proofs::CheckLaws::race_within, crate::proofs::CheckLaws::store_within))]
    fn check(
        &mut self,
        tid: u32,
        place: u32,
        event: &Event,
        turn: u8,
        granule: u32,
        mask: u8,
    ) -> (Check, Option<Raced>)
        requires watched { tid < length self.old.watchers }
        requires room { 4 * granule + 4 ≤ length self.old.shadow }
        requires access { IsSome (access_of event.now) }
        requires label { IsSomeAnd (watcher_of self.old tid).label (λ l. AreInClock l.era (watcher_of self.old tid).clock (cells_at self.old.shadow granule)) }
        requires some_byte { mask ≢ 0 }
        requires a_turn { turn ≤ 3 }
        ensures check { (a : Access) (l : Label) → access_of event.now ≡ Some a → (watcher_of self.old tid).label ≡ Some l → IsCheckOf self.old.shadow l a place turn (granule, mask) result.0 }
        ensures raced { result.1 ≡ option_map (λ (i : ℕ). record { granule = granule; word = slice_index result.0.cells i }) (position (is_race (slice_index (watcher_of self.old tid).clock) result.0.word) result.0.cells) }
        ensures stored { self.new ≡ record self.old { shadow = stored_in self.old.shadow granule result.0.stored } }
    {
        let cells = self.words_of(granule);
        let (word, decision) = self.watcher(tid).check_part(event, mask, cells, turn);
        let stored = stored_word(decision.store, word);
        store(self.shadow.as_mut_slice(), granule, stored);
        let check = Check {
            event: place,
            granule,
            word,
            turn,
            cells,
            stored,
        };
        (check, raced_word(granule, &cells, decision.race))
    }

    // Checks each part of an access, and gives the first word that races.
    fn check_all(
        &mut self,
        image: &Image<'_>,
        tid: u32,
        place: u32,
        event: &Event,
        checks: &mut CheckList,
    ) -> Result<Option<Raced>, NoMemory>
        requires access { IsSome (access_of event.now) }
        requires going { IsGoing self.old tid }
        requires stands { IsStanding (granules_of image.now) self.old }
        ensures all { IfOk result (ChecksAll image.now self.old self.new tid place event.now checks.old checks.new) }
    {
        image.accepted();
        let watcher = self.watcher(tid);
        let turn = (watcher.trace().count() % 4) as u8;
        let mut parts = watcher.plan_access(image, event);
        let mut raced = None;
        'parts: while let Some((granule, mask)) = parts.next() {
            let (check, found) = self.check(tid, place, event, turn, granule, mask);
            checks.push(check)?;
            raced = first_raced(raced, found);
        }
        Ok(raced)
    }

    // Where a word races the access waits for the end of the round.
    fn wait(&mut self, tid: u32, event: &Event, raced: Option<Raced>) -> Result<(), NoMemory>
        requires watched { tid < length self.old.watchers }
        requires access { IsSome (access_of event.now) }
        ensures { (a : Access) → access_of event.now ≡ Some a → OnOk result (self.new ≡ record self.old { waiting = waits_on (watcher_of self.old tid) a raced self.old.waiting }) }
    {
        wait_for(
            &self.watchers[tid as usize],
            event,
            raced,
            &mut self.waiting,
        )?;
        Ok(())
    }

    // The thread's stack, locks and trace go on by the event.
    pub(crate) fn note(&mut self, tid: u32, event: &Event)
        requires watched { tid < length self.old.watchers }
        requires can { CanBeNoted (length (watcher_of self.old tid).frames) event.now }
        requires spare { 0 < (watcher_of self.old tid).trace.spare }
        requires count { (watcher_of self.old tid).trace.count < 2 ^ 64 - 1 }
        ensures { self.new ≡ after_note self.old tid event.now }
    {
        let watcher = &mut self.watchers[tid as usize];
        watcher.note(event);
    }

    /// The thread makes an access: each of its parts is checked, and the access is noted. Where a
    /// loaded word races, it waits for the end of the round.
    pub(crate) fn access(
        &mut self,
        image: &Image<'_>,
        tid: u32,
        place: u32,
        event: &Event,
        checks: &mut CheckList,
    ) -> Result<(), NoMemory>
        requires access { IsSome (access_of event.now) }
        requires going { IsGoing self.old tid }
        requires stands { IsStanding (granules_of image.now) self.old }
        requires can { CanBeNoted (length (watcher_of self.old tid).frames) event.now }
        requires spare { 0 < (watcher_of self.old tid).trace.spare }
        requires count { (watcher_of self.old tid).trace.count < 2 ^ 64 - 1 }
        ensures heard { OnOk result (Hears image.now self.old.limits self.old self.new tid place event.now checks.old checks.new None) }
    {
        let raced = self.check_all(image, tid, place, event, checks)?;
        self.wait(tid, event, raced)?;
        self.note(tid, event);
        Ok(())
    }
}
