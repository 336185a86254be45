//! What workers tell of races.
//!
//! A worker tests by its thread's clock each word that the checks of an access loaded, and where one races it tells the access, with
//! the thread's stack and locks, as one that awaits the end of the round. `TellsRaces` says what it tells of each deed of its part.
//! What all workers of a round told is sorted as their entries are. The laws say that this is what the sorted history collects:
//! those of its accesses which loaded a word that races by the history's own clocks, in their order, each as the history tells it. So
//! it is of each round, and of all of them.
//!
//! `hart_parts` and `report_laws` stand below this crate, with what is below them. Its functions do nothing: the contract of each is
//! a law. The layer above gathers what awaits by `grows_law`, sorts it at a round's end by `sorted_law`, and cites `round_law` for the
//! laws of reports.
#![tactic(auto)]

ghost use Rattle.std.specs.Prelude.{◌≡◌, ◌≢◌, ℕ, List, [], ◌∷◌, ◌++◌, length, Ok};
ghost use Rattle.std.specs.List.{flat_map, AllZip};
ghost use Rattle.run_record.specs.declared.event.Event.{Event};
ghost use Rattle.run_record.specs.declared.entry.Check.{Check};
ghost use Rattle.run_record.specs.declared.entry.Entry.{Entry};
ghost use Rattle.run_record.specs.declared.limits.Limits.{Limits};
ghost use Rattle.elf_image.specs.File.{image_of};
ghost use Rattle.run_laws.specs.Moments.{Moment, moments, moments_in, entry_moments};
ghost use Rattle.run_laws.specs.Accesses.{access_of};
ghost use Rattle.report_laws.specs.Awaited.{Awaited, Collects};
ghost use Rattle.bare_machine.specs.World.{World};
ghost use Rattle.turn_orders.specs.Machine.{State};
ghost use Rattle.turn_orders.specs.LineUp.{Stamped};
ghost use Rattle.joint_turns.specs.Joint.{Value};
ghost use Rattle.watched_turns.specs.Turns.{Local, Act};
ghost use Rattle.turn_histories.specs.Rounds.{all_entries};
ghost use Rattle.race_core.specs.Watched.{AreWatcherLimits};
ghost use Rattle.race_core.specs.History.{era_now};
ghost use Rattle.shared_table.specs.declared.object.Object.{Object};
ghost use Rattle.shared_table.specs.declared.view.Layout.{Layout};
ghost use Rattle.placed_detector.specs.Standing.{Hand, Held, Standing};
ghost use Rattle.placed_detector.specs.Instructions.{Beside, HearsEvent};
ghost use Rattle.deed_histories.specs.Deeds.{Made, IsDeed};
ghost use Rattle.table_deeds.specs.Objects.{AreFirstObjects};
ghost use Rattle.hart_parts.specs.Rounds.{PartRound, IsPartRound, ArePartRounds};
ghost use Rattle.part_races.specs.Awaits.{awaits_at, AwaitsEvents, AwaitsInstruction, AwaitsMade, AwaitsGathered, AwaitsIn};
ghost use Rattle.part_races.specs.Rounds.{Tagged, TellsRaces, RoundAwaits, AllAwait, era_after, entries_of_rounds};
ghost use Rattle.part_races.specs.Sorting.{Keyed, all_keyed, awaited_in, AreSorted};

/// What awaits grows by each event that is heard, and by each instruction that is made, also where the place isn't known yet.
pub fn grows_law()
    ensures events { (k t : ℕ) (es : List Event) (css : List (List Check)) (old mid new : Beside) (awaited : List Awaited) (e : Event) (checks : List Check) →
        AwaitsEvents k t es css old mid awaited → HearsEvent k t e mid new →
        AwaitsEvents k t (es ++ e ∷ []) (css ++ checks ∷ []) old new (awaited ++ awaits_at mid.watched (access_of e) checks) }
    ensures made { (file : List ℕ) (harts era t k : ℕ) (xs : List Made) (x : Made) (found hand left : Hand) (place_found held place_left : Held)
        (awaited later : List Awaited) →
        AwaitsMade file harts era t k xs found hand place_found held awaited →
        AwaitsInstruction file harts era t k x hand left held place_left later →
        AwaitsMade file harts era t k (xs ++ x ∷ []) found left place_found place_left (awaited ++ later) }
    ensures gathered { (file : List ℕ) (harts era t : ℕ) (xs : List Made) (x : Made) (found hand left : Hand) (awaited later : List Awaited) →
        AwaitsGathered file harts era t xs found hand awaited →
        ((k : ℕ) (held : Held) → AwaitsInstruction file harts era t k x hand left held held later) →
        AwaitsGathered file harts era t (xs ++ x ∷ []) found left (awaited ++ later) }
    ensures placed { (file : List ℕ) (harts era t k : ℕ) (xs : List Made) (found left : Hand) (held : Held) (awaited : List Awaited) →
        AwaitsGathered file harts era t xs found left awaited → AwaitsMade file harts era t k xs found left held held awaited }
{}

/// Where workers and places stand as a history leaves them, and a deed is made, the history with the deed's entry collects what
/// the history did, and behind it what the deed awaits.
pub fn deed_law()
    ensures { (file : List ℕ) (limits : Limits) (c : State Hand Held) (m : State Local Value) (w : World) (h : List Moment) (t k : ℕ)
        (hand : Hand) (held : Held) (e : Entry) (acts : List Act) (from : ℕ) (waiting awaited : List Awaited) →
        image_of file ≡ Ok file → Standing file limits c m w h →
        IsDeed file limits (era_now limits.epochs h) t k (c.local t) hand (c.value k) held e acts →
        AwaitsIn file limits (era_now limits.epochs h) t k (c.local t) hand (c.value k) held e awaited →
        Collects limits.epochs h from (length h) waiting →
        Collects limits.epochs (h ++ entry_moments 0 e) from (length (h ++ entry_moments 0 e)) (waiting ++ awaited) }
{}

/// Where a coordinator takes all that the workers of a round told, one worker after another, and sorts it by the stamps and threads of
/// the entries, keeping the order within an entry, it has what the round awaits.
pub fn sorted_law()
    ensures { (file : List ℕ) (limits : Limits) (lay : Layout) (round era : ℕ) (m : State (Stamped Hand) Object) (r : PartRound)
        (told : List (List Tagged)) (keys : List Keyed) →
        IsPartRound file limits lay round era m r → AllZip (TellsRaces file limits era) r.parts told →
        AreSorted (all_keyed (flat_map (λ (xs : List Tagged). xs) told)) keys → RoundAwaits file limits era r (awaited_in keys) }
{}

/// What rounds await grows by that of each round. Where a round has no entries, nothing of it awaits.
pub fn rounds_law()
    ensures more { (file : List ℕ) (limits : Limits) (era : ℕ) (rs : List PartRound) (r : PartRound) (told : List (List Awaited)) (awaited : List Awaited) →
        AllAwait file limits era rs told → RoundAwaits file limits (era_after era rs) r awaited →
        AllAwait file limits era (rs ++ r ∷ []) (told ++ awaited ∷ []) }
    ensures none { (file : List ℕ) (limits : Limits) (era : ℕ) (r : PartRound) (awaited : List Awaited) →
        RoundAwaits file limits era r awaited → r.entries ≡ [] → awaited ≡ [] }
{}

/// After a round the sorted history, from where the round begins, collects what the round's workers told. (Its moments are told
/// with the eras that begin before the round. They are those of the history alone where the round has entries.)
pub fn round_law()
    ensures collects { (file : List ℕ) (limits : Limits) (lay : Layout) (m : State (Stamped Hand) Object) (before : List PartRound) (r : PartRound)
        (told : List (List Awaited)) (awaited : List Awaited) (round : ℕ) →
        AreWatcherLimits limits → AreFirstObjects file limits m → image_of file ≡ Ok file →
        ArePartRounds file limits lay 0 0 0 m (before ++ r ∷ []) → AllAwait file limits 0 (before ++ r ∷ []) (told ++ awaited ∷ []) →
        let entries = all_entries (entries_of_rounds before) in
        let era = era_after 0 before in
        let h = moments_in round era (entries ++ r.entries) in
        Collects limits.epochs h (length (moments_in round era entries)) (length h) awaited }
    ensures some { (file : List ℕ) (limits : Limits) (lay : Layout) (m : State (Stamped Hand) Object) (before : List PartRound) (r : PartRound)
        (told : List (List Awaited)) (awaited : List Awaited) (round : ℕ) →
        AreWatcherLimits limits → AreFirstObjects file limits m → image_of file ≡ Ok file →
        ArePartRounds file limits lay 0 0 0 m (before ++ r ∷ []) → AllAwait file limits 0 (before ++ r ∷ []) (told ++ awaited ∷ []) → r.entries ≢ [] →
        let entries = all_entries (entries_of_rounds before) in
        let h = moments (entries ++ r.entries) in
        Collects limits.epochs h (length (moments_in round (era_after 0 before) entries)) (length h) awaited }
{}

/// From a new table on, the sorted history of all rounds collects what all workers told, one round after another.
pub fn history_law()
    ensures { (file : List ℕ) (limits : Limits) (lay : Layout) (m : State (Stamped Hand) Object) (rs : List PartRound) (told : List (List Awaited)) →
        AreWatcherLimits limits → AreFirstObjects file limits m → image_of file ≡ Ok file →
        ArePartRounds file limits lay 0 0 0 m rs → AllAwait file limits 0 rs told →
        let h = moments (all_entries (entries_of_rounds rs)) in
        Collects limits.epochs h 0 (length h) (flat_map (λ (awaited : List Awaited). awaited) told) }
{}
