//! Deeds at the objects of the shared table, as the laws of workers have them.
//!
//! A worker finds and leaves an object of the table: a stripe, or the desk. What such an object keeps of its place is a function
//! of it (`held_in`): the place's part of the bare machine, its synchronisation objects or its slots, and its last stamp. The laws
//! say that a new table is where the laws of workers begin, and that deeds which workers tell along a past of the table line up as
//! those laws ask, round after round. So what workers tell of themselves gives a faithful history.
//!
//! `shared_table`, `woven_turns`, `hart_steps` and `deed_histories` stand below this crate, with what is below them. Its functions do
//! nothing: the contract of each is a law. The layer above has the workers' clauses for each round, gets from `round_law` what the
//! table has after it, and cites `history_law`.
#![tactic(auto)]

ghost use Rattle.std.specs.Prelude.{◌≡◌, ℕ, ◌<◌, Bool, IsPermutation, List, [], ◌∷◌, ◌++◌, length, Some, Ok};
ghost use Rattle.run_record.specs.declared.entry.Entry.{Entry};
ghost use Rattle.run_record.specs.declared.limits.Limits.{Limits};
ghost use Rattle.run_record.specs.Order.{AreOrdered, entries_in};
ghost use Rattle.turn_orders.specs.Lists.{Each, In};
ghost use Rattle.elf_image.specs.File.{image_of, granule_of};
ghost use Rattle.run_laws.specs.Moments.{moments};
ghost use Rattle.run_laws.specs.Checks.{AreAllChecks, AllStoreRightly};
ghost use Rattle.run_laws.specs.Faithful.{AtOnce, IsFaithful};
ghost use Rattle.machine_laws.specs.Machine.{bare_of};
ghost use Rattle.turn_histories.specs.Rounds.{all_entries};
ghost use Rattle.race_core.specs.Watched.{AreWatcherLimits};
ghost use Rattle.shared_table.specs.declared.object.Object.{Object};
ghost use Rattle.shared_table.specs.declared.view.Layout.{Layout};
ghost use Rattle.bare_machine.specs.Step.{desk};
ghost use Rattle.shared_table.specs.declared.view.Item.TheVariants.{Take, Give};
ghost use Rattle.shared_table.specs.Layouts.{objects_of, IsLaidOut};
ghost use Rattle.shared_table.specs.Past.{Past, turns_of, log_of, Lawful};
ghost use Rattle.turn_orders.specs.Machine.{State};
ghost use Rattle.turn_orders.specs.LineUp.{Stamped, with_stamp, of_thread, last_local, IsSorted};
ghost use Rattle.woven_turns.specs.Weave.{Tags, LinesUp, weave, first_deeds, Worked};
ghost use Rattle.woven_turns.specs.Following.{left_after};
ghost use Rattle.placed_detector.specs.Standing.{Hand, Held};
ghost use Rattle.placed_detector.specs.First.{first_hand};
ghost use Rattle.deed_histories.specs.Lines.{Tells, HandDeed, IsHandDeed};
ghost use Rattle.deed_histories.specs.Rounds.{AreFirstStamped, PartsEnd, hand_stamp};
ghost use Rattle.table_deeds.specs.Objects.{ObjectDeed, hand_deeds, held_at, IsFirstPrivate, AreFirstObjects};
ghost use Rattle.table_deeds.specs.Listing.{AreApart, logs_of, IsListed, EndsAlone};
ghost use Rattle.table_deeds.specs.Rounds.{TableRound, HasObjects, IsNextState, HaveStamps, IsTableRound, AreTableRounds};
ghost use Rattle.table_deeds.specs.Rounds.{AreKept, last_stamp, entries_by_round};

/// What a new table keeps, before any thread has arrived, is what the laws of workers begin with.
pub fn first_law()
    ensures { (file : List ℕ) (limits : Limits) (m : State (Stamped Hand) Object) → AreFirstObjects file limits m →
        AreFirstStamped file limits (held_at file limits m) }
{}

/// Deeds at objects line up where those at what the objects keep do, and leave what the last objects keep.
pub fn line_law()
    ensures order { (file : List ℕ) (limits : Limits) (m : State (Stamped Hand) Object) (ds : List ObjectDeed) → LinesUp m ds →
        LinesUp (held_at file limits m) (hand_deeds file limits ds) }
    ensures left { (file : List ℕ) (limits : Limits) (m : State (Stamped Hand) Object) (ds : List ObjectDeed) →
        left_after (held_at file limits m) (hand_deeds file limits ds) ≡ held_at file limits (left_after m ds) }
{}

/// The deeds that workers tell of a round, in the order of its past and with those that used no object behind them, line up from
/// what the objects keep before the round.
pub fn woven_law()
    ensures { (file : List ℕ) (limits : Limits) (lay : Layout) (m : State (Stamped Hand) Object) (early late : Past)
        (tag : Tags (Stamped Hand) (Unit {0}) Tells) (seat : ℕ → ℕ) (alone : List ObjectDeed) →
        Lawful lay (late ++ early) → Worked lay m early late tag seat alone →
        LinesUp (held_at file limits m) (hand_deeds file limits (weave tag late ++ alone)) }
{}

/// After a round the table has the objects that its deeds left, and each thread has what the last of its own deeds left.
pub fn round_law()
    ensures objects { (lay : Layout) (m : State (Stamped Hand) Object) (early late : Past)
        (tag : Tags (Stamped Hand) (Unit {0}) Tells) (seat : ℕ → ℕ) (alone : List ObjectDeed) (k : ℕ) →
        Lawful lay (late ++ early) → Worked lay m early late tag seat alone → k < objects_of lay →
        (turns_of lay k (late ++ early)).value ≡ Some ((left_after m (weave tag late ++ alone)).value k) }
    ensures threads { (lay : Layout) (m : State (Stamped Hand) Object) (early late : Past)
        (tag : Tags (Stamped Hand) (Unit {0}) Tells) (seat : ℕ → ℕ) (alone : List ObjectDeed) (t : ℕ) →
        Worked lay m early late tag seat alone →
        (left_after m (weave tag late ++ alone)).local t
        ≡ last_local (m.local t) (first_deeds (tag (seat t)) (length (log_of (seat t) late)) ++ of_thread t alone) }
{}

/// Rounds at the table are rounds of what its objects keep, with the eras that the desk begins between them.
pub fn rounds_law()
    ensures { (file : List ℕ) (limits : Limits) (lay : Layout) (round era base : ℕ) (m : State (Stamped Hand) Object) (rs : List TableRound) →
        AreTableRounds file limits lay round era base m rs → AreKept file limits round era base m rs }
{}

/// From a new table on, the entries of all rounds, as the workers' logs are merged, are a faithful history of threads that run at
/// once. Their checks are those of the accesses, and store by the rule, whatever words were loaded.
pub fn history_law()
    ensures faithful { (file : List ℕ) (limits : Limits) (lay : Layout) (m : State (Stamped Hand) Object) (rs : List TableRound) →
        AreWatcherLimits limits → AreFirstObjects file limits m → image_of file ≡ Ok file → AreTableRounds file limits lay 0 0 0 m rs →
        IsFaithful AtOnce (bare_of file limits.harts) (all_entries (entries_by_round rs)) }
    ensures checks { (file : List ℕ) (limits : Limits) (lay : Layout) (m : State (Stamped Hand) Object) (rs : List TableRound) →
        AreWatcherLimits limits → AreFirstObjects file limits m → image_of file ≡ Ok file → AreTableRounds file limits lay 0 0 0 m rs →
        let entries = all_entries (entries_by_round rs) in
        AreAllChecks limits.epochs (granule_of file) entries (moments entries) }
    ensures stores { (file : List ℕ) (limits : Limits) (lay : Layout) (m : State (Stamped Hand) Object) (rs : List TableRound) →
        AreWatcherLimits limits → AreFirstObjects file limits m → image_of file ≡ Ok file → AreTableRounds file limits lay 0 0 0 m rs →
        AllStoreRightly (moments (all_entries (entries_by_round rs))) }
{}

/// A table that was laid out for the file has the first objects. What it has when a round begins is what the last round left, but for
/// the desk, where the opening seat took a turn between them.
pub fn opening_law()
    ensures first { (file : List ℕ) (limits : Limits) (lay : Layout) (m : State (Stamped Hand) Object) → IsLaidOut file limits lay →
        HasObjects lay [] m → ((t : ℕ) → m.local t ≡ with_stamp (first_hand limits t) 0) → ((k : ℕ) → desk < k → IsFirstPrivate limits (m.value k)) →
        AreFirstObjects file limits m }
    ensures between { (lay : Layout) (past : Past) (n i j : ℕ) (found left : Object) (m next : State (Stamped Hand) Object) (era stamp : ℕ) (ends : Bool) →
        HasObjects lay past m → IsNextState m next era stamp ends → next.value desk ≡ left →
        HasObjects lay ((n, Give desk j found left) ∷ (n, Take desk i) ∷ past) next }
{}

/// Where each thread's deeds left their entries in a log of its own, the logs as they are merged list the deeds of a round.
pub fn listing_law()
    ensures { (file : List ℕ) (limits : Limits) (era : ℕ) (ds : List HandDeed) (threads : List ℕ) (es : List Entry) →
        Each (IsHandDeed file limits era) ds → AreApart threads → Each (λ (d : HandDeed). In d.call.thread threads) ds →
        IsPermutation (entries_in (logs_of threads ds)) es → AreOrdered es → IsListed ds es }
{}

/// Where a thread's deed that uses no object is its last one of the round, it is so as the round is listed.
pub fn parts_law()
    ensures { (file : List ℕ) (limits : Limits) (era : ℕ) (c : State (Stamped Hand) (Stamped Held)) (made listed : List HandDeed) →
        LinesUp c made → Each (IsHandDeed file limits era) made → ((t : ℕ) → EndsAlone (of_thread t made)) → IsPermutation made listed →
        IsSorted hand_stamp listed → PartsEnd listed }
{}

/// After a round each thread has the greatest stamp so far, and no place has a greater one.
pub fn stamps_law()
    ensures { (file : List ℕ) (limits : Limits) (lay : Layout) (round era : ℕ) (m : State (Stamped Hand) Object) (r : TableRound) →
        IsTableRound file limits lay round era m r → HaveStamps r.next (last_stamp r) }
{}
