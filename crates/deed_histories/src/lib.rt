//! The deeds of workers as turns of the watched machine, and the entries that tell them.
//!
//! A worker says of each of its deeds what it did: a slot that its thread took or left, or instructions of which only the last
//! uses an object, with the events and the checks of each; and it leaves an entry of them (`IsDeed`). The laws say that the
//! watched machine makes each deed as one turn which the entry tells; that it follows all deeds of a line, with the same stamps;
//! and that so it is round after round, as deeds line up as they were made and are listed by their stamps. So the entries that
//! workers leave, in that order, are a faithful history of threads that run at once, with the checks of their accesses.
//!
//! `placed_detector`, `turn_histories` and `woven_turns` stand below this crate, with what is below them. Its functions do nothing:
//! the contract of each is a law. The layer above has the line of each round from `woven_turns`, and cites `history_law`.
#![tactic(auto)]

ghost use Rattle.std.specs.Prelude.{◌≡◌, ℕ, List, Ok};
ghost use Rattle.run_record.specs.declared.entry.Entry.{Entry};
ghost use Rattle.run_record.specs.declared.limits.Limits.{Limits};
ghost use Rattle.elf_image.specs.File.{image_of, granule_of};
ghost use Rattle.run_laws.specs.Moments.{Moment, moments};
ghost use Rattle.run_laws.specs.Checks.{AreAllChecks, AllStoreRightly};
ghost use Rattle.run_laws.specs.Faithful.{AtOnce, IsFaithful};
ghost use Rattle.machine_laws.specs.Machine.{bare_of};
ghost use Rattle.turn_histories.specs.Rounds.{all_entries};
ghost use Rattle.race_core.specs.Watched.{AreWatcherLimits};
ghost use Rattle.bare_machine.specs.World.{World};
ghost use Rattle.turn_orders.specs.Lists.{Each};
ghost use Rattle.turn_orders.specs.Machine.{State};
ghost use Rattle.turn_orders.specs.LineUp.{Stamped};
ghost use Rattle.joint_turns.specs.Joint.{Value};
ghost use Rattle.watched_turns.specs.Turns.{Local, Act};
ghost use Rattle.race_core.specs.History.{era_now};
ghost use Rattle.woven_turns.specs.Weave.{LinesUp};
ghost use Rattle.placed_detector.specs.Standing.{Hand, Held, Standing};
ghost use Rattle.deed_histories.specs.Deeds.{IsDeed, IsFollowed};
ghost use Rattle.deed_histories.specs.Lines.{HandDeed, IsHandDeed, StandsStamped, FollowsDeeds};
ghost use Rattle.deed_histories.specs.Rounds.{HandRound, AreHandRounds, FollowsRounds, AreFirstStamped, listed_entries};

/// The watched machine makes a deed as one turn, from the state that it has beside what workers and places keep; the entry tells
/// it; and all stands in the history with the entry.
pub fn deed_law()
    ensures { (file : List ℕ) (limits : Limits) (c : State Hand Held) (m : State Local Value) (w : World) (h : List Moment) (t k : ℕ) (hand : Hand)
        (held : Held) (e : Entry) (acts : List Act) →
        image_of file ≡ Ok file → Standing file limits c m w h → IsDeed file limits (era_now limits.epochs h) t k (c.local t) hand
        (c.value k) held e acts →
        IsFollowed file limits c m h t k hand held e acts }
{}

/// It follows deeds that line up, as far as each thread by itself and each place by itself can tell.
pub fn line_law()
    ensures { (file : List ℕ) (limits : Limits) (c : State (Stamped Hand) (Stamped Held)) (m : State (Stamped Local) (Stamped Value)) (w : World)
        (h : List Moment) (ds : List HandDeed) →
        image_of file ≡ Ok file → LinesUp c ds → Each (IsHandDeed file limits (era_now limits.epochs h)) ds → StandsStamped file limits c m w h →
        FollowsDeeds file limits c m h ds }
{}

/// So it follows round after round, with the eras that begin between them; and the entries as they are listed tell its rounds.
pub fn rounds_law()
    ensures { (file : List ℕ) (limits : Limits) (c : State (Stamped Hand) (Stamped Held)) (m : State (Stamped Local) (Stamped Value)) (w : World)
        (h : List Moment) (round era base : ℕ) (rs : List HandRound) →
        image_of file ≡ Ok file → StandsStamped file limits c m w h → era_now limits.epochs h ≡ era → AreHandRounds file limits round era base c rs →
        FollowsRounds file limits round era base c m rs }
{}

/// From the first state on, the entries of all rounds are a faithful history of threads that run at once. Their checks are those
/// of the accesses, and store by the rule, whatever words were loaded.
pub fn history_law()
    ensures faithful { (file : List ℕ) (limits : Limits) (c : State (Stamped Hand) (Stamped Held)) (rs : List HandRound) →
        AreWatcherLimits limits → AreFirstStamped file limits c → image_of file ≡ Ok file → AreHandRounds file limits 0 0 0 c rs →
        IsFaithful AtOnce (bare_of file limits.harts) (all_entries (listed_entries rs)) }
    ensures checks { (file : List ℕ) (limits : Limits) (c : State (Stamped Hand) (Stamped Held)) (rs : List HandRound) →
        AreWatcherLimits limits → AreFirstStamped file limits c → image_of file ≡ Ok file → AreHandRounds file limits 0 0 0 c rs →
        let entries = all_entries (listed_entries rs) in
        AreAllChecks limits.epochs (granule_of file) entries (moments entries) }
    ensures stores { (file : List ℕ) (limits : Limits) (c : State (Stamped Hand) (Stamped Held)) (rs : List HandRound) →
        AreWatcherLimits limits → AreFirstStamped file limits c → image_of file ≡ Ok file → AreHandRounds file limits 0 0 0 c rs →
        AllStoreRightly (moments (all_entries (listed_entries rs))) }
{}
