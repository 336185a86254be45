//! Histories of turns: what workers made round after round, told as entries, is what the bare machine does.
//!
//! A worker leaves an entry for each turn that it makes: which instructions of its thread, the slot that was taken or left,
//! the events and the checks, and the stamp that the turn drew. The definitions in specs/ say when an entry tells a turn of
//! the machine of `watched_turns`, and when a list of entries tells a round. The laws say that the entries of all rounds, in
//! the order of their stamps, are a faithful history of a run of many threads at once.
//!
//! `watched_turns` and `machine_laws` stand below this crate, with what is below them. Its functions do nothing: the contract
//! of each is a law. The layer above cites `faithful_law` of the rounds that its workers made.
#![tactic(auto)]

ghost use Rattle.std.specs.Prelude.{◌≡◌, ℕ, List, Ok};
ghost use Rattle.elf_image.specs.File.{image_of, granule_of};
ghost use Rattle.run_record.specs.declared.entry.Entry.{Entry};
ghost use Rattle.run_laws.specs.Moments.{moments};
ghost use Rattle.run_laws.specs.Checks.{AreAllChecks, AllStoreRightly};
ghost use Rattle.run_laws.specs.Faithful.{AtOnce, IsFaithful};
ghost use Rattle.machine_laws.specs.Machine.{bare_of};
ghost use Rattle.turn_orders.specs.Machine.{many};
ghost use Rattle.turn_orders.specs.LineUp.{Stamped, stamped};
ghost use Rattle.turn_orders.specs.Rounds.{AreRounds};
ghost use Rattle.joint_turns.specs.Joint.{Value};
ghost use Rattle.watched_turns.specs.Turns.{Local, watched_turn};
ghost use Rattle.watched_turns.specs.Rounds.{WatchedRound, between};
ghost use Rattle.turn_histories.specs.Rounds.{first_stamped, AreRoundsOf, all_entries};

/// Where rounds go on from the first state, and entries tell the turns of each round as it is listed, the entries of all
/// rounds tell what the bare machine of the file does, of whose threads so many may live at once. As everywhere here, g is
/// the greatest epoch, and there are so many slots.
pub fn faithful_law()
    ensures { (file : List ℕ) (harts g slots : ℕ) (rs : List WatchedRound) (ess : List (List Entry)) →
        image_of file ≡ Ok file →
        AreRounds (stamped (many (watched_turn file harts g))) (between slots) (λ (l : Stamped Local). l.last) (λ (x : Stamped Value). x.last) 0 (first_stamped file slots) rs →
        AreRoundsOf file harts g 0 0 rs ess →
        IsFaithful AtOnce (bare_of file harts) (all_entries ess) }
{}

/// Their checks are those of the accesses, with the words of the threads' labels, and each stores by the rule, whatever words
/// were loaded.
pub fn checks_law()
    ensures checks { (file : List ℕ) (harts g slots : ℕ) (rs : List WatchedRound) (ess : List (List Entry)) →
        image_of file ≡ Ok file →
        AreRounds (stamped (many (watched_turn file harts g))) (between slots) (λ (l : Stamped Local). l.last) (λ (x : Stamped Value). x.last) 0 (first_stamped file slots) rs →
        AreRoundsOf file harts g 0 0 rs ess →
        AreAllChecks g (granule_of file) (all_entries ess) (moments (all_entries ess)) }
    ensures stores { (file : List ℕ) (harts g slots : ℕ) (rs : List WatchedRound) (ess : List (List Entry)) →
        image_of file ≡ Ok file →
        AreRounds (stamped (many (watched_turn file harts g))) (between slots) (λ (l : Stamped Local). l.last) (λ (x : Stamped Value). x.last) 0 (first_stamped file slots) rs →
        AreRoundsOf file harts g 0 0 rs ess →
        AllStoreRightly (moments (all_entries ess)) }
{}
