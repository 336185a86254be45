//! Rounds as the one who starts them has them, free of any past of the table.
//!
//! The coordinator of a parallel run has workers make parts of rounds, and takes a turn of the desk behind each. It knows the logs of
//! all seats and no past of the table: the table tells it that there is a past with these logs, another one each time. So what it
//! carries from round to round (`AreMade`, `Stand`, `HaveLogs`) speaks of no past. The laws find the rounds in whatever past is told.
//! They cut it at the joins of each round, by the opening seat's log; the round's seats had no step before and have none after. So the
//! rounds are those that the laws of runs ask for (`HaveRounds`), with the state that the coordinator carried.
//!
//! `part_runs` stands below this crate, with what is below it. The functions here do nothing: the contract of each is a law. The layer
//! above carries what it knows by `more_law` and `logs_law`, merges a round's logs by `distinct_law`, tells reports at a round's end by
//! `told_law`, and cites `run_law` when the run is over.
#![tactic(auto)]

ghost use Rattle.std.specs.Prelude.{◌≡◌, ◌↔◌, ◌+◌, ℕ, if◌then◌else◌, Bool, List, [], ◌∷◌, ◌++◌, length, slice_get, map, Option, All, Some, None};
ghost use mathlib.Core.Option.{some};
ghost use lib.ListN.{get_elem?};
ghost use Rattle.run_record.specs.declared.entry.Entry.{Entry};
ghost use Rattle.run_record.specs.declared.limits.Limits.{Limits};
ghost use Rattle.run_record.specs.declared.plan.Turn.{Turn};
ghost use Rattle.run_record.specs.declared.finished.Finished.{Finished};
ghost use Rattle.run_record.specs.Order.{AreDistinct, entries_in};
ghost use Rattle.elf_image.specs.File.{entry};
ghost use Rattle.run_laws.specs.Moments.{moments};
ghost use Rattle.run_laws.specs.Faithful.{AtOnce};
ghost use Rattle.run_laws.specs.Reports.{kept_of};
ghost use Rattle.whole_runs.specs.Run.{IsRun, kept_in};
ghost use Rattle.bare_machine.specs.Step.{desk};
ghost use Rattle.machine_desk.specs.Desks.{first_desk};
ghost use Rattle.slot_desk.specs.Desks.{live_of};
ghost use Rattle.slot_desk.specs.Steps.{new_desk};
ghost use Rattle.turn_orders.specs.Lists.{Each};
ghost use Rattle.shared_table.specs.declared.object.DeskState.{DeskState};
ghost use Rattle.shared_table.specs.declared.object.Object.{Object};
ghost use Rattle.shared_table.specs.declared.view.Layout.{Layout};
ghost use Rattle.shared_table.specs.declared.view.View.{View};
ghost use Rattle.shared_table.specs.declared.view.Item.TheVariants.{Take, Give};
ghost use Rattle.shared_table.specs.Layouts.{first_of, IsLaidOut};
ghost use Rattle.shared_table.specs.Past.{Log, Past, log_of, logs_of};
ghost use Rattle.shared_table.specs.Rounds.{Grown};
ghost use Rattle.table_deeds.specs.Listing.{AreApart};
ghost use Rattle.table_deeds.specs.Rounds.{IsNextDesk};
ghost use Rattle.hart_parts.specs.Parts.{Part, part_entries, IsPart};
ghost use Rattle.whole_parts.specs.Dues.{HasDesk, LivesBy};
ghost use Rattle.report_laws.specs.Awaited.{Awaited};
ghost use Rattle.part_races.specs.Sorting.{Keyed, awaited_in};
ghost use Rattle.part_runs.specs.Told.{RoundReports, IsToldRound, AwaitRoundEnd, all_told};
ghost use Rattle.part_runs.specs.Ends.{IsTellable};
ghost use Rattle.made_rounds.specs.Made.{MadeRound, Stand, first_stand, stand_after, stand_of, IsMade, AreMade, entries_of_made};
ghost use Rattle.made_rounds.specs.Logs.{round_items, HasPartLogs, HaveLogs, HaveRoundLogs};
ghost use Rattle.made_rounds.specs.Known.{IsSetUp, HaveBeenMade, stand_behind, IsAtRoundEnd, at_round_end, HaveRounds};
ghost use Rattle.made_rounds.specs.Known.{TellsRound, TellAll, AreToldMade, IsOverAt};

/// Whatever lawful past has the logs of rounds that were made, also where the opening seat has taken the desk since: it has rounds of
/// parts, with these entries, each of which was due, and all is behind them as it was carried along.
pub fn rounds_law()
    ensures { (file : List ℕ) (limits : Limits) (lay : Layout) (past : Past) (first : Object) (xs : List MadeRound) (taken : Option ℕ) →
        HaveBeenMade file limits lay past first xs →
        HaveLogs (logs_of past) (log_of 0 past) (first_stand limits first) xs taken →
        HaveRounds file limits lay past xs (stand_behind limits first xs) }
{}

/// At a round's end, when the desk has been taken, what the workers told of its races and was sorted awaits that end; and the desk
/// names the owner of each of these accesses, and what the owner's trace tells is to be reported.
pub fn told_law()
    ensures awaits { (file : List ℕ) (limits : Limits) (lay : Layout) (past : Past) (first : Object) (xs : List MadeRound) (x : MadeRound)
        (d : DeskState) (earlier : List (List Keyed)) (keys : List Keyed) → IsAtRoundEnd file limits lay past first xs x d →
        TellAll file limits (first_stand limits first) xs earlier →
        TellsRound file limits (stand_behind limits first xs).era x keys →
        AwaitRoundEnd limits (entries_of_made xs) x.entries (awaited_in keys) }
    ensures tells { (file : List ℕ) (limits : Limits) (lay : Layout) (past : Past) (first : Object) (xs : List MadeRound) (x : MadeRound)
        (d : DeskState) (awaited : List Awaited) → IsAtRoundEnd file limits lay past first xs x d →
        AwaitRoundEnd limits (entries_of_made xs) x.entries awaited →
        All (IsTellable file limits (moments (entries_of_made xs ++ x.entries)) (at_round_end (stand_behind limits first xs) x) d.desk) awaited }
{}

/// Where the run is over behind the rounds, and at each round's end reports were told of the accesses that awaited it, what is kept of
/// these, with the entries of all rounds and the last desk's output, is a run, whatever plan there is.
pub fn run_law()
    ensures { (file : List ℕ) (limits : Limits) (lay : Layout) (past : Past) (first : Object) (xs : List MadeRound) (taken : Option ℕ)
        (plan : List Turn) (closed : DeskState) (ts : List RoundReports) (meets : Option (List ℕ) → Option (List ℕ) → Bool)
        (f : Finished) → HaveBeenMade file limits lay past first xs →
        HaveLogs (logs_of past) (log_of 0 past) (first_stand limits first) xs taken →
        IsOverAt limits (stand_behind limits first xs) closed f.last → AreToldMade file limits [] xs ts →
        f.history.entries ≡ entries_of_made xs → kept_in f ≡ kept_of meets (all_told ts) → f.output ≡ closed.machine.output →
        IsRun AtOnce file limits plan meets f }
{}

/// No two entries of a round's parts have the same stamp and the same thread.
pub fn distinct_law()
    ensures { (file : List ℕ) (limits : Limits) (lay : Layout) (first : Object) (era : ℕ) (parts : List Part) →
        IsSetUp file limits lay first → Each (IsPart file limits era) parts →
        AreApart (map (λ (p : Part). p.thread) parts) → AreDistinct (entries_in (map (part_entries file limits) parts)) }
{}

/// What is known of rounds goes on by one more.
pub fn more_law()
    ensures made { (file : List ℕ) (limits : Limits) (s : Stand) (xs : List MadeRound) (x : MadeRound) → AreMade file limits s xs →
        IsMade file limits (stand_of s xs) x → IsNextDesk x.ends x.found x.left → AreMade file limits s (xs ++ x ∷ []) }
    ensures stand { (s : Stand) (xs : List MadeRound) (x : MadeRound) → stand_of s (xs ++ x ∷ []) ≡ stand_after (stand_of s xs) x }
    ensures entries { (xs : List MadeRound) (x : MadeRound) → entries_of_made (xs ++ x ∷ []) ≡ entries_of_made xs ++ x.entries }
    ensures races { (file : List ℕ) (limits : Limits) (s : Stand) (xs : List MadeRound) (earlier : List (List Keyed)) (x : MadeRound)
        (keys : List Keyed) → TellAll file limits s xs earlier → TellsRound file limits (stand_of s xs).era x keys →
        TellAll file limits s (xs ++ x ∷ []) (earlier ++ keys ∷ []) }
    ensures told { (file : List ℕ) (limits : Limits) (xs : List MadeRound) (ts : List RoundReports) (x : MadeRound) (t : RoundReports) →
        AreToldMade file limits [] xs ts → IsToldRound file limits (entries_of_made xs) x.entries t →
        AreToldMade file limits [] (xs ++ x ∷ []) (ts ++ t ∷ []) }
{}

/// And so it is of the logs: of a new table, when a round was made, when the desk is taken behind it, and when it is given back.
pub fn logs_law()
    ensures new { (limits : Limits) (first : Object) → HaveLogs (logs_of []) (log_of 0 []) (first_stand limits first) [] None }
    ensures round { (s : Stand) (xs : List MadeRound) (x : MadeRound) (v w : View) → HaveLogs v.logs v.log s xs None →
        x.first_seat ≡ (stand_of s xs).seat → Grown (length x.parts) v w → w.log ≡ v.log ++ round_items x →
        ((i : ℕ) (p : Part) → slice_get x.parts i ≡ Some p → get_elem? w.logs (length v.logs + i) ≡ some (Some p.log)) →
        HaveRoundLogs w.logs w.log s xs x None }
    ensures taken { (s : Stand) (xs : List MadeRound) (x : MadeRound) (v : View) → HaveRoundLogs v.logs v.log s xs x None →
        HaveRoundLogs v.logs (v.log ++ Take desk x.turn ∷ []) s xs x (Some x.turn) }
    ensures given { (s : Stand) (xs : List MadeRound) (x : MadeRound) (v : View) → HaveRoundLogs v.logs v.log s xs x (Some x.turn) →
        HaveLogs v.logs (v.log ++ Give desk x.turn x.found x.left ∷ []) s (xs ++ x ∷ []) None }
{}

/// A table that was laid out has a desk, with one thread, the main one, which lives.
pub fn first_law()
    ensures some { (file : List ℕ) (limits : Limits) (lay : Layout) → IsLaidOut file limits lay →
        (first : Object) × (first_of lay desk ≡ Some first)
        × HasDesk first (record { desk = new_desk limits; machine = first_desk (entry file); last = 0 }) }
    ensures live { (limits : Limits) → live_of (new_desk limits) ≡ 1 }
    ensures main { (limits : Limits) (d : DeskState) (t : ℕ) → d.desk ≡ new_desk limits → LivesBy d t ↔ (t ≡ 0) }
    ensures made { (limits : Limits) → (new_desk limits).made ≡ 1 }
{}
