//! From the past of the shared table to one order of the turns that workers made.
//!
//! The workers of a round make turns of many threads at once, each at a seat of its own. A worker knows the log of its seat
//! and nothing of the others'. Of each turn it tells a deed: what the turn found and left of its thread and of its object, and
//! what it told; or none, where the turn left the object as it was found. The table's law is that the logs have one past. The
//! laws here say what that makes of the deeds. In the order of the past they are a line of turns (`LinesUp`); each turn, also
//! one without a deed, found what those before it left; sorted by the stamps that they drew, those of each thread and of each
//! object stand as they were made; and loads of shadow cells, which no lock orders, gave what the load rule allows.
//!
//! No machine is known here: what a worker says of its deeds may be any property of them, and holds of the members of the
//! line, since these are the deeds that were told. `shared_table` and what is below it, and `turn_orders`, stand below this
//! crate. Its functions do nothing: the contract of each is a law. The layer above cuts the past at the ends of its rounds by
//! `cut_law`, gives `turn_orders` the line of each round by `woven_law` and `sorted_law`, argues tests that failed in a worker
//! by `found_law` and `place_law`, and gets the load rule of racy cells by `items_law`, `given_law` and `loads_law`.
#![tactic(auto)]

ghost use Rattle.std.specs.Prelude.{◌≡◌, ◌↔◌, ◌⊎◌, ℕ, ◌<◌, ◌≤◌, Bool, List, length, ◌++◌, ◌∷◌, Some};
ghost use mathlib.Core.Option.{some};
ghost use lib.ListN.{get_elem?};
ghost use Rattle.shared_table.specs.declared.object.Object.{Object};
ghost use Rattle.shared_table.specs.declared.view.Layout.{Layout};
ghost use Rattle.shared_table.specs.declared.view.Item.{Item};
ghost use Rattle.shared_table.specs.declared.view.Item.TheVariants.{Take, Give};
ghost use Rattle.shared_table.specs.Layouts.{objects_of};
ghost use Rattle.shared_table.specs.Past.{Past, turns_of, log_of, Lawful};
ghost use Rattle.turn_orders.specs.Lists.{Each, In, SameMembers};
ghost use Rattle.turn_orders.specs.Machine.{State, Turn, after};
ghost use Rattle.turn_orders.specs.LineUp.{Deed, calls, of_thread, of_place, last_value, IsTurn, IsLineUp, Draws, IsSorted};
ghost use Rattle.woven_turns.specs.Steps.{Stands, AllRaise};
ghost use Rattle.woven_turns.specs.Weave.{Tags, LinesUp, weave, first_deeds, WasTold, IsSeatOfThread, Worked};
ghost use Rattle.woven_turns.specs.Turns.{DrewStamp, TurnOf, PlaceInList};
ghost use Rattle.woven_turns.specs.Cells.{Touch, touch, EarlierBy, among, Timed, LoadRule};
ghost use Rattle.woven_turns.specs.Cuts.{CutAt};
ghost use Rattle.woven_turns.specs.Following.{left_by, deeds_of};

/// The deeds of a round in the order of its past, and then those that used no object, line up from the state before the
/// round. They are exactly the deeds that seats told and those alone, so whatever holds of each of these holds of each of the
/// line: where each is a turn of a machine, the line is a line-up of the machine. A thread's deeds are those of its seat's log
/// and then those alone. Those of an object are woven, and the object is after the round what the last of them left.
pub fn woven_law<L, A, T>()
    ensures members { (late : Past) (tag : Tags L A T) (alone : List (Deed L Object A T)) (d : Deed L Object A T) →
        In d (weave tag late ++ alone) ↔ (WasTold tag late d ⊎ In d alone) }
    ensures order { (lay : Layout) (m : State L Object) (early late : Past) (tag : Tags L A T) (seat : ℕ → ℕ) (alone : List (Deed L Object A T)) →
        Lawful lay (late ++ early) → Worked lay m early late tag seat alone → LinesUp m (weave tag late ++ alone) }
    ensures line_up { (turn : Turn L Object A T) (lay : Layout) (m : State L Object) (early late : Past) (tag : Tags L A T) (seat : ℕ → ℕ) (alone : List (Deed L Object A T)) →
        Lawful lay (late ++ early) → Worked lay m early late tag seat alone → ((n j : ℕ) → j < length (log_of n late) → Each (IsTurn turn) (tag n j)) → Each (IsTurn turn) alone →
        IsLineUp turn m (weave tag late ++ alone) }
    ensures threads { (lay : Layout) (m : State L Object) (early late : Past) (tag : Tags L A T) (seat : ℕ → ℕ) (alone : List (Deed L Object A T)) (t : ℕ) →
        Worked lay m early late tag seat alone → of_thread t (weave tag late ++ alone) ≡ first_deeds (tag (seat t)) (length (log_of (seat t) late)) ++ of_thread t alone }
    ensures objects { (lay : Layout) (m : State L Object) (early late : Past) (tag : Tags L A T) (seat : ℕ → ℕ) (alone : List (Deed L Object A T)) (k : ℕ) →
        Lawful lay (late ++ early) → Worked lay m early late tag seat alone → k < objects_of lay →
        (of_place k (weave tag late ++ alone) ≡ of_place k (weave tag late)) × ((turns_of lay k (late ++ early)).value ≡ Some (last_value (m.value k) (of_place k (weave tag late)))) }
{}

/// At each step of a round the deeds that were made before it line up. Each turn, also one without a deed, found what the last
/// of them at its object left, and the deeds that a thread has made by then are those of the items that its seat's log has by
/// then: so what the last of these left is the thread's local state.
pub fn found_law<L, A, T>()
    ensures order { (lay : Layout) (m : State L Object) (early late made : Past) (tag : Tags L A T) (seat : ℕ → ℕ) (alone : List (Deed L Object A T)) (y : ℕ × Item) →
        Lawful lay (late ++ early) → Worked lay m early late tag seat alone → Stands late made y → LinesUp m (weave tag made) }
    ensures found { (lay : Layout) (m : State L Object) (early late made : Past) (tag : Tags L A T) (seat : ℕ → ℕ) (alone : List (Deed L Object A T)) (n k i : ℕ) (found left : Object) →
        Lawful lay (late ++ early) → Worked lay m early late tag seat alone → Stands late made (n, Give k i found left) →
        last_value (m.value k) (of_place k (weave tag made)) ≡ found }
    ensures own { (made : Past) (tag : Tags L A T) (t n : ℕ) → IsSeatOfThread tag t n → of_thread t (weave tag made) ≡ first_deeds (tag n) (length (log_of n made)) }
{}

/// The items of a seat's log and the seat's steps in the past are one, in one order. What stands in a part of the past stands
/// in the whole, behind what was before the part.
pub fn items_law()
    ensures stands { (past : Past) (n j : ℕ) (x : Item) → get_elem? (log_of n past) j ≡ some x → (early : Past) × Stands past early (n, x) × (length (log_of n early) ≡ j) }
    ensures log { (past early : Past) (n : ℕ) (x : Item) → Stands past early (n, x) → get_elem? (log_of n past) (length (log_of n early)) ≡ some x }
    ensures order { (past early later : Past) (n : ℕ) (x y : Item) → Stands past early (n, x) → Stands past later (n, y) → length (log_of n early) < length (log_of n later) → length early < length later }
    ensures parts { (late early made : Past) (y : ℕ × Item) → Stands late made y → Stands (late ++ early) (made ++ early) y }
{}

/// Of deeds that drew stamps and line up, a sorted list lines up too, and has those of each thread and those at each place in
/// the same order. The turns of a machine that draws stamps drew them.
pub fn sorted_law<L, O, A, T>()
    ensures order { (local_stamp : L → ℕ) (value_stamp : O → ℕ) (m : State L O) (xs ys : List (Deed L O A T)) →
        Each (DrewStamp local_stamp value_stamp) xs → LinesUp m xs → IsSorted local_stamp ys → SameMembers xs ys →
        LinesUp m ys × ((t : ℕ) → of_thread t ys ≡ of_thread t xs) × ((k : ℕ) → of_place k ys ≡ of_place k xs) }
    ensures drew { (turn : Turn L O A T) (local_stamp : L → ℕ) (value_stamp : O → ℕ) (d : Deed L O A T) →
        Draws turn local_stamp value_stamp → IsTurn turn d → DrewStamp local_stamp value_stamp d }
{}

/// Each turn, also one without a deed, has a place in the sorted list of the round's deeds. There exactly those deeds of its
/// object stand before it that were made before it, and the last of them left what the turn found. No deed that a seat told of
/// the object before the turn is missing among them, also none of the turn's own seat.
pub fn place_law<L, A, T>()
    ensures { (lay : Layout) (local_stamp : L → ℕ) (value_stamp : Object → ℕ) (m : State L Object) (early late made : Past) (tag : Tags L A T) (seat : ℕ → ℕ) (alone listed : List (Deed L Object A T)) (n k i : ℕ) (found left : Object) →
        Lawful lay (late ++ early) → Worked lay m early late tag seat alone → Each (DrewStamp local_stamp value_stamp) (weave tag late) →
        IsSorted local_stamp listed → SameMembers (weave tag late ++ alone) listed → Stands late made (n, Give k i found left) →
        PlaceInList m tag made listed k found }
{}

/// Where no give of a part of the past lowers its object's stamp: of two turns of one object that were given back in it, the
/// one that left the lesser stamp was given back before the other was taken.
pub fn stamps_law()
    ensures { (lay : Layout) (value_stamp : Object → ℕ) (early late made later taken : Past) (k n m i j : ℕ) (f l f' l' : Object) →
        Lawful lay (late ++ early) → AllRaise value_stamp late →
        Stands late made (n, Give k i f l) → Stands late later (m, Give k j f' l') → Stands (late ++ early) taken (m, Take k j) → value_stamp l < value_stamp l' →
        length (made ++ early) < length taken }
{}

/// Each listed deed of an object has its turn in the past: its take and its give. Of two deeds of one object, the turn of the
/// first in the sorted list was given back before that of the second was taken.
pub fn given_law<L, A, T>()
    ensures turn { (lay : Layout) (m : State L Object) (early late : Past) (tag : Tags L A T) (seat : ℕ → ℕ) (alone listed : List (Deed L Object A T)) (d : Deed L Object A T) →
        Lawful lay (late ++ early) → Worked lay m early late tag seat alone → SameMembers (weave tag late ++ alone) listed → In d listed → d.call.place < objects_of lay →
        TurnOf tag early late d }
    ensures order { (lay : Layout) (local_stamp : L → ℕ) (value_stamp : Object → ℕ) (m : State L Object) (early late : Past) (tag : Tags L A T) (seat : ℕ → ℕ) (alone a b c : List (Deed L Object A T)) (d e : Deed L Object A T) →
        Lawful lay (late ++ early) → Worked lay m early late tag seat alone → Each (DrewStamp local_stamp value_stamp) (weave tag late) →
        IsSorted local_stamp (a ++ d ∷ (b ++ e ∷ c)) → SameMembers (weave tag late ++ alone) (a ++ d ∷ (b ++ e ∷ c)) → d.call.place ≡ e.call.place →
        (x : TurnOf tag early late d) (y : TurnOf tag early late e) → length (x.made ++ early) < length y.taken }
{}

/// Each load of a shadow cell obeys the load rule, where of each pair of events the first is over before the second begins.
pub fn loads_law<E>()
    ensures { (lay : Layout) (past : Past) (loads stores : E → List Touch) (pair : E → E → Bool) (first last : E → ℕ) →
        Lawful lay past → Timed past loads stores pair first last →
        (a : E) (c w p : ℕ) → In (touch c w p) (loads a) → LoadRule (among stores) (EarlierBy pair) a c w }
{}

/// A past can be cut after any number of the opening seat's items, so at the end of each round. Its early part is lawful too.
pub fn cut_law()
    ensures lawful { (lay : Layout) (late early : Past) → Lawful lay (late ++ early) → Lawful lay early }
    ensures cut { (lay : Layout) (past : Past) (m : ℕ) → Lawful lay past → m ≤ length (log_of 0 past) → CutAt past m }
{}

/// After its first deed the others of a line are a line; and what a machine that follows deeds makes of a line's first part is
/// the first part of what it makes of the line. With these, `proofs/Following` has the lemma `follows_all` over relations of
/// the caller's, which no contract can name: a machine that follows each deed from where it stands follows each line of
/// deeds, and stands after each of them.
pub fn follow_law<L, O, A, T, M, P, B, U>()
    ensures rest { (m : State L O) (d : Deed L O A T) (ds : List (Deed L O A T)) → LinesUp m (d ∷ ds) → LinesUp (left_by m d) ds }
    ensures parts { (turn : Turn M P B U) (act_of : Deed L O A T → B) (n : State M P) (xs ys : List (Deed L O A T)) →
        deeds_of turn act_of n (xs ++ ys) ≡ deeds_of turn act_of n xs ++ deeds_of turn act_of (after turn n (calls (deeds_of turn act_of n xs))) ys }
{}
