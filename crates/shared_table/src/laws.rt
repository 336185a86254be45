// What the rule of the table says, for whoever stands above. Each law is the contract of a function
// without a body. Its past is the one order of all steps that seats made, the newest first.
ghost use Rattle.std.specs.Prelude.{◌≡◌, ◌≢◌, ℕ, ◌+◌, ◌*◌, ◌%◌, ◌<◌, ◌≤◌, ◌++◌, ◌∷◌, [], false, true, length, slice_index, Some, None};
ghost use mathlib.Core.Option.{some};
ghost use lib.ListN.{get_elem?};
ghost use Rattle.atomic_table.specs.Table.{State};
ghost use Rattle.shared_table.specs.declared.view.Layout.{Layout};
ghost use Rattle.shared_table.specs.declared.view.View.{View};
ghost use Rattle.shared_table.specs.declared.view.Held.{Held};
ghost use Rattle.shared_table.specs.declared.view.Item.TheVariants.{Split, Join, Load, Store};
ghost use Rattle.shared_table.specs.Layouts.{objects_of, first_of};
ghost use Rattle.shared_table.specs.Past.{Slot, Log, Past, IsSoundSlot, IsCellWord, turns_of, cell_of, log_of, logs_of, IsOut, Lawful};
ghost use Rattle.shared_table.specs.Rule.{Kept, HoldsObject, word_place};
ghost use Rattle.shared_table.specs.Steps.{Told};
ghost use Rattle.shared_table.specs.Laws.{turn_list, FollowFrom, last_left, marks, InTurn, joins_of, splits_in, below, AllJoined, HasLineUp};

/// The turns of an object are numbered from 1. The first found the object's first value, and each
/// other what the one before it left; takes and gives of one object alternate; all values are sound.
pub fn turns_law()
    ensures follow { (lay : Layout) (past : Past) (k : ℕ) → Lawful lay past → FollowFrom 1 (first_of lay k) (turn_list k past) }
    ensures count { (lay : Layout) (past : Past) (k : ℕ) → Lawful lay past → length (turn_list k past) ≡ (turns_of lay k past).done }
    ensures last { (lay : Layout) (past : Past) (k : ℕ) → Lawful lay past → last_left (first_of lay k) (turn_list k past) ≡ (turns_of lay k past).value }
    ensures alternate { (lay : Layout) (past : Past) (k : ℕ) → Lawful lay past → InTurn false 1 (marks k past) }
    ensures sound { (lay : Layout) (past : Past) (k : ℕ) → IsSoundSlot lay k (first_of lay k) → Lawful lay past → IsSoundSlot lay k (turns_of lay k past).value }
{}

/// In each state of a table that its rule allows, an object's word is odd exactly while one live seat
/// has the turn, and then the turn's number is half of the next even number. No two live seats have
/// the turn of one object.
pub fn words_law()
    ensures odd { (lay : Layout) (s : State Slot View) (k : ℕ) → Kept lay s → k < objects_of lay → slice_index s.words (word_place k) % 2 ≡ 1 →
        (j : ℕ) × (v : View) × (get_elem? s.views j ≡ some v) × (v.live ≡ true) × HoldsObject k v.held }
    ensures held { (lay : Layout) (s : State Slot View) (j : ℕ) (v : View) (h : Held) → Kept lay s → get_elem? s.views j ≡ some v → v.live ≡ true → v.held ≡ Some h →
        slice_index s.words (word_place h.object) ≡ 2 * h.done + 1 }
    ensures one { (lay : Layout) (s : State Slot View) (i j : ℕ) (v w : View) (h g : Held) → Kept lay s → get_elem? s.views i ≡ some v → get_elem? s.views j ≡ some w → v.live ≡ true → w.live ≡ true →
        v.held ≡ Some h → w.held ≡ Some g → h.object ≡ g.object → i ≡ j }
{}

/// The logs have one order: the log of each joined seat is all that the past has of it, a split stands
/// before all items of the new seat, a join after all items of the seat that was joined, and each load
/// gave the word of the last store in its cell before it, or 0. Each word of a cell is one that may be
/// stored, or 0.
pub fn order_law()
    ensures logs { (lay : Layout) (past : Past) (m : ℕ) (l : Log) → Lawful lay past → get_elem? (logs_of past) m ≡ some (Some l) → l ≡ log_of m past }
    ensures splits { (lay : Layout) (late past : Past) (n m : ℕ) → Lawful lay (late ++ (n, Split m) ∷ past) → log_of m past ≡ [] }
    ensures joins { (lay : Layout) (late past : Past) (m : ℕ) (l : Log) → Lawful lay (late ++ past) → get_elem? (logs_of past) m ≡ some (Some l) → log_of m late ≡ [] }
    ensures loads { (lay : Layout) (late past : Past) (n c w : ℕ) → Lawful lay (late ++ (n, Load c w) ∷ past) → w ≡ cell_of c past }
    ensures words { (lay : Layout) (past : Past) (c : ℕ) → Lawful lay past → cell_of c past ≢ 0 → IsCellWord lay (cell_of c past) }
{}

/// Each live seat is the opening one or one that is out, its number is below the count of seats that
/// were made, and no two have one number. The opening seat's log has a split of each number that was
/// made but 0, each once and in order, and a join of each number under which it keeps a log, each once,
/// and of no other.
pub fn seats_law()
    ensures out { (lay : Layout) (s : State Slot View) (r : Kept lay s) (j : ℕ) (v : View) → get_elem? s.views j ≡ some v → v.live ≡ true → IsOut r.past v.number }
    ensures present { (lay : Layout) (s : State Slot View) (r : Kept lay s) (n : ℕ) → IsOut r.past n → (j : ℕ) × (v : View) × (get_elem? s.views j ≡ some v) × (v.live ≡ true) × (v.number ≡ n) }
    ensures apart { (lay : Layout) (s : State Slot View) (i j : ℕ) (v w : View) → Kept lay s → get_elem? s.views i ≡ some v → get_elem? s.views j ≡ some w → v.live ≡ true → w.live ≡ true → v.number ≡ w.number → i ≡ j }
    ensures logs { (lay : Layout) (s : State Slot View) (r : Kept lay s) (j : ℕ) (v : View) → get_elem? s.views j ≡ some v → v.live ≡ true → v.log ≡ log_of v.number r.past }
    ensures opening { (lay : Layout) (s : State Slot View) (r : Kept lay s) (j : ℕ) (v : View) → get_elem? s.views j ≡ some v → v.live ≡ true → v.number ≡ 0 → v.logs ≡ logs_of r.past }
    ensures below { (past : Past) (n : ℕ) → IsOut past n → n < length (logs_of past) }
    ensures splits { (lay : Layout) (past : Past) → Lawful lay past → 0 ∷ splits_in (log_of 0 past) ≡ below (length (logs_of past)) }
    ensures joined { (lay : Layout) (past : Past) (m : ℕ) (l : Log) → Lawful lay past → get_elem? (logs_of past) m ≡ some (Some l) → joins_of m (log_of 0 past) ≡ 1 }
    ensures not_joined { (lay : Layout) (past : Past) (m : ℕ) → Lawful lay past → ((l : Log) → get_elem? (logs_of past) m ≡ some (Some l) → ⊥) → joins_of m (log_of 0 past) ≡ 0 }
{}

/// What the opening seat knows where no other is out: it has all logs, they have one order, and each
/// turn in them found what the turn of its object before it left, or the object's first value.
pub fn line_up_law()
    ensures { (v : View) → Told v → AllJoined v → HasLineUp v }
{}
