//! Machines whose turns each touch one thread and one place, and the order in which their turns are listed.
//!
//! A machine has threads with local states and places with values. One turn takes the local state of one thread and the value
//! of one place, and leaves new ones. Workers make turns of many threads at once, and nobody sees in which order. The
//! definitions in specs/ say what turns as they were made can tell: what each found and left, and that the turns of each
//! thread and those at each place follow on one another (`IsLineUp`). Any list with the same turns in the same order for
//! each thread and for each place has the same run, so turns may be listed by the stamps that they draw. The functions do
//! nothing: the contract of each is a law. This crate stands on std alone. The layer above cites `sorted_law` or
//! `rounds_law` of what its workers made, and `splits_law` and `meets_law` of each fold over the listed history whose value
//! it keeps by threads and places.
#![tactic(auto)]

ghost use Rattle.std.specs.Prelude.{◌≡◌, ℕ, Bool, List, ◌∷◌, ◌++◌, map};
ghost use Rattle.std.specs.List.{flat_map};
ghost use Rattle.std.specs.List.Sorted.{IsPermutation};
ghost use Rattle.turn_orders.specs.Lists.{SameMembers};
ghost use Rattle.turn_orders.specs.Machine.{State, Turn, Call, after, tells, many, acts};
ghost use Rattle.turn_orders.specs.LineUp.{Deed, calls, IsLineUp, Draws, IsSorted, Stamped, stamped, plain};
ghost use Rattle.turn_orders.specs.Rounds.{Round, AreRounds, Follows, AreStamped, last_listed, last_made, history};
ghost use Rattle.turn_orders.specs.Splits.{Splits, AllMay, Passes, Agrees, folded};

/// The turns of a line-up, sorted by stamp and thread, are a line-up. The machine that takes them in this order tells what
/// they told, and ends in the same state.
pub fn sorted_law<L, O, A, T>()
    ensures { (turn : Turn L O A T) (local_stamp : L → ℕ) (value_stamp : O → ℕ) (m : State L O) (xs ys : List (Deed L O A T)) →
        Draws turn local_stamp value_stamp → IsLineUp turn m xs → IsSorted local_stamp ys → SameMembers xs ys →
        IsLineUp turn m ys × (tells turn m (calls ys) ≡ map (λ (d : Deed L O A T). d.told) ys) × (after turn m (calls ys) ≡ after turn m (calls xs)) }
{}

/// In the run of a line-up each turn finds the local state and the value that it found as it was made.
pub fn found_law<L, O, A, T>()
    ensures { (turn : Turn L O A T) (m : State L O) (early late : List (Deed L O A T)) (d : Deed L O A T) →
        IsLineUp turn m (early ++ d ∷ late) →
        ((after turn m (calls early)).local d.call.thread ≡ d.local_found) × ((after turn m (calls early)).value d.call.place ≡ d.found) }
{}

/// The same of rounds one after another, from the first state on: the machine that takes the listed turns tells what they
/// told and ends in the same state, the whole history is sorted, and each stamp is one more than the greatest of the
/// earlier rounds, of its thread and of its place.
pub fn rounds_law<L, O, A, T, B>()
    ensures { (turn : Turn L O A T) (between : ℕ → B → State L O → State L O) (local_stamp : L → ℕ) (value_stamp : O → ℕ) (m : State L O) (rs : List (Round L O A T B)) →
        Draws turn local_stamp value_stamp → AreRounds turn between local_stamp value_stamp 0 m rs →
        Follows turn between local_stamp value_stamp m rs
        × (last_listed turn between local_stamp value_stamp m rs ≡ last_made turn between local_stamp value_stamp m rs)
        × IsSorted local_stamp (history turn between local_stamp value_stamp rs)
        × AreStamped turn between local_stamp value_stamp 0 rs }
{}

/// A fold over the calls that splits by threads and places shows after them what the machine's state shows.
pub fn splits_law<L, O, A, T, G, V, W>()
    ensures { (turn : Turn L O A T) (step : G → Call A → G) (see : ℕ → G → V) (look : ℕ → G → W) (local : L → V) (value : O → W) (may : G → Call A → Bool) (g : G) (m : State L O) (cs : List (Call A)) →
        Splits turn step see look local value (Passes may) → AllMay step (Passes may) g cs → Agrees see look local value g m →
        Agrees see look local value (folded step g cs) (after turn m cs) }
{}

/// Such a fold over the sorted list shows at each turn what the turn found as it was made: its own local state, and the
/// value that came through its place.
pub fn meets_law<L, O, A, T, G, V, W>()
    ensures { (turn : Turn L O A T) (step : G → Call A → G) (see : ℕ → G → V) (look : ℕ → G → W) (local : L → V) (value : O → W) (may : G → Call A → Bool) (local_stamp : L → ℕ) (value_stamp : O → ℕ)
        (g : G) (m : State L O) (xs early late : List (Deed L O A T)) (d : Deed L O A T) →
        Splits turn step see look local value (Passes may) → AllMay step (Passes may) g (calls early) → Draws turn local_stamp value_stamp → Agrees see look local value g m →
        IsLineUp turn m xs → IsSorted local_stamp (early ++ d ∷ late) → SameMembers xs (early ++ d ∷ late) →
        (see d.call.thread (folded step g (calls early)) ≡ local d.local_found) × (look d.call.place (folded step g (calls early)) ≡ value d.found) }
{}

/// The machine that draws stamps ends and tells as the one without.
pub fn plain_law<L, O, A, T>()
    ensures draws { (turn : Turn L O A T) → Draws (stamped turn) (λ (l : Stamped L). l.last) (λ (x : Stamped O). x.last) }
    ensures after { (turn : Turn L O A T) (m : State (Stamped L) (Stamped O)) (cs : List (Call A)) → plain (after (stamped turn) m cs) ≡ after turn (plain m) cs }
    ensures told { (turn : Turn L O A T) (m : State (Stamped L) (Stamped O)) (cs : List (Call A)) → map (λ (s : Stamped T). s.state) (tells (stamped turn) m cs) ≡ tells turn (plain m) cs }
{}

/// Turns of several acts end and tell as their acts one after another.
pub fn many_law<L, O, A, T>()
    ensures after { (turn : Turn L O A T) (m : State L O) (cs : List (Call (List A))) → after (many turn) m cs ≡ after turn m (acts cs) }
    ensures told { (turn : Turn L O A T) (m : State L O) (cs : List (Call (List A))) → flat_map (λ (told : List T). told) (tells (many turn) m cs) ≡ tells turn m (acts cs) }
{}

/// A sort gives the same members.
pub fn permuted_law<X>()
    ensures { (xs ys : List X) → IsPermutation xs ys → SameMembers xs ys }
{}
