//! Labels and clocks by threads and places: one turn of a thread touches its own label and clock, and what one place keeps.
//!
//! A place is one of the 64 stripes of memory, which has the clocks of its addresses' channels, or the desk, which has the
//! queue of free slots and the clocks that are left for other threads. `clock_turn` makes one event of a thread there, or
//! attaches the thread to a slot, and tells it as an item of a history. The laws say that the fold of these turns has the
//! labels, the clocks and the queue that `run_laws` folds over the history of what they told. So any list with the same turns
//! in the same order for each thread and for each place has the same ones, by the laws of `turn_orders`.
//!
//! `run_laws`, `bare_machine`, for the numbers of places, and `turn_orders` stand below this crate. Its functions do nothing:
//! the contract of each is a law. The layer above starts with `start_law`, and cites `turns_law` of each round, `era_law`
//! where an era begins, and `attach_law` and `label_law` of the labels.
#![tactic(auto)]

ghost use Rattle.std.specs.Prelude.{◌≡◌, ◌⊎◌, ℕ, ◌+◌, suc, List, length, None};
ghost use Rattle.std.specs.List.{flat_map};
ghost use Rattle.run_laws.specs.Moments.{Item, NewEra};
ghost use Rattle.run_laws.specs.Labels.{label_of};
ghost use Rattle.bare_machine.specs.Step.{desk};
ghost use Rattle.turn_orders.specs.Machine.{Call, State, after, tells};
ghost use Rattle.place_clocks.specs.Places.{Own, Value};
ghost use Rattle.place_clocks.specs.Turns.{Act, attaches, clock_turn, era_after, first_state};
ghost use Rattle.place_clocks.specs.Holds.{HasClocks, whole_at, AllMay, StandFrom, IsAttachment, FindsNone};

/// The first state has the labels, the clocks and the queue that stand before any history. As everywhere here, g is the
/// greatest epoch.
pub fn start_law()
    ensures { (g slots : ℕ) (h : ℕ → Item) → HasClocks (whole_at g slots h 0) (first_state slots) }
{}

/// Where a state has those of a position, and turns made in it tell what stands in the history from there, the state after
/// them has those of the position after that.
pub fn turns_law()
    ensures { (g slots : ℕ) (h : ℕ → Item) (n : ℕ) (m : State Own Value) (cs : List (Call Act)) →
        HasClocks (whole_at g slots h n) m → AllMay g m cs →
        let told = flat_map (λ (items : List Item). items) (tells (clock_turn g) m cs) in
        StandFrom h n told → HasClocks (whole_at g slots h (n + length told)) (after (clock_turn g) m cs) }
{}

/// The same where an era begins.
pub fn era_law()
    ensures { (g slots : ℕ) (h : ℕ → Item) (n : ℕ) (m : State Own Value) →
        h n ≡ NewEra → HasClocks (whole_at g slots h n) m → HasClocks (whole_at g slots h (suc n)) (era_after slots m) }
{}

/// A thread without a label that attaches tells the label that histories ask for, and nothing exactly where the queue is
/// empty.
pub fn attach_law()
    ensures { (g slots : ℕ) (h : ℕ → Item) (n : ℕ) (m : State Own Value) (t : ℕ) →
        HasClocks (whole_at g slots h n) m → (m.local t).label ≡ None →
        let told = (clock_turn g t attaches (m.local t) (m.value desk)).told in
        FindsNone g slots h n told ⊎ IsAttachment g slots h n t told }
{}

/// The label that a thread keeps is the one that it has in the history.
pub fn label_law()
    ensures { (g slots : ℕ) (h : ℕ → Item) (n : ℕ) (m : State Own Value) (t : ℕ) →
        HasClocks (whole_at g slots h n) m → (m.local t).label ≡ label_of g h n t }
{}
