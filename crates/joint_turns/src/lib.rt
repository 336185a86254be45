//! The machine with its labels and clocks, by threads and places.
//!
//! `joint_turn` is one turn of a thread at one place, as a function of what the thread keeps and of what the place has: an
//! instruction of the bare machine with its events, or a slot that is taken. It tells the items of a history. The laws say
//! that over any list of calls this machine is the bare machine with the labels and clocks of the definitions: each thread,
//! each word, the output, the end and all events are those of `bare_machine`'s steps, and labels, clocks and the queue those
//! that `run_laws` folds over the history that is told. By the laws of `turn_orders` it is so of whatever workers made in any
//! order, too, as their stamps list it (`listed_law`).
//!
//! `place_turns` has the machine and `place_clocks` the labels and clocks; both stand below this crate with what is below
//! them. Its functions do nothing: the contract of each is a law. The layer above starts with `start_law`, and cites
//! `rounds_law` of its rounds, or `listed_law` of the turns of one, `era_law` where an era begins, and `turns_law` of calls one
//! after another.
#![tactic(auto)]

ghost use Rattle.std.specs.Prelude.{◌≡◌, ℕ, ◌+◌, suc, List, length, Ok};
ghost use Rattle.elf_image.specs.File.{image_of};
ghost use Rattle.run_laws.specs.Moments.{Item, NewEra};
ghost use Rattle.bare_machine.specs.World.{World, start};
ghost use Rattle.turn_orders.specs.Lists.{Each, SameMembers};
ghost use Rattle.turn_orders.specs.Machine.{Call, State, after, tells, many, acts};
ghost use Rattle.turn_orders.specs.LineUp.{IsLineUp, IsSorted, Stamped, stamped, plain, calls};
ghost use Rattle.turn_orders.specs.Rounds.{AreRounds, last_made};
ghost use Rattle.place_clocks.specs.Holds.{StandFrom};
ghost use Rattle.joint_turns.specs.Joint.{Local, Value, Act, joint_turn, first_state, era_after};
ghost use Rattle.joint_turns.specs.Along.{IsJoint, ArePlaced, AllTell, StampedDeed, WasPlaced, told_of, items_of, world_along};
ghost use Rattle.joint_turns.specs.Rounds.{JointRound, between, AllPlaced, RoundsStand, world_after_rounds, position_after};

/// The first state is that of the bare machine's first world, before any history. As everywhere here, so many threads may
/// live at once, g is the greatest epoch, and there are so many slots.
pub fn start_law()
    ensures { (file : List ℕ) (harts g slots : ℕ) (h : ℕ → Item) → IsJoint file harts g slots (start file harts) h 0 (first_state file slots) }
{}

/// Where a state has a world and what stands at a position of a history, and calls made in it tell what stands in the
/// history from there, the state after them has the world after their steps and what stands at the position after that. Each
/// instruction tells the events of the bare machine's step.
pub fn turns_law()
    ensures state { (file : List ℕ) (harts g slots : ℕ) (w : World) (h : ℕ → Item) (n : ℕ) (m : State Local Value) (cs : List (Call Act)) →
        image_of file ≡ Ok file → IsJoint file harts g slots w h n m → ArePlaced file harts g m cs →
        let items = items_of (tells (joint_turn file harts g) m cs) in
        StandFrom h n items → IsJoint file harts g slots (world_along file w cs) h (n + length items) (after (joint_turn file harts g) m cs) }
    ensures told { (file : List ℕ) (harts g slots : ℕ) (w : World) (h : ℕ → Item) (n : ℕ) (m : State Local Value) (cs : List (Call Act)) →
        image_of file ≡ Ok file → IsJoint file harts g slots w h n m → ArePlaced file harts g m cs →
        StandFrom h n (items_of (tells (joint_turn file harts g) m cs)) →
        AllTell file w cs (tells (joint_turn file harts g) m cs) }
{}

/// Where an era begins, the machine stays, and what stands is that after it.
pub fn era_law()
    ensures { (file : List ℕ) (harts g slots : ℕ) (w : World) (h : ℕ → Item) (n : ℕ) (m : State Local Value) →
        h n ≡ NewEra → IsJoint file harts g slots w h n m → IsJoint file harts g slots w h (suc n) (era_after slots m) }
{}

/// The same of turns of several acts that workers made in any order. Where they line up from such a state, each act was
/// placed by what it found, and their list by stamp and thread tells what stands in the history, they left a state that has
/// the world after the steps as they are listed, and what stands at the position after that.
pub fn listed_law()
    ensures state { (file : List ℕ) (harts g slots : ℕ) (w : World) (h : ℕ → Item) (n : ℕ) (m : State (Stamped Local) (Stamped Value)) (xs ys : List StampedDeed) →
        image_of file ≡ Ok file → IsJoint file harts g slots w h n (plain m) →
        IsLineUp (stamped (many (joint_turn file harts g))) m xs → IsSorted (λ (l : Stamped Local). l.last) ys → SameMembers xs ys →
        Each (WasPlaced file harts g) xs → StandFrom h n (items_of (told_of ys)) →
        IsJoint file harts g slots (world_along file w (acts (calls ys))) h (n + length (items_of (told_of ys))) (plain (after (stamped (many (joint_turn file harts g))) m (calls xs))) }
    ensures told { (file : List ℕ) (harts g slots : ℕ) (w : World) (h : ℕ → Item) (n : ℕ) (m : State (Stamped Local) (Stamped Value)) (xs ys : List StampedDeed) →
        image_of file ≡ Ok file → IsJoint file harts g slots w h n (plain m) →
        IsLineUp (stamped (many (joint_turn file harts g))) m xs → IsSorted (λ (l : Stamped Local). l.last) ys → SameMembers xs ys →
        Each (WasPlaced file harts g) xs → StandFrom h n (items_of (told_of ys)) →
        AllTell file w (acts (calls ys)) (told_of ys) }
{}

/// And so of rounds one after another, with the eras that begin between them.
pub fn rounds_law()
    ensures { (file : List ℕ) (harts g slots : ℕ) (w : World) (h : ℕ → Item) (n base : ℕ) (m : State (Stamped Local) (Stamped Value)) (rs : List JointRound) →
        image_of file ≡ Ok file → IsJoint file harts g slots w h n (plain m) →
        AreRounds (stamped (many (joint_turn file harts g))) (between slots) (λ (l : Stamped Local). l.last) (λ (x : Stamped Value). x.last) base m rs →
        AllPlaced file harts g rs → RoundsStand h n rs →
        IsJoint file harts g slots (world_after_rounds file w rs) h (position_after n rs)
        (plain (last_made (stamped (many (joint_turn file harts g))) (between slots) (λ (l : Stamped Local). l.last) (λ (x : Stamped Value). x.last) m rs)) }
{}
