//! The machine with all that a run keeps of each thread: labels and clocks, stacks, locks and traces, and the checks of accesses.
//!
//! `watched_turn` is one turn of a thread at one place, as a function of what the thread keeps, of what the place has and of
//! the words that its checks load from the shadow cells. It tells the items of a history with their checks, and which loaded
//! word races by the thread's clock. The laws say that over any list of calls this machine is the bare machine with the labels,
//! clocks, stacks, locks and traces of the definitions, and that the checks and the racing words are those that the definitions
//! ask for, whatever the cells gave: so the rule of what may be loaded stays apart. By the laws of `turn_orders` it is so of
//! whatever workers made in any order, too, as their stamps list it (`listed_law`).
//!
//! `joint_turns` stands below this crate, with what is below it: this machine is that one with what each thread keeps of its
//! own events. Its functions do nothing: the contract of each is a law. The layer above starts with `start_law`, and cites
//! `rounds_law` of its rounds, or `listed_law` of the turns of one, `era_law` where an era begins, and `turns_law` of calls one
//! after another.
#![tactic(auto)]

ghost use Rattle.std.specs.Prelude.{◌≡◌, ℕ, ◌+◌, suc, List, length, map, Ok};
ghost use Rattle.elf_image.specs.File.{image_of};
ghost use Rattle.run_laws.specs.Moments.{Item, Moment, NewEra, items};
ghost use Rattle.bare_machine.specs.World.{World, start};
ghost use Rattle.turn_orders.specs.Lists.{Each, SameMembers};
ghost use Rattle.turn_orders.specs.Machine.{Call, State, after, tells, many, acts};
ghost use Rattle.turn_orders.specs.LineUp.{IsLineUp, IsSorted, Stamped, stamped, plain, calls};
ghost use Rattle.turn_orders.specs.Rounds.{AreRounds, last_made};
ghost use Rattle.joint_turns.specs.Joint.{Value};
ghost use Rattle.joint_turns.specs.Along.{AllTell};
ghost use Rattle.joint_turns.specs.Joint as joint;
ghost use Rattle.watched_turns.specs.Turns.{Local, Act, Told, events_of, steps, watched_turn, joint_call, first_state, era_after};
ghost use Rattle.watched_turns.specs.Checking.{Loads};
ghost use Rattle.watched_turns.specs.Right.{AreEvents};
ghost use Rattle.watched_turns.specs.Along.{IsWatched, ArePlaced, StandFrom, AreRight, StampedDeed, WasPlaced, told_of, all_of, items_told, world_after};
ghost use Rattle.watched_turns.specs.Rounds.{WatchedRound, between, AllPlaced, RoundsStand, RoundsAreRight, world_after_rounds, position_after};

/// The first state is that of the bare machine's first world, before any history. As everywhere here, so many threads may
/// live at once, g is the greatest epoch, and there are so many slots.
pub fn start_law()
    ensures { (file : List ℕ) (harts g slots : ℕ) (h : List Moment) → IsWatched file harts g slots (start file harts) h 0 (first_state file slots) }
{}

/// Where a state has a world and what stands at a position of a history, and calls made in it tell what stands in the
/// history from there, the state after them has the world after their steps and what stands at the position after that. Each
/// instruction tells the events of the bare machine's step; and each access has its checks, which store by the rule, and of
/// whose loaded words the first that races by the clock is told.
pub fn turns_law()
    ensures state { (file : List ℕ) (harts g slots : ℕ) (w : World) (h : List Moment) (n : ℕ) (m : State Local Value) (cs : List (Call Act)) →
        image_of file ≡ Ok file → IsWatched file harts g slots w h n m → ArePlaced file harts g m cs →
        let told = all_of (tells (watched_turn file harts g) m cs) in
        StandFrom h n told → IsWatched file harts g slots (world_after file w cs) h (n + length told) (after (watched_turn file harts g) m cs) }
    ensures told { (file : List ℕ) (harts g slots : ℕ) (w : World) (h : List Moment) (n : ℕ) (m : State Local Value) (cs : List (Call Act)) →
        image_of file ≡ Ok file → IsWatched file harts g slots w h n m → ArePlaced file harts g m cs →
        StandFrom h n (all_of (tells (watched_turn file harts g) m cs)) →
        AllTell file w (map joint_call cs) (items_told (tells (watched_turn file harts g) m cs)) }
    ensures right { (file : List ℕ) (harts g slots : ℕ) (w : World) (h : List Moment) (n : ℕ) (m : State Local Value) (cs : List (Call Act)) →
        image_of file ≡ Ok file → IsWatched file harts g slots w h n m → ArePlaced file harts g m cs →
        let told = all_of (tells (watched_turn file harts g) m cs) in
        StandFrom h n told → AreRight file g h n told }
{}

/// The other way round: where the moments of a history from a position on are the events of the thread's next instruction,
/// with the checks that the definitions ask for, they are what the turn tells by the words that these checks loaded. So who
/// has a history and makes the checks by other means need not run this machine beside it to know what it tells.
pub fn told_law()
    ensures { (file : List ℕ) (harts g slots : ℕ) (w : World) (h : List Moment) (n : ℕ) (m : State Local Value) (t k : ℕ) (loads : Loads) →
        image_of file ≡ Ok file → IsWatched file harts g slots w h n m → joint.IsPlaced file (m.local t).joint (m.value k) t k joint.steps →
        AreEvents file g h t loads n 0 (events_of file harts t (m.local t).joint (m.value k)) →
        StandFrom h n (watched_turn file harts g t (steps loads) (m.local t) (m.value k)).told }
{}

/// Where an era begins, the machine stays, and what stands is that after it.
pub fn era_law()
    ensures { (file : List ℕ) (harts g slots : ℕ) (w : World) (h : List Moment) (n : ℕ) (m : State Local Value) →
        items h n ≡ NewEra → IsWatched file harts g slots w h n m → IsWatched file harts g slots w h (suc n) (era_after slots m) }
{}

/// The same of turns of several acts that workers made in any order. Where they line up from such a state, each act was
/// placed by what it found, and their list by stamp and thread tells what stands in the history, they left a state that has
/// the world after the steps as they are listed, and what stands at the position after that.
pub fn listed_law()
    ensures state { (file : List ℕ) (harts g slots : ℕ) (w : World) (h : List Moment) (n : ℕ) (m : State (Stamped Local) (Stamped Value)) (xs ys : List StampedDeed) →
        image_of file ≡ Ok file → IsWatched file harts g slots w h n (plain m) →
        IsLineUp (stamped (many (watched_turn file harts g))) m xs → IsSorted (λ (l : Stamped Local). l.last) ys → SameMembers xs ys →
        Each (WasPlaced file harts g) xs → StandFrom h n (all_of (told_of ys)) →
        IsWatched file harts g slots (world_after file w (acts (calls ys))) h (n + length (all_of (told_of ys))) (plain (after (stamped (many (watched_turn file harts g))) m (calls xs))) }
    ensures told { (file : List ℕ) (harts g slots : ℕ) (w : World) (h : List Moment) (n : ℕ) (m : State (Stamped Local) (Stamped Value)) (xs ys : List StampedDeed) →
        image_of file ≡ Ok file → IsWatched file harts g slots w h n (plain m) →
        IsLineUp (stamped (many (watched_turn file harts g))) m xs → IsSorted (λ (l : Stamped Local). l.last) ys → SameMembers xs ys →
        Each (WasPlaced file harts g) xs → StandFrom h n (all_of (told_of ys)) →
        AllTell file w (map joint_call (acts (calls ys))) (items_told (told_of ys)) }
    ensures right { (file : List ℕ) (harts g slots : ℕ) (w : World) (h : List Moment) (n : ℕ) (m : State (Stamped Local) (Stamped Value)) (xs ys : List StampedDeed) →
        image_of file ≡ Ok file → IsWatched file harts g slots w h n (plain m) →
        IsLineUp (stamped (many (watched_turn file harts g))) m xs → IsSorted (λ (l : Stamped Local). l.last) ys → SameMembers xs ys →
        Each (WasPlaced file harts g) xs → StandFrom h n (all_of (told_of ys)) →
        AreRight file g h n (all_of (told_of ys)) }
{}

/// And so of rounds one after another, with the eras that begin between them.
pub fn rounds_law()
    ensures state { (file : List ℕ) (harts g slots : ℕ) (w : World) (h : List Moment) (n base : ℕ) (m : State (Stamped Local) (Stamped Value)) (rs : List WatchedRound) →
        image_of file ≡ Ok file → IsWatched file harts g slots w h n (plain m) →
        AreRounds (stamped (many (watched_turn file harts g))) (between slots) (λ (l : Stamped Local). l.last) (λ (x : Stamped Value). x.last) base m rs →
        AllPlaced file harts g rs → RoundsStand h n rs →
        IsWatched file harts g slots (world_after_rounds file w rs) h (position_after n rs)
        (plain (last_made (stamped (many (watched_turn file harts g))) (between slots) (λ (l : Stamped Local). l.last) (λ (x : Stamped Value). x.last) m rs)) }
    ensures right { (file : List ℕ) (harts g slots : ℕ) (w : World) (h : List Moment) (n base : ℕ) (m : State (Stamped Local) (Stamped Value)) (rs : List WatchedRound) →
        image_of file ≡ Ok file → IsWatched file harts g slots w h n (plain m) →
        AreRounds (stamped (many (watched_turn file harts g))) (between slots) (λ (l : Stamped Local). l.last) (λ (x : Stamped Value). x.last) base m rs →
        AllPlaced file harts g rs → RoundsStand h n rs →
        RoundsAreRight file g h n rs }
{}
