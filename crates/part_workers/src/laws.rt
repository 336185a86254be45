// What a worker's turns make of its part.
ghost use Rattle.std.specs.Prelude.{◌≡◌, ◌≤◌, ◌++◌, ℕ, List, [], Option, None};
ghost use Rattle.run_record.specs.declared.entry.Label.{Label};
ghost use Rattle.run_record.specs.declared.limits.Limits.{Limits};
ghost use Rattle.bare_machine.specs.declared.request.Request.{Request};
ghost use Rattle.bare_machine.specs.Step.{desk};
ghost use Rattle.turn_orders.specs.LineUp.{Stamped};
ghost use Rattle.race_core.specs.Watched.{Watched};
ghost use Rattle.shared_table.specs.Past.{Log};
ghost use Rattle.shared_table.specs.Steps.{Mine};
ghost use Rattle.placed_detector.specs.Standing.{Hand};
ghost use Rattle.hart_parts.specs.Parts.{Try, try_items};
ghost use Rattle.hart_steps.specs.declared.hart.Hart.{Hart};
ghost use Rattle.hart_steps.specs.Asked.{Asks};
ghost use Rattle.part_growth.specs.Growth.{Owing, nothing, needy, leave_of, owing_of, nothing_gathered, Stops};
ghost use Rattle.hart_turns.specs.declared.slots.ThreadState.{ThreadState};
ghost use Rattle.hart_turns.specs.Slots.{hand_of};
ghost use Rattle.hart_turns.specs.Makes.{hand_at};
ghost use Rattle.part_workers.specs.declared.part.Post.{Post};
ghost use Rattle.part_workers.specs.declared.part.PartSoFar.{PartSoFar};
ghost use Rattle.part_workers.specs.Parts.{gathered_in};
ghost use Rattle.part_workers.specs.Turns.{TakesAtDesk, LeavesAtDesk};
ghost use Rattle.part_workers.specs.Makes.{GathersAlone, MakesAtObject};
ghost use Rattle.part_workers.specs.Standing.{Stands, IsPaidFor, MayMake, steps_in};
ghost use Rattle.part_workers.specs.Rest.{TellsRest, HasMade};

/// A slot is taken in a turn of the desk, and an instruction that needs it is owed. A slot that was spent is left in a turn of the desk,
/// and then nothing is owed.
pub fn slots_law()
    ensures taken { (file : List ℕ) (limits : Limits) (post : Post) (before : Stamped Hand) (log new : Log) (s t : ThreadState) (p q : PartSoFar)
        (clock : List ℕ) → s.watcher.era ≡ post.era → Stands file limits post before log (hand_of s None) p nothing →
        (x : TakesAtDesk limits post s t p q clock log new) → Stands file limits post before new (hand_of t x.given) q needy }
    ensures left { (file : List ℕ) (limits : Limits) (post : Post) (before : Stamped Hand) (log new : Log) (s : ThreadState) (p q : PartSoFar)
        (label : Label) → s.watcher.era ≡ post.era → gathered_in p ≡ nothing_gathered →
        Stands file limits post before log (hand_of s None) p (leave_of label) →
        LeavesAtDesk limits post label s.watcher p q log new → Stands file limits post before new (hand_of s None) q nothing }
{}

/// An instruction without an object is gathered. One in a turn of its object is told with all that were gathered, and what is owed then is the
/// leave of the label that it spent, if any.
pub fn making_law()
    ensures gathered { (file : List ℕ) (limits : Limits) (post : Post) (before : Stamped Hand) (log new : Log) (h asked left : Hart) (w v : Watched)
        (given : Option (Option (List ℕ))) (clock : List ℕ) (r : Request) (p q : PartSoFar) (owed : Owing) (spent : Option Label) (me mine : Mine) →
        Stands file limits post before log (hand_at h w given) p owed → Asks file post.tid h asked r → MayMake file limits post h w clock given →
        IsPaidFor file post.tid (hand_at h w given) owed → me.0.log ≡ log → mine.0.log ≡ new →
        GathersAlone file limits post.tid clock r asked left w v p q me mine spent → Stands file limits post before new (hand_at left v None) q nothing }
    ensures at_object { (file : List ℕ) (limits : Limits) (post : Post) (before : Stamped Hand) (log new : Log) (h asked left : Hart) (w v : Watched)
        (given : Option (Option (List ℕ))) (clock : List ℕ) (r : Request) (p q : PartSoFar) (owed : Owing) (spent : Option Label) (k : ℕ) →
        Stands file limits post before log (hand_at h w given) p owed → Asks file post.tid h asked r → MayMake file limits post h w clock given →
        IsPaidFor file post.tid (hand_at h w given) owed → k ≤ desk →
        MakesAtObject file limits post k clock r asked left w v p q log new spent → Stands file limits post before new (hand_at left v None) q (owing_of spent) }
{}

/// Where nothing is owed, the thread has begun with what it was given and may stop, a part is made: what was gathered last has been told, and
/// the last turn of the desk, if it found no free slot, is in the log.
pub fn ends_law()
    ensures { (file : List ℕ) (limits : Limits) (post : Post) (before : Stamped Hand) (log new : Log) (now : Hand) (p q : PartSoFar) (given : ℕ)
        (tried : Option Try) → Stands file limits post before log now p nothing → TellsRest post p q → new ≡ log ++ try_items tried →
        now.given ≡ None → Stops file limits post.tid given (steps_in p) now tried → HasMade file limits post given before new tried now q }
{}

/// A part begins with what its thread had, and has told nothing.
pub fn first_law()
    ensures { (file : List ℕ) (limits : Limits) (post : Post) (before : Stamped Hand) (p : PartSoFar) → p.entries ≡ [] → p.waiting.items ≡ [] →
        gathered_in p ≡ nothing_gathered → p.last ≡ before.last → Stands file limits post before [] before.state p nothing }
{}
