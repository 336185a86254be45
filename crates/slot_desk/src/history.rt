// What a desk has to do with a history: the laws by which each call goes with an item of it.
//
// In all of them g is the greatest epoch and n the number of slots, h a history, and i a position
// of it. `IsDeskAt g n h i d` says that d is the desk before position i.
ghost use Rattle.std.specs.Prelude.{◌≡◌, ◌<◌, ◌≤◌, ℕ, zero, suc, max, true, Some, None, List, ◌∷◌, length, slice_index};
ghost use Rattle.run_record.specs.declared.event.Event.{Event};
ghost use Rattle.run_record.specs.declared.event.Event.TheVariants.{Create, End};
ghost use Rattle.run_record.specs.declared.entry.Label.{Label};
ghost use Rattle.run_record.specs.declared.entry.DeskNote.TheVariants.{Nothing, Attach, Leave};
ghost use Rattle.run_record.specs.declared.limits.Limits.{Limits};
ghost use Rattle.run_laws.specs.Moments.{Item, Does, Notes, NewEra};
ghost use Rattle.run_laws.specs.Labels.{labels};
ghost use Rattle.run_laws.specs.Clocks.{clocks, Given, Ended, Of};
ghost use Rattle.slot_desk.specs.declared.answers.Attached.TheVariants.{Slot};
ghost use Rattle.slot_desk.specs.declared.answers.Created.TheVariants.{Thread};
ghost use Rattle.slot_desk.specs.declared.answers.Joined.TheVariants.{Done};
ghost use Rattle.slot_desk.specs.Desks.{DeskContents, slot_of, thread_of, held_of, owner_at};
ghost use Rattle.slot_desk.specs.Steps.{new_desk, attached, after_attach, clock_after_attach, after_detach, joined_told, created, after_create, after_end, join_answer, clock_after_join, after_reset};
ghost use Rattle.slot_desk.specs.History.{Tells, IsDeskAt};

/// The new desk is that of a history before its first item.
pub fn first_law()
    ensures { (limits : Limits) (h : ℕ → Item) → IsDeskAt limits.epochs limits.slots h zero (new_desk limits) }
{}

/// What a desk is depends on the items before the position alone.
pub fn earlier_law()
    ensures { (g n : ℕ) (h k : ℕ → Item) (i : ℕ) (d : DeskContents) → ((j : ℕ) → j < i → h j ≡ k j) → IsDeskAt g n h i d → IsDeskAt g n k i d }
{}

/// The call `attach` goes with the note of the attachment, which has the queue's front. Its answer is the thread's label, and the thread's clock is as it is after the note.
pub fn attach_law()
    ensures desk { (g n : ℕ) (h : ℕ → Item) (i : ℕ) (d : DeskContents) (t : ℕ) (label : Label) (rest : List ℕ) →
        IsDeskAt g n h i d → h i ≡ Notes t (Attach label) → held_of d t ≡ None → d.queue ≡ label.sid ∷ rest → IsDeskAt g n h (suc i) (after_attach d t) }
    ensures label { (g n : ℕ) (h : ℕ → Item) (i : ℕ) (d : DeskContents) (t : ℕ) (label : Label) (rest : List ℕ) →
        IsDeskAt g n h i d → h i ≡ Notes t (Attach label) → held_of d t ≡ None → d.queue ≡ label.sid ∷ rest →
        ((labels g h (suc i)).slot_of t ≡ Some label.sid) × (attached d ≡ Slot label.sid ((labels g h (suc i)).epoch label.sid)) }
    ensures clock { (g n : ℕ) (h : ℕ → Item) (i : ℕ) (d : DeskContents) (t : ℕ) (label : Label) (rest clock : List ℕ) →
        IsDeskAt g n h i d → h i ≡ Notes t (Attach label) → held_of d t ≡ None → d.queue ≡ label.sid ∷ rest →
        length clock ≡ n → Tells n clock ((clocks g h i).thread t) → Tells n (clock_after_attach d clock) ((clocks g h (suc i)).thread t) }
{}

/// The call `detach` goes with the note of leaving. The label was lost before, by the event at the greatest epoch.
pub fn leave_law()
    ensures { (g n : ℕ) (h : ℕ → Item) (i : ℕ) (d : DeskContents) (t : ℕ) (label : Label) →
        IsDeskAt g n h i d → h i ≡ Notes t (Leave label) → (labels g h i).slot_of t ≡ None → IsDeskAt g n h (suc i) (after_detach d t) }
{}

/// The call `create` goes with the event of a creation, where the clock that it is given is the thread's.
pub fn create_law()
    ensures { (g n : ℕ) (h : ℕ → Item) (i : ℕ) (d : DeskContents) (t : ℕ) (clock : List ℕ) →
        IsDeskAt g n h i d → h i ≡ Does t (Create d.made) → created d ≡ Thread d.made → length clock ≡ n → Tells n clock ((clocks g h i).thread t) → IsDeskAt g n h (suc i) (after_create d clock) }
{}

/// The call `end` goes with the event of an end, where the clock that it is given is the thread's and has the label's epoch.
pub fn end_law()
    ensures { (g n : ℕ) (h : ℕ → Item) (i : ℕ) (d : DeskContents) (t sid : ℕ) (clock : List ℕ) →
        IsDeskAt g n h i d → h i ≡ Does t End → (thread_of d t).lives ≡ true → (labels g h i).slot_of t ≡ Some sid → slice_index clock sid ≡ (labels g h i).epoch sid → (labels g h i).epoch sid ≤ g →
        length clock ≡ n → Tells n clock ((clocks g h i).thread t) → IsDeskAt g n h (suc i) (after_end d t clock) }
{}

/// The call `reset` goes with the beginning of an era.
pub fn era_law()
    ensures { (g n : ℕ) (h : ℕ → Item) (i : ℕ) (d : DeskContents) → IsDeskAt g n h i d → h i ≡ NewEra → IsDeskAt g n h (suc i) (after_reset d) }
{}

/// Every other event, and the note of an entry that has none, leaves the desk as it was.
pub fn stay_law()
    ensures event { (g n : ℕ) (h : ℕ → Item) (i : ℕ) (d : DeskContents) (t : ℕ) (event : Event) →
        IsDeskAt g n h i d → h i ≡ Does t event → (event ≡ End → ⊥) → ((child : ℕ) → event ≡ Create child → ⊥) → IsDeskAt g n h (suc i) d }
    ensures note { (g n : ℕ) (h : ℕ → Item) (i : ℕ) (d : DeskContents) (t : ℕ) → IsDeskAt g n h i d → h i ≡ Notes t Nothing → IsDeskAt g n h (suc i) d }
{}

/// By `begin` a clock takes in what was given to the thread at its creation, and by `join_thread` what a thread left at its end.
pub fn told_law()
    ensures begun { (g n : ℕ) (h : ℕ → Item) (i : ℕ) (d : DeskContents) (t : ℕ) (clock : List ℕ) (known : ℕ → ℕ) →
        IsDeskAt g n h i d → (thread_of d t).lives ≡ true → length clock ≡ n → Tells n clock known →
        Tells n (joined_told clock (thread_of d t).told) (λ r. max (known r) ((clocks g h i).spot (Of (Given t)) r)) }
    ensures joined { (g n : ℕ) (h : ℕ → Item) (i : ℕ) (d : DeskContents) (ended : ℕ) (clock : List ℕ) (known : ℕ → ℕ) →
        IsDeskAt g n h i d → join_answer d ended ≡ Done → length clock ≡ n → Tells n clock known →
        Tells n (clock_after_join d ended clock) (λ r. max (known r) ((clocks g h i).spot (Of (Ended ended)) r)) }
{}

/// A thread with a label holds its slot at the desk, since an epoch that is no later than the label's.
pub fn held_law()
    ensures { (g n : ℕ) (h : ℕ → Item) (i : ℕ) (d : DeskContents) (t sid : ℕ) → IsDeskAt g n h i d → (labels g h i).slot_of t ≡ Some sid →
        (sid < n) × ((since : ℕ) × (held_of d t ≡ Some (sid, since)) × (since ≤ (labels g h i).epoch sid)) }
{}

/// The call `owner_of` names the thread of each event that was made in this era, by the slot and the epoch of its label.
pub fn owner_law()
    ensures { (g n : ℕ) (h : ℕ → Item) (i : ℕ) (d : DeskContents) (j t sid : ℕ) (event : Event) →
        IsDeskAt g n h i d → j < i → h j ≡ Does t event → (labels g h j).slot_of t ≡ Some sid → (labels g h j).era ≡ (labels g h i).era →
        owner_at (slot_of d sid).journal ((labels g h j).epoch sid) ≡ Some t }
{}
