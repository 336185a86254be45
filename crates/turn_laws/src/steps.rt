// What a turn is made of, and what stands after it.

ghost use Rattle.std.specs.Prelude.{◌≡◌, ◌≢◌, ◌≤◌, ◌<◌, ℕ, ◌+◌, ◌-◌, ◌==◌, ◌||◌, true, List, [], ◌∷◌, ◌++◌, length, All, Some, None, Option};
ghost use Rattle.std.specs.List.{list_any};
ghost use Rattle.run_record.specs.declared.event.Event.{Event};
ghost use Rattle.run_record.specs.declared.entry.Entry.{Entry};
ghost use Rattle.run_record.specs.declared.entry.Check.{Check};
ghost use Rattle.run_record.specs.declared.entry.DeskNote.TheVariants.{Nothing};
ghost use Rattle.run_laws.specs.Moments.{Does, moments_in};
ghost use Rattle.run_laws.specs.Faithful.{Bare, IsMade, after, has_needy, state_after};
ghost use Rattle.run_laws.specs.Rounds.{Progress, Due, IsInRound, steps_in, steps_by};
ghost use Rattle.turn_laws.specs.Going.{AreOfEvents};
ghost use Rattle.turn_laws.specs.Turns.{Turn, GoesOn, entries_before, main_entry, entries_of, moments_before, moments_up_to, note_moment, attach_moments, leave_moments, turn_with_event, with_instruction};

/// The moments of a turn: a label is taken, the instructions begin, each event adds one, and a label is left.
pub fn moments_law()
    ensures before { (entries : List Entry) (turn : Turn) →
        moments_before entries turn ≡ moments_in turn.round turn.era entries ++ attach_moments (length entries) turn }
    ensures begin { (entries : List Entry) (turn : Turn) → turn.events ≡ [] →
        moments_up_to entries turn ≡ moments_before entries turn ++ note_moment (length (entries_before entries turn)) turn Nothing ∷ [] }
    ensures event { (entries : List Entry) (turn : Turn) (event : Event) (checks : List Check) →
        AreOfEvents (main_entry entries turn) → All (λ (c : Check). c.event ≡ length turn.events) checks →
        moments_up_to entries (turn_with_event turn event checks) ≡ moments_up_to entries turn ++ record { entry = length (entries_before entries turn); round = turn.round; item = Does turn.tid event; checks = checks } ∷ [] }
    ensures end { (entries : List Entry) (turn : Turn) →
        moments_in turn.round turn.era (entries ++ entries_of (length entries) turn) ≡ moments_up_to entries turn ++ leave_moments (length (entries_before entries turn) + 1) turn }
{}

/// An entry with one more instruction of its thread, which lives.
/// It is made by the bare machine, and needs a slot where it did or the instruction does.
pub fn instruction_law<S>()
    ensures made { (bare : Bare S) (s : S) (e : Entry) → IsMade bare s e →
        bare.lives (after bare s e.tid e.steps) e.tid ≡ true → IsMade bare s (with_instruction bare s e) }
    ensures needs { (bare : Bare S) (s : S) (e : Entry) →
        has_needy bare s (with_instruction bare s e) ≡ (has_needy bare s e || bare.needs_slot (after bare s e.tid e.steps) e.tid) }
    ensures state { (bare : Bare S) (s : S) (t n : ℕ) → after bare s t (n + 1) ≡ (bare.step (after bare s t n) t).state }
{}

/// What a next turn needs of the entries after this one.
pub fn next_turn_law<S>()
    ensures state { (bare : Bare S) (entries : List Entry) (turn : Turn) →
        state_after bare (entries ++ entries_of (length entries) turn) ≡ after bare (state_after bare entries) turn.tid turn.steps }
    ensures first { (bare : Bare S) (entries : List Entry) (t round : ℕ) →
        All (λ (e : Entry). e.round < round) entries → GoesOn bare entries t round }
    ensures goes_on { (bare : Bare S) (entries : List Entry) (turn : Turn) → GoesOn bare entries turn.tid turn.round →
        (bare.step (after bare (state_after bare entries) turn.tid (turn.steps - 1)) turn.tid).object ≢ None →
        GoesOn bare (entries ++ entries_of (length entries) turn) turn.tid turn.round }
    ensures rounds { (entries : List Entry) (turn : Turn) (round : ℕ) → All (λ (e : Entry). e.round ≤ round) entries →
        turn.round ≤ round → All (λ (e : Entry). e.round ≤ round) (entries ++ entries_of (length entries) turn) }
    ensures eras { (entries : List Entry) (turn : Turn) (era : ℕ) → All (λ (e : Entry). e.era ≤ era) entries →
        turn.era ≤ era → All (λ (e : Entry). e.era ≤ era) (entries ++ entries_of (length entries) turn) }
{}

/// The instructions of a round's entries grow by those of a turn, whose entries are of the round where it is.
pub fn part_law()
    ensures steps { (part : List Entry) (n : ℕ) (turn : Turn) →
        steps_in (part ++ entries_of n turn) ≡ steps_in part + turn.steps }
    ensures steps_of_thread { (part : List Entry) (n : ℕ) (turn : Turn) →
        steps_by turn.tid (part ++ entries_of n turn) ≡ steps_by turn.tid part + turn.steps }
    ensures in_round { (p : Progress) (ds : List Due) (n : ℕ) (turn : Turn) → turn.round ≡ p.round → turn.era ≡ p.era →
        list_any (λ (d : Due). d.tid == turn.tid) ds ≡ true → All (IsInRound p ds) (entries_of n turn) }
{}
