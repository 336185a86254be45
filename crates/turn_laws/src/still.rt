// What moments leave as it was.

ghost use Rattle.std.specs.Prelude.{◌≡◌, ℕ, List, [], ◌∷◌, ◌++◌, length, All, Option, None};
ghost use Rattle.run_record.specs.declared.entry.Entry.{Entry};
ghost use Rattle.run_record.specs.declared.limits.Limits.{Limits};
ghost use Rattle.run_laws.specs.Moments.{Moment};
ghost use Rattle.run_laws.specs.Checks.{IsGrouped};
ghost use Rattle.run_laws.specs.Present.{labels_now, queue_now, clocks_now, trace_now, frames_now, locks_now, cell_now};
ghost use Rattle.turn_laws.specs.Going.{AreRightFrom, HasSpent, AreOfEvents};
ghost use Rattle.turn_laws.specs.Turns.{Turn, main_entry, moments_before, moments_up_to};
ghost use Rattle.turn_laws.specs.Still.{IsStill, OnlyPuts};

/// Where an entry begins that takes no label, or bytes are put on the output, all that stands stays.
pub fn still_law()
    ensures labels { (g : ℕ) (h : List Moment) (m : Moment) → IsStill m → labels_now g (h ++ m ∷ []) ≡ labels_now g h }
    ensures clocks { (g : ℕ) (h : List Moment) (m : Moment) → IsStill m → clocks_now g (h ++ m ∷ []) ≡ clocks_now g h }
    ensures queue { (g slots : ℕ) (h : List Moment) (m : Moment) → IsStill m → queue_now g slots (h ++ m ∷ []) ≡ queue_now g slots h }
    ensures trace { (g : ℕ) (h : List Moment) (m : Moment) (t : ℕ) → IsStill m → trace_now g (h ++ m ∷ []) t ≡ trace_now g h t }
    ensures frames { (h : List Moment) (m : Moment) (t : ℕ) → IsStill m → frames_now (h ++ m ∷ []) t ≡ frames_now h t }
    ensures locks { (h : List Moment) (m : Moment) (t : ℕ) → IsStill m → locks_now (h ++ m ∷ []) t ≡ locks_now h t }
    ensures cell { (h : List Moment) (m : Moment) (granule cell : ℕ) → IsStill m → cell_now (h ++ m ∷ []) granule cell ≡ cell_now h granule cell }
{}

/// A turn whose instructions so far only put bytes on the output is right, spends nothing and leaves all that
/// stood before them. So a label may still be taken before them.
pub fn only_puts_law()
    ensures right { (g : ℕ) (granule_of : ℕ → Option ℕ) (entries : List Entry) (turn : Turn) → OnlyPuts turn →
        AreRightFrom g granule_of (moments_up_to entries turn) (length (moments_before entries turn)) }
    ensures spent { (limits : Limits) (entries : List Entry) (turn : Turn) (t : ℕ) → OnlyPuts turn →
        HasSpent limits (moments_up_to entries turn) (length (moments_before entries turn)) t None }
    ensures grouped { (entries : List Entry) (turn : Turn) → OnlyPuts turn → IsGrouped (main_entry entries turn) }
    ensures of_events { (entries : List Entry) (turn : Turn) → OnlyPuts turn → AreOfEvents (main_entry entries turn) }
    ensures labels { (g : ℕ) (entries : List Entry) (turn : Turn) → OnlyPuts turn →
        labels_now g (moments_up_to entries turn) ≡ labels_now g (moments_before entries turn) }
    ensures clocks { (g : ℕ) (entries : List Entry) (turn : Turn) → OnlyPuts turn →
        clocks_now g (moments_up_to entries turn) ≡ clocks_now g (moments_before entries turn) }
    ensures queue { (g slots : ℕ) (entries : List Entry) (turn : Turn) → OnlyPuts turn →
        queue_now g slots (moments_up_to entries turn) ≡ queue_now g slots (moments_before entries turn) }
    ensures trace { (g : ℕ) (entries : List Entry) (turn : Turn) (t : ℕ) → OnlyPuts turn →
        trace_now g (moments_up_to entries turn) t ≡ trace_now g (moments_before entries turn) t }
    ensures frames { (entries : List Entry) (turn : Turn) (t : ℕ) → OnlyPuts turn →
        frames_now (moments_up_to entries turn) t ≡ frames_now (moments_before entries turn) t }
    ensures locks { (entries : List Entry) (turn : Turn) (t : ℕ) → OnlyPuts turn →
        locks_now (moments_up_to entries turn) t ≡ locks_now (moments_before entries turn) t }
    ensures cell { (entries : List Entry) (turn : Turn) (granule cell : ℕ) → OnlyPuts turn →
        cell_now (moments_up_to entries turn) granule cell ≡ cell_now (moments_before entries turn) granule cell }
{}
