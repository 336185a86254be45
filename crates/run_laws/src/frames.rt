// What an item leaves as it was: labels and clocks of other threads, and clocks left at other places.

ghost use Rattle.std.specs.Prelude.{◌≡◌, ◌<◌, ◌≤◌, ℕ};
ghost use Rattle.run_laws.specs.Moments.{Item};
ghost use Rattle.run_laws.specs.Labels.{labels, label_of};
ghost use Rattle.run_laws.specs.Clocks.{Spot, clocks, ChangesThread, ChangesSpot};

/// A thread's label changes by its own events and attachments alone, and where an era begins.
pub fn label_frame()
    ensures { (g : ℕ) (h : ℕ → Item) (i n u : ℕ) → i ≤ n → ((k : ℕ) → i ≤ k → k < n → ChangesThread u (h k) → ⊥) →
        label_of g h n u ≡ label_of g h i u }
{}

/// A thread's clock changes by its own events and attachments alone, and where an era begins.
pub fn thread_clock_frame()
    ensures { (g : ℕ) (h : ℕ → Item) (i n u s : ℕ) → i ≤ n →
        ((k : ℕ) → i ≤ k → k < n → ChangesThread u (h k) → ⊥) →
        (clocks g h n).thread u s ≡ (clocks g h i).thread u s }
{}

/// The clock left at a channel, for a created thread, of an ended thread, or in a slot changes by events
/// that leave a clock there or empty it alone, and where an era begins.
pub fn left_clock_frame()
    ensures { (g : ℕ) (h : ℕ → Item) (i n : ℕ) (y : Spot) (s : ℕ) → i ≤ n →
        ((k : ℕ) → i ≤ k → k < n → ChangesSpot (labels g h k) y (h k) → ⊥) →
        (clocks g h n).spot y s ≡ (clocks g h i).spot y s }
{}
