// The law between clocks and order, and what it needs of slots.

ghost use Rattle.std.specs.Prelude.{◌≡◌, ◌≢◌, ℕ, ◌<◌, ◌≤◌, ◌↔◌, ◌⊎◌, List, slice_get, Some, None, true};
ghost use Rattle.run_record.specs.declared.event.Event.{Event};
ghost use Rattle.run_record.specs.declared.entry.Entry.{Entry};
ghost use Rattle.run_record.specs.declared.entry.Label.{Label};
ghost use Rattle.run_record.specs.declared.entry.DeskNote.TheVariants.{Attach};
ghost use Rattle.run_laws.specs.Moments.{Item, Does, Notes, IsBy, ErasNeverFall, moments, moment_at, items};
ghost use Rattle.run_laws.specs.HappensBefore.{HappensBefore};
ghost use Rattle.run_laws.specs.Labels.{labels, can_attach};
ghost use Rattle.run_laws.specs.SlotOrder.{SlotBefore, IsUnder};
ghost use Rattle.run_laws.specs.Clocks.{clocks, taken_from};
ghost use Rattle.run_laws.specs.DeskNotes.{TakesFront};

/// The law between clocks and order. Let a be an event of thread t that takes no clock in, as an access,
/// and let b be an event of the same era under slot s.
/// The clock of t at a has at least b's epoch at s exactly where b comes before a in slot order, or b is
/// a, or b is a later event with a's label.
/// g is the greatest epoch.
pub fn clock_law()
    ensures { (g : ℕ) (h : ℕ → Item) (a b t u s : ℕ) (v w : Event) → taken_from t v ≡ None → h a ≡ Does t v →
        h b ≡ Does u w → (labels g h b).slot_of u ≡ Some s → (labels g h b).era ≡ (labels g h a).era →
        ((labels g h b).epoch s ≤ (clocks g h a).thread t s) ↔ (SlotBefore g h b a ⊎ ((b ≡ a) ⊎ ((a < b) × ((labels g h a).slot_of t ≡ Some s) × ((labels g h a).epoch s ≡ (labels g h b).epoch s)))) }
{}

/// Where each attachment is of a thread without a slot and takes the queue's front, each takes effect.
pub fn queue_law()
    ensures { (g slots : ℕ) (h : ℕ → Item) → TakesFront g slots h → (n t : ℕ) (l : Label) →
        h n ≡ Notes t (Attach l) → can_attach (labels g h n) t l.sid ≡ true }
{}

/// What happens before comes before in slot order too.
pub fn slot_order_extends()
    ensures { (g : ℕ) (h : ℕ → Item) (i j : ℕ) → HappensBefore h i j → SlotBefore g h i j }
{}

/// The events under one slot of one era are in one line: of two of them the earlier comes before the
/// later in slot order, and the epoch doesn't fall.
/// Where their threads differ it has risen, so a label is that of one thread.
pub fn slot_law()
    ensures ordered { (g : ℕ) (h : ℕ → Item) (i j t u s : ℕ) → i < j → IsUnder g h i t s → IsUnder g h j u s →
        (labels g h i).era ≡ (labels g h j).era → SlotBefore g h i j }
    ensures rising { (g : ℕ) (h : ℕ → Item) (i j t u s : ℕ) → i < j → IsUnder g h i t s → IsUnder g h j u s →
        (labels g h i).era ≡ (labels g h j).era → (labels g h i).epoch s ≤ (labels g h j).epoch s }
    ensures one_thread { (g : ℕ) (h : ℕ → Item) (i j t u s : ℕ) → i < j → IsUnder g h i t s → IsUnder g h j u s →
        (labels g h i).era ≡ (labels g h j).era → t ≢ u → (labels g h i).epoch s < (labels g h j).epoch s }
{}

/// Where eras never fall along the history, at each moment of an entry the labels' era is the entry's.
pub fn era_law()
    ensures { (g : ℕ) (entries : List Entry) → ErasNeverFall entries → (n t : ℕ) → IsBy t (items (moments entries) n) →
        (e : Entry) × (slice_get entries (moment_at (moments entries) n).entry ≡ Some e) × (e.tid ≡ t) × (e.era ≡ (labels g (items (moments entries)) n).era) }
{}
