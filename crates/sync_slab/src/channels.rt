// What each call does to the channels that the set keeps.

ghost use Rattle.std.specs.Prelude.{◌≡◌, ◌+◌, ℕ, Bool, true, false, List, [], length};
ghost use Rattle.run_record.specs.declared.event.Event.{Event};
ghost use Rattle.run_record.specs.declared.event.Event.TheVariants.{Acquire, Release, Destroy, Clear};
ghost use Rattle.run_record.specs.declared.event.Part.{Part};
ghost use Rattle.run_record.specs.declared.event.Part.TheVariants.{Main};
ghost use Rattle.run_record.specs.declared.entry.DeskNote.{DeskNote};
ghost use Rattle.run_laws.specs.Moments.{Notes, NewEra};
ghost use Rattle.run_laws.specs.Labels.{Labels};
ghost use Rattle.run_laws.specs.Clocks.{Clocks, event_clocks, next_clocks, no_clocks};
ghost use Rattle.vector_clock.specs.Clocks.{joined};
ghost use Rattle.sync_slab.specs.Objects.{SyncObjects, AreObjects, clock_in, Puts, Ends, Removes};
ghost use Rattle.sync_slab.specs.Channels.{IsClock, KeepsChannels, IsElsewhere};

/// An empty set keeps the channels before anything was left at them.
pub fn empty_law()
    ensures { (covers : ℕ → Bool) (era : ℕ) (set : SyncObjects) → set.objects ≡ [] → KeepsChannels covers era no_clocks set }
{}

/// Room changes nothing.
pub fn reserve_law()
    ensures { (covers : ℕ → Bool) (era : ℕ) (k : Clocks) (set : SyncObjects) (spare : ℕ) → KeepsChannels covers era k set → KeepsChannels covers era k (record set { spare = spare }) }
{}

/// What `acquire` makes of the thread's clock is what an Acquire makes of it.
pub fn acquire_law()
    ensures { (g : ℕ) (l : Labels) (covers : ℕ → Bool) (era t addr : ℕ) (part : Part) (k : Clocks) (set : SyncObjects) (clock : List ℕ) →
        KeepsChannels covers era k set → covers addr ≡ true → length clock ≡ set.slots → IsClock clock (k.thread t) →
        IsClock (joined clock (clock_in set era addr part)) ((event_clocks g l k t (Acquire addr part)).thread t) }
{}

/// After `release_join` the set keeps the channels as a joining Release leaves them, and after `release_store` as a replacing one does.
pub fn release_law()
    ensures joins { (g : ℕ) (l : Labels) (covers : ℕ → Bool) (era t addr : ℕ) (part : Part) (k : Clocks) (old new : SyncObjects) (clock : List ℕ) →
        KeepsChannels covers era k old → length clock ≡ old.slots → IsClock clock (k.thread t) →
        Puts old new (record { addr = addr; part = part; era = era; clock = joined (clock_in old era addr part) clock }) → AreObjects new →
        KeepsChannels covers era (event_clocks g l k t (Release addr part false)) new }
    ensures replaces { (g : ℕ) (l : Labels) (covers : ℕ → Bool) (era t addr : ℕ) (part : Part) (k : Clocks) (old new : SyncObjects) (clock : List ℕ) →
        KeepsChannels covers era k old → IsClock clock (k.thread t) →
        Puts old new (record { addr = addr; part = part; era = era; clock = clock }) → AreObjects new →
        KeepsChannels covers era (event_clocks g l k t (Release addr part true)) new }
{}

/// After `destroy` the set keeps the channels as a Destroy leaves them.
pub fn destroy_law()
    ensures { (g : ℕ) (l : Labels) (covers : ℕ → Bool) (era t addr : ℕ) (k : Clocks) (old new : SyncObjects) →
        KeepsChannels covers era k old → Ends old new addr → AreObjects new → KeepsChannels covers era (event_clocks g l k t (Destroy addr)) new }
{}

/// After `clear` the set keeps the channels as a Clear leaves them.
pub fn clear_law()
    ensures { (g : ℕ) (l : Labels) (covers : ℕ → Bool) (era t addr : ℕ) (k : Clocks) (old new : SyncObjects) →
        KeepsChannels covers era k old → Removes old new addr Main → AreObjects new →
        KeepsChannels covers era (event_clocks g l k t (Clear addr)) new }
{}

/// The set that keeps the channels goes on to keep them with no call where an event isn't a Release, a Clear or a
/// Destroy of an address that it covers, at a note, and where an era begins.
pub fn rest_law()
    ensures event { (g : ℕ) (l : Labels) (covers : ℕ → Bool) (era t : ℕ) (e : Event) (k : Clocks) (set : SyncObjects) →
        IsElsewhere covers e → KeepsChannels covers era k set → KeepsChannels covers era (event_clocks g l k t e) set }
    ensures note { (g : ℕ) (l : Labels) (covers : ℕ → Bool) (era t : ℕ) (note : DeskNote) (k : Clocks) (set : SyncObjects) →
        KeepsChannels covers era k set → KeepsChannels covers era (next_clocks g l k (Notes t note)) set }
    ensures new_era { (g : ℕ) (l : Labels) (covers : ℕ → Bool) (era : ℕ) (k : Clocks) (set : SyncObjects) →
        KeepsChannels covers era k set → KeepsChannels covers (era + 1) (next_clocks g l k NewEra) set }
{}
