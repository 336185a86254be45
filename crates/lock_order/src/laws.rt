// That a history has one text. The function has no body: its contract is the law.
ghost use Rattle.std.specs.Prelude.{◌≡◌, ℕ, List};
ghost use Rattle.run_laws.specs.Moments.{Moment};
ghost use Rattle.lock_order.specs.Texts.{IsLockText};

/// A history has one list of edges, these have one list of cycles, and so it has one text.
pub fn lock_text_law()
    ensures { (h : List Moment) (m n : ℕ) (text other : List ℕ)
        → IsLockText h m text → IsLockText h n other → (m ≡ n) × (text ≡ other) }
{}
