// That a history has one text of its racing pairs. The function has no body: its contract is the law.
ghost use Rattle.std.specs.Prelude.{◌≡◌, ℕ, List, Option};
ghost use Rattle.run_record.specs.declared.entry.Entry.{Entry};
ghost use Rattle.symbol_lines.specs.FrameTexts.{FrameText};
ghost use Rattle.offline_audit.specs.Texts.{IsPairText};

/// A history has one list of racing pairs, and so it has one text.
pub fn pair_text_law()
    ensures { (granule_of : ℕ → Option ℕ) (frame_of : ℕ → FrameText) (entries : List Entry) (m n : ℕ) (text other : List ℕ)
        → IsPairText granule_of frame_of entries m text → IsPairText granule_of frame_of entries n other
        → (m ≡ n) × (text ≡ other) }
{}
