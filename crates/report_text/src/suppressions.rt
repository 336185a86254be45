// Which races are suppressed.
ghost use Rattle.std.specs.Prelude.{◌≡◌, ℕ, List, Option, None, refl};

use run_record::Places;

/// Rules that suppress races. A rule is met by the stacks of a race's two accesses; none stands for a lost one.
pub trait Suppressions {
    ghost rule_met: { Self → Option (List ℕ) → Option (List ℕ) → Option ℕ };

    /// The number of the first rule that the two stacks meet, if there is one.
    fn rule_met(&self, mine: &Option<Places>, previous: &Option<Places>) -> Option<usize>
        ensures { result ≡ rule_met self.now mine.now previous.now };

    /// The order of the two stacks doesn't count.
    ghost unordered: { (rules : Self) → (mine previous : Option (List ℕ)) → rule_met rules mine previous ≡ rule_met rules previous mine };
}

/// No rules.
#[derive(Clone, Copy)]
pub struct Unsuppressed;

impl Suppressions for Unsuppressed {
    ghost rule_met = { λ _ _ _. None };

    fn rule_met(&self, _mine: &Option<Places>, _previous: &Option<Places>) -> Option<usize> {
        None
    }

    ghost unordered = { λ _ _ _. refl };
}
