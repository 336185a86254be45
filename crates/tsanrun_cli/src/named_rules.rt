// Rules over the names of an executable's places.
use report_text::Suppressions;
use run_record::Places;
use suppress_rules::{Rules, first_met};
use symbol_lines::Names;

/// Rules that suppress reports by the names of an executable's places.
#[derive(Clone, Copy)]
pub struct NamedRules<'a> {
    pub rules: &'a Rules,
    pub names: &'a Names<'a>,
}

impl Suppressions for NamedRules<'_> {
    ghost use Rattle.symbol_lines.specs.Frames.{frame_in};
    ghost use Rattle.suppress_rules.specs.Stacks.{first_met, places_of};
    ghost use Rattle.suppress_rules.specs.Order.{first_met-turned};

    ghost rule_met = { λ s mine previous. first_met s.rules.now (frame_in s.names.now) (places_of mine) (places_of previous) };

    fn rule_met(&self, mine: &Option<Places>, previous: &Option<Places>) -> Option<usize> {
        first_met(self.rules, self.names, mine, previous)
    }

    ghost unordered = { λ s mine previous. first_met-turned s.rules.now (frame_in s.names.now) (places_of mine) (places_of previous) };
}
