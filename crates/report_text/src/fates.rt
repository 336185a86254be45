// What became of the first race with each pair of stacks.
ghost use Rattle.std.specs.Prelude.{◌≡◌, [], ◌∷◌, ◌++◌, ◌<◌, None};
ghost use Rattle.indexmap.specs.IndexMap as map;
ghost use Rattle.report_text.specs.Pairs.{same_stacks};

use crate::stack_pair::StackPair;
use indexmap::IndexMap;

/// What became of the first race with a pair of stacks.
#[derive(Clone, Copy, Debug, PartialEq, Eq)]
pub enum Fate {
    /// The two stacks meet the rule of this number first.
    Met(usize),
    /// They meet none: it is the report of this number, from 1.
    Told(u32),
}

/// The pairs of stacks of all races so far, with what became of the first one.
pub type Fates = IndexMap<StackPair, Fate>;

/// What became of the first race with the same two stacks, in either order, if there was one.
pub fn fate_of(fates: &Fates, stacks: &StackPair) -> Option<Fate>
    ensures { result ≡ map.get same_stacks fates.now stacks.now }
{
    fates.get(stacks).copied()
}

/// Adds a pair that isn't there, for which there is room.
pub fn add_fate(fates: &mut Fates, stacks: StackPair, fate: Fate)
    requires room { 0 < map.spare fates.old }
    requires absent { map.get same_stacks fates.old stacks ≡ None }
    ensures { fates.new.entries ≡ fates.old.entries ++ (stacks, fate) ∷ [] }
{
    fates.insert(stacks, fate).unwrap();
}
