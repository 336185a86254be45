// The stacks of a report's two accesses, as an unordered pair.
ghost use Rattle.std.specs.Prelude.{◌≡◌, IfOk};
ghost use Rattle.run_laws.specs.Reports as laws;
ghost use Rattle.report_text.specs.Pairs.{stack_hash};

use run_record::Places;
use std::alloc::{AllocError, Global};
use std::hash::{FoldHasher, Hash, Hasher};

/// The stacks of two accesses; none stands for a lost one. Pairs are equal in either order.
#[derive(Drop)]
pub struct StackPair {
    pub mine: Option<Places>,
    pub previous: Option<Places>,
}

fn same_stack(one: &Option<Places>, other: &Option<Places>) -> bool
    ensures { result ≡ laws.same_stack one.now other.now }
{
    match (one, other) {
        (None, None) => true,
        (Some(one), Some(other)) => one.as_slice() == other.as_slice(),
        _ => false,
    }
}

fn hash_of(stack: &Option<Places>) -> u64
    ensures { result ≡ stack_hash stack.now }
{
    match stack {
        None => 0,
        Some(places) => {
            let mut state = FoldHasher::default();
            places.as_slice().hash(&mut state);
            state.finish()
        }
    }
}

impl PartialEq for StackPair {
    ghost use Rattle.std.specs.Cmp.{partial_equiv_from_equiv};
    ghost use Rattle.report_text.specs.Pairs.{same_stacks, same_stacks_equiv};

    ghost eq = { same_stacks };

    ghost laws = { partial_equiv_from_equiv same_stacks_equiv };

    fn eq(&self, other: &StackPair) -> bool {
        same_stack(&self.mine, &other.mine) && same_stack(&self.previous, &other.previous)
            || same_stack(&self.mine, &other.previous) && same_stack(&self.previous, &other.mine)
    }
}

impl Eq for StackPair {
    ghost use Rattle.report_text.specs.Pairs.{same_stacks_equiv};

    ghost laws = { same_stacks_equiv };
}

// Both stacks are hashed alone, so that their order doesn't count.
impl Hash for StackPair {
    ghost use Rattle.report_text.specs.Pairs.{pair_writes, pair_writes-same};

    ghost hash_input = { pair_writes };

    ghost respects_eq = { pair_writes-same };

    fn hash<H: Hasher>(&self, state: &mut H) {
        hash_of(&self.mine)
            .wrapping_add(hash_of(&self.previous))
            .hash(state);
    }
}

/// A copy of a stack.
pub fn copied(alloc: Global, stack: &Option<Places>) -> Result<Option<Places>, AllocError>
    ensures { IfOk result (λ copy. copy ≡ stack.now) }
{
    match stack {
        None => Ok(None),
        Some(places) => {
            let mut copy = Places::new(alloc);
            copy.extend_from_slice(places.as_slice())?;
            Ok(Some(copy))
        }
    }
}
