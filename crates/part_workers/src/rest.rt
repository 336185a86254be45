// The end of a part.
ghost use Rattle.std.specs.Prelude.{IfOk};
ghost use Rattle.part_workers.specs.Rest.{TellsRest};

use crate::part::{PartSoFar, Post};
use run_record::NoMemory;
use std::alloc::Global;

/// Where a part ends, what was gathered last is told in an entry of its own, if it is anything.
pub fn tell_rest(alloc: Global, post: &Post, part: &mut PartSoFar) -> Result<(), NoMemory>
    ensures { IfOk result (λ done. TellsRest post.now part.old part.new) }
{
    if part.steps == 0 {
        return Ok(());
    }
    let stamp = part.next_stamp(0)?;
    part.tell_gathered(alloc, post, stamp)
}
