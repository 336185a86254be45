// What is told of the order of mutexes in a history.
ghost use Rattle.std.specs.Prelude.{◌≡◌, ◌++◌, IfOk, length};
ghost use Rattle.std.specs.List.{flat_map};
ghost use Rattle.run_laws.specs.Moments.{moments};
ghost use Rattle.lock_order.specs.Texts.{cycle_lines, count_line, IsLockText};

use crate::{Cycles, cycle_text, cycles, edges};
use run_record::{NoMemory, Record};
use std::alloc::Global;

/// What is told of the order of mutexes.
#[derive(Drop)]
pub struct LockText {
    /// How many cycles there are.
    pub count: usize,
    /// The text of each, and then the line that counts them.
    pub texts: Vec<Vec<u8>>,
}

/// The text of each cycle, and then the line that counts them.
fn texts_of(alloc: Global, cycles: &Cycles) -> Result<Vec<Vec<u8>>, NoMemory>
    ensures { IfOk result (λ v. flat_map (λ t. t.items) v.items
        ≡ flat_map (λ c. cycle_lines c.edges) cycles.now ++ count_line (length cycles.now)) }
{
    let mut texts = Vec::new(alloc);
    for cycle in cycles.as_slice() {
        texts.push(cycle_text(alloc, cycle)?)?;
    }
    let count = cycles.as_slice().len();
    texts.push(format!(in alloc; "locks: {count} cycles\n")?.into_bytes())?;
    Ok(texts)
}

/// The text of each cycle of a history, by rising first address, and then a line `locks: N cycles`.
pub fn lock_text(alloc: Global, history: &Record) -> Result<LockText, NoMemory>
    ensures { IfOk result (λ told. IsLockText (moments history.now.entries) told.count
        (flat_map (λ t. t.items) told.texts.items)) }
{
    let edges = edges(alloc, history)?;
    let cycles = cycles(alloc, &edges)?;
    let texts = texts_of(alloc, &cycles)?;
    Ok(LockText {
        count: cycles.as_slice().len(),
        texts,
    })
}
