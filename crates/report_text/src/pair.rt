// Two code places that race, and what is written of them.
ghost use Rattle.std.specs.Prelude.{◌≡◌, ◌++◌, OnOk, IfOk, string_bytes};
ghost use Rattle.report_text.specs.Texts as texts;

use crate::texts::{warning_text, write_place};
use run_record::{Items, NoMemory, Side};
use std::alloc::Global;
use symbol_lines::Frames;

/// Two code places, the lower one first.
#[derive(Clone, Copy, Debug, PartialEq, Eq)]
pub struct Pair {
    pub low: u64,
    pub high: u64,
}

/// A list of pairs.
pub type Pairs = Items<Pair>;

/// Two code places with two accesses at them: the one that was made later, and the one that was made before it.
#[derive(Drop)]
pub struct Hybrid {
    pub pair: Pair,
    pub later: Side,
    pub earlier: Side,
}

/// A list of such pairs.
pub type Hybrids = Items<Hybrid>;

/// The line of a pair of places, the lower one first, with its newline.
pub fn pair_text<F: Frames>(alloc: Global, pair: &Pair, frames: &F) -> Result<Vec<u8>, NoMemory>
    ensures { IfOk result (λ text. text.items ≡ texts.pair_bytes (F.frame_of frames.now) pair.now) }
{
    let mut text = String::from_str(alloc, "race: ")?;
    write_place(&mut text, pair.low, frames.frame(pair.low))?;
    text.push_str(" / ")?;
    write_place(&mut text, pair.high, frames.frame(pair.high))?;
    text.push_str("\n")?;
    Ok(text.into_bytes())
}

/// A warning of the two accesses, the later one first. Its lines each end with a newline.
pub fn hybrid_text<F: Frames>(
    alloc: Global,
    hybrid: &Hybrid,
    frames: &F,
) -> Result<Vec<u8>, NoMemory>
    ensures { IfOk result (λ text. text.items ≡ texts.hybrid_bytes (F.frame_of frames.now) hybrid.now) }
{
    warning_text(
        alloc,
        "tsanrun: unordered without locks",
        &hybrid.later,
        &hybrid.earlier,
        frames,
    )
}
