// What is told of the racing pairs of a history.
ghost use Rattle.std.specs.Prelude.{◌≡◌, ◌++◌, IfOk, length};
ghost use Rattle.std.specs.List.{flat_map};
ghost use Rattle.elf_image.specs.File.{granule_of};
ghost use Rattle.report_text.specs.Texts.{pair_bytes};
ghost use Rattle.offline_audit.specs.Texts.{count_line, IsPairText};

use crate::order::Order;
use crate::races::pairs;
use elf_image::Image;
use report_text::{Pairs, pair_text};
use run_record::{NoMemory, Record};
use std::alloc::Global;
use symbol_lines::Frames;

/// What is told of the racing pairs of a history.
#[derive(Drop)]
pub struct PairTexts {
    /// How many pairs there are.
    pub count: usize,
    /// The text of each, and then the line that counts them.
    pub texts: Vec<Vec<u8>>,
}

/// The text of each pair, and then the line that counts them.
fn texts_of<F: Frames>(alloc: Global, pairs: &Pairs, frames: &F) -> Result<Vec<Vec<u8>>, NoMemory>
    ensures { IfOk result (λ v. flat_map (λ t. t.items) v.items
        ≡ flat_map (pair_bytes (F.frame_of frames.now)) pairs.now ++ count_line (length pairs.now)) }
{
    let mut texts = Vec::new(alloc);
    for pair in pairs.as_slice() {
        texts.push(pair_text(alloc, pair, frames)?)?;
    }
    let count = pairs.as_slice().len();
    texts.push(format!(in alloc; "audit: {count} pairs\n")?.into_bytes())?;
    Ok(texts)
}

/// The text of each pair of code places that race in the history, by rising low, then high, and then a line
/// `audit: N pairs`.
pub fn pair_texts<F: Frames>(
    alloc: Global,
    image: &Image,
    history: &Record,
    frames: &F,
) -> Result<PairTexts, NoMemory>
    ensures { IfOk result (λ told. IsPairText (granule_of image.now) (F.frame_of frames.now) history.now.entries told.count
        (flat_map (λ t. t.items) told.texts.items)) }
{
    let order = Order::new(alloc, history)?;
    let pairs = pairs(alloc, image, history, &order)?;
    let texts = texts_of(alloc, &pairs, frames)?;
    Ok(PairTexts {
        count: pairs.as_slice().len(),
        texts,
    })
}
