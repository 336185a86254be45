// The file and the line of a place, in tables that are sorted.
ghost use Rattle.std.specs.Prelude.{◌≡◌, map, slice_index_or, slice_get};
ghost use Rattle.std.specs.List.Sorted.{IsNonDecreasingBy};
ghost use Rattle.symbol_lines.specs.Spans.{owner_at, owner_among};
ghost use Rattle.symbol_lines.specs.FileTexts.{text_of};
ghost use Rattle.symbol_lines.specs.Lines.{position_at, file_text};
ghost use Rattle.symbol_lines.specs.KeptLines.{resolved, texts_view, files_view, no_files, numbered, text_or_none, position_view};
ghost use Rattle.symbol_lines.specs.MachineViews.{sequence_view};

use crate::frames::FileText;
use crate::machine::Sequence;
use crate::paths::FileList;
use crate::rows::find_row;
use crate::spans::{Step, find_owner};

/// The text of a file of a unit, and none where there is no such file.
fn text_at<'a>(units: &[FileList<'a>], unit: usize, number: u64) -> FileText<'a>
    ensures { let files = slice_index_or (map files_view units.now) unit no_files in
        text_of result ≡ text_or_none (file_text files number) }
{
    if unit >= units.len() {
        return FileText::of_name("");
    }
    let files = &units[unit];
    if number < files.first {
        return FileText::of_name("");
    }
    text_in(&files.texts, number - files.first)
}

fn text_in<'a>(texts: &Vec<FileText<'a>>, index: u64) -> FileText<'a>
    ensures { text_of result ≡ text_or_none (slice_get (texts_view texts.now) index) }
{
    if index >= texts.len() as u64 {
        return FileText::of_name("");
    }
    texts[index as usize]
}

/// The file and the line of a place: the first sequence that has it, and there the last row at or below it.
pub fn find_position<'a>(
    steps: &[Step],
    sequences: &[Sequence],
    units: &[FileList<'a>],
    place: u64,
) -> (FileText<'a>, u64)
    requires rising { IsNonDecreasingBy (λ s. s.from) steps.now }
    requires value { owner_at steps.now place ≡ owner_among (numbered 0 (map sequence_view sequences.now)) place }
    ensures { let kept = map sequence_view sequences.now in
        position_view result ≡ position_at (map (resolved (map files_view units.now)) kept) place }
{
    let owner = match find_owner(steps, place) {
        Some(owner) => owner,
        None => return (FileText::of_name(""), 0),
    };
    let sequence = &sequences[owner.item];
    let row = match find_row(sequence.rows.as_slice(), place) {
        Some(row) => row,
        None => return (FileText::of_name(""), 0),
    };
    let file = text_at(units, sequence.unit, row.file);
    if file.is_empty() {
        (FileText::of_name(""), 0)
    } else {
        (file, row.line)
    }
}
