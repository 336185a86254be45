// The sequences of all line units, and the texts of their files.
ghost use Rattle.std.specs.Prelude.{◌≡◌, map, IfOk, []};
ghost use Rattle.std.specs.Option.{option_map};
ghost use Rattle.symbol_lines.specs.Program.{unit_at};
ghost use Rattle.symbol_lines.specs.Lines.{lines_of, next_unit, sequences};
ghost use Rattle.symbol_lines.specs.KeptLines.{kept_lines, with_files, resolved, files_view, UnitsAre, numbered};
ghost use Rattle.symbol_lines.specs.MachineViews.{sequence_view};
ghost use Rattle.symbol_lines.specs.SectionViews.{sections_view};

use crate::machine::{Machine, Sequence};
use crate::paths::{FileList, file_list};
use crate::program::Unit;
use crate::reading::{bytes_of, long_of, word_of};
use crate::spans::Span;
use crate::text_sections::TextSections;
use crate::units::{run, unit_of};
use std::alloc::{AllocError, Global};

/// The sequences of a unit, and its files.
#[derive(Drop)]
pub struct UnitLines<'a> {
    pub sequences: Vec<Sequence>,
    pub files: FileList<'a>,
}

/// The sequences of all units in reading order, and each unit's files.
#[derive(Drop)]
pub struct AllLines<'a> {
    pub sequences: Vec<Sequence>,
    pub units: Vec<FileList<'a>>,
}

/// The bytes of the next unit behind its length, and the bytes after it.
#[tactic(auto, unfolding(crate::specs::Lines::next_unit))]
fn next_unit(bytes: &[u8]) -> Option<(&[u8], &[u8])>
    ensures { option_map (λ x. (x.0.now, x.1.now)) result ≡ next_unit bytes.now }
{
    let (len, rest) = word_of(bytes)?;
    if len == 0xffff_ffff {
        let (len, rest) = long_of(rest)?;
        let (_, rest) = bytes_of(len, rest)?;
        Some((&rest[..0], rest))
    } else if len >= 0xffff_fff0 {
        None
    } else {
        bytes_of(len as u64, rest)
    }
}

/// The sequences of the unit of this number, none where it is malformed or of another version.
fn read_unit<'a>(
    alloc: Global,
    sections: &TextSections<'a>,
    bytes: &'a [u8],
    number: usize,
) -> Result<UnitLines<'a>, AllocError>
    ensures lines { let s = sections_view sections.now in
        IfOk result (λ u. map (with_files (files_view u.files)) (map sequence_view u.sequences.items)
        ≡ map kept_lines (lines_of s (unit_at s bytes.now))) }
    ensures units { IfOk result (λ u. UnitsAre number (map sequence_view u.sequences.items)) }
{
    let unit = match unit_of(alloc, sections, bytes)? {
        Some(unit) => unit,
        None => return Ok(no_lines(alloc)),
    };
    let Unit {
        rules,
        directories,
        files,
        program,
    } = unit;
    let machine = Machine {
        address: 0,
        file: 1,
        line: 1,
        start: None,
        rows: Vec::new(alloc),
        sequences: Vec::new(alloc),
        files,
        unit: number,
    };
    let mut machine = match run(alloc, &rules, program, machine)? {
        Some(machine) => machine,
        None => return Ok(no_lines(alloc)),
    };
    let files = file_list(
        alloc,
        sections,
        rules.version,
        directories.as_slice(),
        machine.files.as_slice(),
    )?;
    let sequences = std::mem::replace(&mut machine.sequences, Vec::new(alloc));
    Ok(UnitLines { sequences, files })
}

fn no_lines<'a>(alloc: Global) -> UnitLines<'a>
    ensures { result.sequences.items ≡ [] }
{
    UnitLines {
        sequences: Vec::new(alloc),
        files: FileList {
            first: 0,
            texts: Vec::new(alloc),
        },
    }
}

/// The sequences of a section of line units.
#[tactic(auto, unfolding(crate::specs::Lines::sequences))]
pub fn read_lines<'a>(
    alloc: Global,
    sections: &TextSections<'a>,
    section: &'a [u8],
) -> Result<AllLines<'a>, AllocError>
    ensures { IfOk result (λ x. let kept = map sequence_view x.sequences.items in
        map (resolved (map files_view x.units.items)) kept
        ≡ map kept_lines (sequences (sections_view sections.now) section.now)) }
{
    let mut found = Vec::new(alloc);
    let mut units = Vec::new(alloc);
    let mut rest = section;
    for _ in 0..section.len() {
        let (unit, after) = match next_unit(rest) {
            Some(read) => read,
            None => {
                return Ok(AllLines {
                    sequences: found,
                    units,
                });
            }
        };
        let UnitLines {
            mut sequences,
            files,
        } = read_unit(alloc, sections, unit, units.len())?;
        found.append(&mut sequences)?;
        units.push(files)?;
        rest = after;
    }
    Ok(AllLines {
        sequences: found,
        units,
    })
}

/// The ranges of sequences. Each stands for its number.
pub fn sequence_spans(alloc: Global, sequences: &[Sequence]) -> Result<Vec<Span>, AllocError>
    ensures { IfOk result (λ v. v.items ≡ numbered 0 (map sequence_view sequences.now)) }
{
    let mut spans = Vec::new(alloc);
    for item in 0..sequences.len() {
        let sequence = &sequences[item];
        spans.push(Span {
            start: sequence.start,
            size: sequence.end.saturating_sub(sequence.start),
            rank: 0,
            item,
        })?;
    }
    Ok(spans)
}
