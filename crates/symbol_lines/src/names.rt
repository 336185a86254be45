// Names of code places.
ghost use Rattle.std.specs.Prelude.{◌≡◌, IfOk};
ghost use Rattle.symbol_lines.specs.Frames as frames;
ghost use Rattle.symbol_lines.specs.SectionViews.{tables_view};

use crate::frames::{FileText, Frame, Frames};
use crate::machine::Sequence;
use crate::name_table::{name_at, name_ends};
use crate::paths::FileList;
use crate::positions::find_position;
use crate::sequences::{AllLines, read_lines, sequence_spans};
use crate::spans::{Step, find_owner, steps_of};
use crate::symbols::function_spans;
use crate::text_sections::{TextSection, TextSections};
use elf_image::Image;
use run_record::NoMemory;
use std::alloc::Global;
use std::marker::Model;

/// The tables of a file that names are read from, and empty ones where it has none.
#[derive(Clone, Copy)]
struct TableBytes<'a> {
    symbols: &'a [u8],
    /// The string table of the symbols.
    strings: &'a [u8],
    /// The sections .debug_line, .debug_str and .debug_line_str.
    lines: &'a [u8],
    debug_str: &'a [u8],
    debug_line_str: &'a [u8],
}

/// The names of an executable's code places. Contracts see the tables of the file that they are read from.
#[derive(Drop)]
pub struct Names<'a> {
    tables: TableBytes<'a>,
    ends: Vec<usize>,
    functions: Vec<Step>,
    places: Vec<Step>,
    sequences: Vec<Sequence>,
    units: Vec<FileList<'a>>,
}

impl<'a> Model for Names<'a> {
    ghost use Rattle.std.specs.Prelude.{map};
    ghost use Rattle.symbol_lines.specs.Frames.{Tables};
    ghost use Rattle.symbol_lines.specs.Found.{IsRead};
    ghost use Rattle.symbol_lines.specs.KeptLines.{files_view};
    ghost use Rattle.symbol_lines.specs.MachineViews.{sequence_view};
    ghost use Rattle.symbol_lines.specs.SectionViews.{tables_view};

    ghost Value = { Tables };

    ghost view = { λ n. tables_view n.tables };

    ghost invariant = { λ n. IsRead (tables_view n.tables) n.ends.items n.functions.items n.places.items (map sequence_view n.sequences.items) (map files_view n.units.items) };
}

/// The bytes of a section, and none where there is no such section.
fn section_or_none<'a>(image: &Image<'a>, name: &str) -> &'a [u8]
    ensures { result.now ≡ frames.section_or_none image.now name.now }
{
    match image.section(name) {
        Some(bytes) => bytes,
        None => b"".as_slice(),
    }
}

/// The tables of an executable.
fn tables_of<'a>(image: &Image<'a>) -> TableBytes<'a>
    ensures { tables_view result ≡ frames.tables_of image.now }
{
    let (symbols, strings) = match image.symbol_tables() {
        Some(tables) => tables,
        None => (b"".as_slice(), b"".as_slice()),
    };
    TableBytes {
        symbols,
        strings,
        lines: section_or_none(image, ".debug_line"),
        debug_str: section_or_none(image, ".debug_str"),
        debug_line_str: section_or_none(image, ".debug_line_str"),
    }
}

impl<'a> Names<'a> {
    ghost use Rattle.symbol_lines.specs.Frames.{tables_of};

    /// The names of an executable's code places. It takes memory in proportion to the tables: texts stay parts of the
    /// executable. Whether a text can be shown is tested here, once for each directory and file of a unit's own and for each
    /// byte of the string table and of the sections .debug_str and .debug_line_str.
    pub fn read(alloc: Global, image: &Image<'a>) -> Result<Names<'a>, NoMemory>
        ensures { IfOk result (λ names. names ≡ tables_of image.now) }
    {
        let tables = tables_of(image);
        let ends = name_ends(alloc, tables.strings)?;
        let spans = function_spans(alloc, tables.symbols)?;
        let functions = steps_of(alloc, spans.as_slice())?;
        let sections = TextSections {
            strings: TextSection::read(alloc, tables.debug_str)?,
            line_strings: TextSection::read(alloc, tables.debug_line_str)?,
        };
        let all = read_lines(alloc, &sections, tables.lines)?;
        let spans = sequence_spans(alloc, all.sequences.as_slice())?;
        let places = steps_of(alloc, spans.as_slice())?;
        let AllLines { sequences, units } = all;
        Ok(Names {
            tables,
            ends,
            functions,
            places,
            sequences,
            units,
        })
    }
}

impl Frames for Names<'_> {
    ghost use Rattle.symbol_lines.specs.Frames.{frame_in};

    ghost frame_of = { frame_in };

    fn frame(&self, place: u64) -> Frame<'_> {
        let name = self.name(place);
        let (file, line) = self.position(place);
        Frame { name, file, line }
    }
}

impl Names<'_> {
    ghost use Rattle.symbol_lines.specs.Symbols.{name_of};
    ghost use Rattle.symbol_lines.specs.Lines.{position_at, sequences};
    ghost use Rattle.symbol_lines.specs.KeptLines.{position_view};

    // The name of the function over a place.
    fn name(&self, place: u64) -> &str
        ensures { result.now ≡ name_of self.now.symbols self.now.strings place }
    {
        match find_owner(self.functions.as_slice(), place) {
            Some(owner) => name_at(self.tables.strings, self.ends.as_slice(), owner.item),
            None => "",
        }
    }

    // The file and the line of a place.
    fn position(&self, place: u64) -> (FileText<'_>, u64)
        ensures { position_view result
            ≡ position_at (sequences self.now.texts self.now.lines) place }
    {
        find_position(
            self.places.as_slice(),
            self.sequences.as_slice(),
            self.units.as_slice(),
            place,
        )
    }
}
