// Executable files: the ELF header, two program headers, the code, and in the named form sections.
use crate::AssemblyError;
use crate::assembler::{CODE, Label, address};
use std::alloc::Global;

/// What a file has beside its code and its data.
#[derive(Clone, Copy)]
pub enum Form<'a> {
    /// No sections, and so many bytes of data.
    Plain {
        room: u32,
    },
    /// A symbol for each label, and sections of line tables.
    Named {
        debug: &'a [(DebugSection, &'a [u8])],
    },
}

/// A section of line tables, or of the texts that they name.
#[derive(Clone, Copy)]
pub enum DebugSection {
    Line,
    Str,
    LineStr,
}

impl DebugSection {
    /// Where its name stands among those of the sections.
    fn name(self) -> u32 {
        match self {
            DebugSection::Line => 27,
            DebugSection::Str => 39,
            DebugSection::LineStr => 50,
        }
    }
}

impl Form<'_> {
    /// The plain form with as much data as an example program usually has.
    pub const PLAIN: Form<'static> = Form::Plain { room: USUAL_ROOM };

    /// The named form without line tables.
    pub const NAMED: Form<'static> = Form::Named { debug: &[] };
}

/// Where the code stands in a file: behind the ELF header and two program headers.
const CODE_OFFSET: u64 = 176;

/// How many bytes of data an example program usually has.
const USUAL_ROOM: u32 = 2048;

const HEADER_SIZE: u64 = 64;

/// The names of the sections, each ended by a zero byte.
const SECTION_NAMES: &[u8; 66] =
    b"\0.symtab\0.strtab\0.shstrtab\0.debug_line\0.debug_str\0.debug_line_str\0";

/// The types of sections.
const PROGRAM_BYTES: u32 = 1;

const SYMBOL_TABLE: u32 = 2;

const STRINGS: u32 = 3;

/// A file in the making, whose numbers are little-endian.
#[derive(Drop)]
struct Writer {
    bytes: Vec<u8>,
}

impl Writer {
    fn half(&mut self, number: u16) -> Result<(), AssemblyError> {
        self.bytes.extend_from_slice(&number.to_le_bytes())?;
        Ok(())
    }

    fn word(&mut self, number: u32) -> Result<(), AssemblyError> {
        self.bytes.extend_from_slice(&number.to_le_bytes())?;
        Ok(())
    }

    fn long(&mut self, number: u64) -> Result<(), AssemblyError> {
        self.bytes.extend_from_slice(&number.to_le_bytes())?;
        Ok(())
    }

    fn halves(&mut self, numbers: &[u16]) -> Result<(), AssemblyError> {
        for number in numbers {
            self.half(*number)?;
        }
        Ok(())
    }

    fn longs(&mut self, numbers: &[u64]) -> Result<(), AssemblyError> {
        for number in numbers {
            self.long(*number)?;
        }
        Ok(())
    }

    fn all(&mut self, bytes: &[u8]) -> Result<(), AssemblyError> {
        self.bytes.extend_from_slice(bytes)?;
        Ok(())
    }

    /// The ELF header of an executable for RISC-V with so many sections, whose table stands at an offset.
    fn header(&mut self, entry: u32, table: u64, sections: u16) -> Result<(), AssemblyError> {
        self.all(b"\x7fELF\x02\x01\x01\0\0\0\0\0\0\0\0\0")?;
        self.halves(&[2, 243])?;
        self.word(1)?;
        self.longs(&[u64::from(entry), HEADER_SIZE, table])?;
        self.word(0)?;
        let names = if sections == 0 { 0 } else { 3 };
        let size = if sections == 0 { 0 } else { 64 };
        self.halves(&[64, 56, 2, size, sections, names])
    }

    /// The program header of a segment.
    fn segment(
        &mut self,
        flags: u32,
        offset: u64,
        start: u64,
        sizes: (u64, u64),
    ) -> Result<(), AssemblyError> {
        self.word(1)?;
        self.word(flags)?;
        self.longs(&[offset, start, start, sizes.0, sizes.1, 8])
    }

    /// The header of a section whose bytes stand at an offset. Gives the offset behind them.
    fn section(
        &mut self,
        name: u32,
        kind: u32,
        offset: u64,
        bytes: &[u8],
    ) -> Result<u64, AssemblyError> {
        let size = bytes.len() as u64;
        let symbols = kind == SYMBOL_TABLE;
        self.word(name)?;
        self.word(kind)?;
        self.longs(&[0, 0, offset, size])?;
        // A symbol table's names are in section 2, and no symbol but the first is local.
        self.word(if symbols { 2 } else { 0 })?;
        self.word(if symbols { 1 } else { 0 })?;
        self.longs(&[1, if symbols { 24 } else { 0 }])?;
        offset.checked_add(size).ok_or(AssemblyError::TooLong)
    }

    /// A symbol of a global function at an absolute address: its name's place, its start and its size.
    fn symbol(&mut self, name: u32, start: u32, size: u32) -> Result<(), AssemblyError> {
        self.word(name)?;
        self.all(&[0x12, 0])?;
        self.half(0xfff1)?;
        self.longs(&[u64::from(start), u64::from(size)])
    }
}

/// The string table of the labels, and the symbol table over it.
fn symbols(
    alloc: Global,
    labels: &[Label<'_>],
    end: u32,
) -> Result<(Writer, Writer), AssemblyError> {
    let mut names = Writer {
        bytes: Vec::new(alloc),
    };
    let mut table = Writer {
        bytes: Vec::new(alloc),
    };
    names.all(&[0])?;
    table.longs(&[0, 0, 0])?;
    for (index, label) in labels.iter().enumerate() {
        let start = address(label.words)?;
        let next = match labels.get(index + 1) {
            Some(next) => address(next.words)?,
            None => end,
        };
        let Ok(name) = u32::try_from(names.bytes.len()) else {
            return Err(AssemblyError::TooLong);
        };
        table.symbol(name, start, next.saturating_sub(start))?;
        names.all(label.name.as_bytes())?;
        names.all(&[0])?;
    }
    Ok((names, table))
}

impl Writer {
    /// The ELF header and the program headers, and then the code.
    fn program(
        &mut self,
        words: &[u32],
        entry: u32,
        sections: u16,
        room: u32,
    ) -> Result<(), AssemblyError> {
        let size = u64::from(address(words.len())? - CODE);
        let end = CODE_OFFSET + size;
        self.header(entry, if sections == 0 { 0 } else { end }, sections)?;
        self.segment(5, CODE_OFFSET, u64::from(CODE), (size, size))?;
        self.segment(6, end, 0x100_0000, (0, u64::from(room)))?;
        for word in words {
            self.word(*word)?;
        }
        Ok(())
    }

    /// The section table, and then the sections' bytes.
    fn sections(
        &mut self,
        symbols: &[u8],
        names: &[u8],
        debug: &[(DebugSection, &[u8])],
        count: u16,
    ) -> Result<(), AssemblyError> {
        let table = HEADER_SIZE * u64::from(count);
        let first = (self.bytes.len() as u64)
            .checked_add(table)
            .ok_or(AssemblyError::TooLong)?;
        self.longs(&[0, 0, 0, 0, 0, 0, 0, 0])?;
        let second = self.section(1, SYMBOL_TABLE, first, symbols)?;
        let third = self.section(9, STRINGS, second, names)?;
        let mut next = self.section(17, STRINGS, third, SECTION_NAMES)?;
        for (section, bytes) in debug {
            next = self.section(section.name(), PROGRAM_BYTES, next, bytes)?;
        }
        self.all(symbols)?;
        self.all(names)?;
        self.all(SECTION_NAMES)?;
        for (_, bytes) in debug {
            self.all(bytes)?;
        }
        Ok(())
    }
}

/// A file with a symbol for each label.
fn named(
    alloc: Global,
    words: &[u32],
    labels: &[Label<'_>],
    entry: u32,
    debug: &[(DebugSection, &[u8])],
) -> Result<Writer, AssemblyError> {
    let (names, table) = symbols(alloc, labels, address(words.len())?)?;
    let mut writer = Writer {
        bytes: Vec::new(alloc),
    };
    let count = u16::try_from(debug.len())
        .ok()
        .and_then(|count| count.checked_add(4))
        .ok_or(AssemblyError::TooLong)?;
    writer.program(words, entry, count, USUAL_ROOM)?;
    writer.sections(&table.bytes, &names.bytes, debug, count)?;
    Ok(writer)
}

/// The file of some code whose labels are given in its order.
pub fn file(
    alloc: Global,
    words: &[u32],
    labels: &[Label<'_>],
    entry: u32,
    form: &Form<'_>,
) -> Result<Vec<u8>, AssemblyError> {
    let writer = match form {
        Form::Plain { room } => {
            let mut writer = Writer {
                bytes: Vec::new(alloc),
            };
            writer.program(words, entry, 0, *room)?;
            writer
        }
        Form::Named { debug } => named(alloc, words, labels, entry, *debug)?,
    };
    let Writer { bytes } = writer;
    Ok(bytes)
}
