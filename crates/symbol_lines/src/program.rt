// Line number programs: a unit's header and the operations of its program.
ghost use Rattle.std.specs.Prelude.{◌+◌, ◌<◌, ◌≤◌, length};

/// What a unit's header says of its operations.
#[derive(Clone, Copy)]
pub struct Rules<'a> {
    pub version: u16,
    pub minimum_length: u8,
    /// Modulo 2^64.
    pub line_base: u64,
    pub line_range: u8,
    pub opcode_base: u8,
    /// Of opcode k the number at k - 1.
    pub operand_counts: &'a [u8],
    ghost range: { 0 < line_range },
    ghost counted: { opcode_base ≤ length operand_counts.now + 1 },
}

/// A path: bytes of the unit itself, or the offset of a text in a section.
#[derive(Clone, Copy)]
pub enum Path<'a> {
    InUnit(&'a [u8]),
    /// In .debug_str.
    InStrings(u32),
    /// In .debug_line_str.
    InLineStrings(u32),
}

/// An entry of a unit's list of directories or of files.
#[derive(Clone, Copy)]
pub struct Entry<'a> {
    /// None where no path is told.
    pub path: Option<Path<'a>>,
    /// The number of the directory that it is in.
    pub directory: u64,
}

/// A unit, before its program is run.
#[derive(Drop)]
pub struct Unit<'a> {
    pub rules: Rules<'a>,
    pub directories: Vec<Entry<'a>>,
    pub files: Vec<Entry<'a>>,
    pub program: &'a [u8],
}

/// An operation does one of these.
#[derive(Clone, Copy)]
pub enum Operation<'a> {
    /// Adds to the address and to the line.
    Advance(u64, u64),
    /// Adds to both and gives a row.
    AddRow(u64, u64),
    SetAddress(u64),
    SetFile(u64),
    EndSequence,
    DefineFile(Entry<'a>),
}
