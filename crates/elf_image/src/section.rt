// Section headers.
ghost use Rattle.std.specs.Prelude.{◌≡◌, ◌+◌, ◌*◌, ◌<◌, ◌≤◌, length, find};
ghost use Rattle.std.specs.Bool.{OnTrue};
ghost use Rattle.std.specs.Option.{option_copied, option_map};
ghost use Rattle.elf_image.specs.Sections as sections;
ghost use Rattle.elf_image.specs.Sections.{HasSections};

use crate::bytes::{u16_at, u32_at, u64_at};

/// A section header's fields that are read.
#[derive(Clone, Copy)]
pub struct SectionHeader {
    /// `sh_name`, an offset into the names of the sections
    pub name: u32,
    /// `sh_type`
    pub kind: u32,
    /// `sh_flags`
    pub flags: u64,
    /// `sh_offset`, in the file
    pub offset: u64,
    /// `sh_size`, in bytes
    pub size: u64,
    /// `sh_link`: of a symbol table, the number of its string table
    pub link: u32,
}

const SHT_SYMTAB: u32 = 2;

const SHT_STRTAB: u32 = 3;

const SHF_COMPRESSED: u64 = 0x800;

const HEADER_SIZE: u16 = 64;

impl SectionHeader {
    /// The section's bytes lie in a file of this length and aren't compressed.
    pub fn is_readable(&self, len: usize) -> bool
        ensures { result ≡ sections.is_readable len self.now }
    {
        self.offset as u128 + self.size as u128 <= len as u128 && self.flags & SHF_COMPRESSED == 0
    }

    /// The section's bytes, and none where they can't be read.
    pub fn contents<'a>(&self, file: &'a [u8]) -> &'a [u8]
        ensures { result.now ≡ sections.contents file.now self.now }
    {
        if !self.is_readable(file.len()) {
            return &file[..0];
        }
        let from = &file[self.offset as usize..];
        &from[..self.size as usize]
    }
}

/// The section headers have 64 bytes each and lie in the file, and one of them is that of the names.
#[tactic(auto, unfolding(crate::specs::Sections::has_sections))]
pub fn has_sections(file: &[u8]) -> bool
    requires { 64 ≤ length file.now }
    ensures value { result ≡ sections.has_sections file.now }
    ensures table { OnTrue result (HasSections file.now) }
{
    let count = u16_at(file, 60);
    let end = u64_at(file, 40) as u128 + 64 * count as u128;
    u16_at(file, 58) == HEADER_SIZE && end <= file.len() as u128 && u16_at(file, 62) < count
}

#[tactic(auto, unfolding(crate::specs::Sections::section_at))]
fn section_at(file: &[u8], at: usize) -> SectionHeader
    requires { at + 64 ≤ length file.now }
    ensures { result ≡ sections.section_at file.now at }
{
    SectionHeader {
        name: u32_at(file, at),
        kind: u32_at(file, at + 4),
        flags: u64_at(file, at + 8),
        offset: u64_at(file, at + 24),
        size: u64_at(file, at + 32),
        link: u32_at(file, at + 40),
    }
}

/// The section header of this number.
pub fn section_header(file: &[u8], number: u32) -> SectionHeader
    requires table { HasSections file.now }
    requires below { number < sections.section_count file.now }
    ensures { result ≡ sections.section_header file.now number }
{
    let table = u64_at(file, 40);
    section_at(file, table as usize + 64 * number as usize)
}

/// The text stands at the front of the bytes, with a zero byte behind it.
fn begins_with_text(text: &[u8], bytes: &[u8]) -> bool
    ensures { result ≡ sections.begins_with_text text.now bytes.now }
{
    bytes.len() > text.len() && bytes.starts_with(text) && bytes[text.len()] == 0
}

/// The section can be read, and its name among these names is this one.
fn is_section(file: &[u8], names: &[u8], name: &[u8], header: &SectionHeader) -> bool
    requires { names.now ≡ sections.section_names file.now }
    ensures { result ≡ sections.is_section file.now name.now header.now }
{
    if !header.is_readable(file.len()) {
        return false;
    }
    let at = (header.name as usize).min(names.len());
    begins_with_text(name, &names[at..])
}

/// The first section of this name that can be read.
#[tactic(auto, unfolding(crate::specs::Sections::section_headers))]
fn named_section(file: &[u8], name: &[u8]) -> Option<SectionHeader>
    requires { HasSections file.now }
    ensures { result ≡ find (sections.is_section file.now name.now) (sections.section_headers file.now) }
{
    let names = section_header(file, u16_at(file, 62) as u32).contents(file);
    let count = u16_at(file, 60) as u32;
    for number in 0..count {
        let header = section_header(file, number);
        if is_section(file, names, name, &header) {
            return Some(header);
        }
    }
    None
}

/// The first symbol table that can be read.
#[tactic(auto, unfolding(crate::specs::Sections::section_headers))]
fn symbol_section(file: &[u8]) -> Option<SectionHeader>
    requires { HasSections file.now }
    ensures { result ≡ find (sections.is_symbol_table file.now) (sections.section_headers file.now) }
{
    let count = u16_at(file, 60) as u32;
    for number in 0..count {
        let header = section_header(file, number);
        if header.is_readable(file.len()) && header.kind == SHT_SYMTAB {
            return Some(header);
        }
    }
    None
}

/// The bytes of the first section of this name that can be read.
#[tactic(auto, unfolding(crate::specs::Sections::section, crate::specs::Sections::section_headers))]
pub fn section<'a>(file: &'a [u8], name: &[u8]) -> Option<&'a [u8]>
    requires { 64 ≤ length file.now }
    ensures { option_copied result ≡ sections.section file.now name.now }
{
    if !has_sections(file) || name.contains(&0) {
        return None;
    }
    match named_section(file, name) {
        Some(header) => Some(header.contents(file)),
        None => None,
    }
}

/// The bytes of the first symbol table that can be read, and of its string table.
#[tactic(auto, unfolding(crate::specs::Sections::symbol_tables, crate::specs::Sections::section_headers))]
pub fn symbol_tables(file: &[u8]) -> Option<(&[u8], &[u8])>
    requires { 64 ≤ length file.now }
    ensures { option_map (λ t. (t.0.now, t.1.now)) result ≡ sections.symbol_tables file.now }
{
    if !has_sections(file) {
        return None;
    }
    let symbols = match symbol_section(file) {
        Some(header) => header,
        None => return None,
    };
    if symbols.link >= u16_at(file, 60) as u32 {
        return None;
    }
    let strings = section_header(file, symbols.link);
    if strings.is_readable(file.len()) && strings.kind == SHT_STRTAB {
        Some((symbols.contents(file), strings.contents(file)))
    } else {
        None
    }
}
