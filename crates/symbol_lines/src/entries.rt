// Directories and files of units of version 5: a list tells the format of its entries, their count, and then the entries.
ghost use Rattle.std.specs.Prelude.{◌≡◌, map, length, IfOk};
ghost use Rattle.std.specs.Option.{option_map};
ghost use Rattle.symbol_lines.specs.Reading.{list_at};
ghost use Rattle.symbol_lines.specs.Entries as entries;
ghost use Rattle.symbol_lines.specs.SectionViews.{sections_view};
ghost use Rattle.symbol_lines.specs.Views.{path_view, entry_view, format_view};

use crate::program::{Entry, Path};
use crate::reading::{byte_of, bytes_of, half_of, text_of, uleb_of, word_of};
use crate::text_sections::TextSections;
use std::alloc::{AllocError, Global};

/// A field of each entry: the code of its content, and the form that it has.
#[derive(Clone, Copy)]
pub struct Format {
    pub content: u64,
    pub form: u64,
}

// The contents that are read: DW_LNCT_path and DW_LNCT_directory_index.
const PATH: u64 = 1;

const DIRECTORY: u64 = 2;

// The forms, DW_FORM_data2 and so on.
const DATA2: u64 = 0x05;

const DATA4: u64 = 0x06;

const DATA8: u64 = 0x07;

const STRING: u64 = 0x08;

const BLOCK: u64 = 0x09;

const DATA1: u64 = 0x0b;

const STRP: u64 = 0x0e;

const UDATA: u64 = 0x0f;

const DATA16: u64 = 0x1e;

const LINE_STRP: u64 = 0x1f;

/// The path in a field of a form.
fn path_of<'a>(
    sections: &TextSections<'_>,
    form: u64,
    bytes: &'a [u8],
) -> Option<(Path<'a>, &'a [u8])>
    ensures { option_map (λ x. (path_view x.0, x.1.now)) result
        ≡ entries.path_at (sections_view sections.now) form bytes.now }
{
    if form == STRING {
        let (text, rest) = text_of(bytes)?;
        Some((Path::InUnit(text), rest))
    } else if form == STRP {
        let (offset, rest) = word_of(bytes)?;
        if sections.strings.has_text(offset) {
            Some((Path::InStrings(offset), rest))
        } else {
            None
        }
    } else if form == LINE_STRP {
        let (offset, rest) = word_of(bytes)?;
        if sections.line_strings.has_text(offset) {
            Some((Path::InLineStrings(offset), rest))
        } else {
            None
        }
    } else {
        None
    }
}

/// The number of a directory in a field of a form.
fn index_of(form: u64, bytes: &[u8]) -> Option<(u64, &[u8])>
    ensures { option_map (λ x. (x.0, x.1.now)) result ≡ entries.index_at form bytes.now }
{
    if form == DATA1 {
        let (index, rest) = byte_of(bytes)?;
        Some((index as u64, rest))
    } else if form == DATA2 {
        let (index, rest) = half_of(bytes)?;
        Some((index as u64, rest))
    } else if form == UDATA {
        uleb_of(bytes)
    } else {
        None
    }
}

/// How many bytes a field of a form has, where the form alone says that.
fn size_of(form: u64) -> Option<u64>
    ensures { result ≡ entries.size_of form }
{
    if form == DATA1 {
        Some(1)
    } else if form == DATA2 {
        Some(2)
    } else if form == DATA4 || form == STRP || form == LINE_STRP {
        Some(4)
    } else if form == DATA8 {
        Some(8)
    } else if form == DATA16 {
        Some(16)
    } else {
        None
    }
}

/// The bytes after a field of a form.
fn after_field(form: u64, bytes: &[u8]) -> Option<&[u8]>
    ensures { option_map (λ x. x.now) result ≡ entries.after_field form bytes.now }
{
    if form == STRING {
        let (_, rest) = text_of(bytes)?;
        Some(rest)
    } else if form == UDATA {
        let (_, rest) = uleb_of(bytes)?;
        Some(rest)
    } else if form == BLOCK {
        let (len, rest) = uleb_of(bytes)?;
        let (_, rest) = bytes_of(len, rest)?;
        Some(rest)
    } else {
        let size = size_of(form)?;
        let (_, rest) = bytes_of(size, bytes)?;
        Some(rest)
    }
}

/// An entry with what a field tells of it.
#[tactic(auto, unfolding(crate::specs::Entries::field_at))]
fn field_of<'a>(
    sections: &TextSections<'_>,
    format: Format,
    entry: Entry<'a>,
    bytes: &'a [u8],
) -> Option<(Entry<'a>, &'a [u8])>
    ensures { let s = sections_view sections.now in
        option_map (λ x. (entry_view x.0, x.1.now)) result
        ≡ entries.field_at s (format_view format) (entry_view entry.entry) bytes.now }
{
    if format.content == PATH {
        let (path, rest) = path_of(sections, format.form, bytes)?;
        let entry = Entry {
            path: Some(path),
            directory: entry.directory,
        };
        Some((entry, rest))
    } else if format.content == DIRECTORY {
        let (directory, rest) = index_of(format.form, bytes)?;
        let entry = Entry {
            path: entry.path,
            directory,
        };
        Some((entry, rest))
    } else {
        let rest = after_field(format.form, bytes)?;
        Some((entry, rest))
    }
}

/// An entry with what its fields tell, one after another.
#[tactic(auto, unfolding(crate::specs::Entries::fields_at))]
fn fields_of<'a>(
    sections: &TextSections<'_>,
    formats: &[Format],
    entry: Entry<'a>,
    bytes: &'a [u8],
) -> Option<(Entry<'a>, &'a [u8])>
    ensures { let s = sections_view sections.now in
        let all = map format_view formats.now in
        option_map (λ x. (entry_view x.0, x.1.now)) result
        ≡ entries.fields_at s all (entry_view entry.entry) bytes.now }
{
    match formats {
        [] => Some((entry, bytes)),
        [format, formats @ ..] => {
            let (entry, rest) = field_of(sections, *format, entry, bytes)?;
            fields_of(sections, formats, entry, rest)
        }
    }
}

/// An entry has no path and is in directory 0 where its fields don't tell another.
fn entry_of<'a>(
    sections: &TextSections<'_>,
    formats: &[Format],
    bytes: &'a [u8],
) -> Option<(Entry<'a>, &'a [u8])>
    ensures { let s = sections_view sections.now in
        option_map (λ x. (entry_view x.0, x.1.now)) result
        ≡ entries.entry_at s (map format_view formats.now) bytes.now }
{
    let entry = Entry {
        path: None,
        directory: 0,
    };
    fields_of(sections, formats, entry, bytes)
}

fn format_of(bytes: &[u8]) -> Option<(Format, &[u8])>
    ensures { option_map (λ x. (format_view x.0, x.1.now)) result ≡ entries.format_at bytes.now }
{
    let (content, rest) = uleb_of(bytes)?;
    let (form, rest) = uleb_of(rest)?;
    Some((Format { content, form }, rest))
}

/// So many formats.
fn formats_of(
    alloc: Global,
    count: u8,
    bytes: &[u8],
) -> Result<Option<(Vec<Format>, &[u8])>, AllocError>
    ensures { IfOk result (λ o. option_map (λ x. (map format_view x.0.items, x.1.now)) o
        ≡ list_at entries.format_at count bytes.now) }
{
    let mut found = Vec::new(alloc);
    let mut rest = bytes;
    for _ in 0..count {
        let (format, after) = match format_of(rest) {
            Some(read) => read,
            None => return Ok(None),
        };
        found.push(format)?;
        rest = after;
    }
    Ok(Some((found, rest)))
}

/// So many entries with fields of these formats.
fn entries_like<'a>(
    alloc: Global,
    sections: &TextSections<'_>,
    formats: &[Format],
    count: u64,
    bytes: &'a [u8],
) -> Result<Option<(Vec<Entry<'a>>, &'a [u8])>, AllocError>
    ensures { let s = sections_view sections.now in
        IfOk result (λ o. option_map (λ x. (map entry_view x.0.items, x.1.now)) o
        ≡ list_at (entries.entry_at s (map format_view formats.now)) count bytes.now) }
{
    let mut found = Vec::new(alloc);
    let mut rest = bytes;
    for _ in 0..count {
        let (entry, after) = match entry_of(sections, formats, rest) {
            Some(read) => read,
            None => return Ok(None),
        };
        found.push(entry)?;
        rest = after;
    }
    Ok(Some((found, rest)))
}

/// The entries of a list.
#[tactic(auto, unfolding(crate::specs::Entries::entries_at))]
pub fn entries_of<'a>(
    alloc: Global,
    sections: &TextSections<'_>,
    bytes: &'a [u8],
) -> Result<Option<(Vec<Entry<'a>>, &'a [u8])>, AllocError>
    ensures { IfOk result (λ o. option_map (λ x. (map entry_view x.0.items, x.1.now)) o
        ≡ entries.entries_at (sections_view sections.now) bytes.now) }
{
    let (width, rest) = match byte_of(bytes) {
        Some(read) => read,
        None => return Ok(None),
    };
    let (formats, rest) = match formats_of(alloc, width, rest)? {
        Some(read) => read,
        None => return Ok(None),
    };
    let (count, rest) = match uleb_of(rest) {
        Some(read) => read,
        None => return Ok(None),
    };
    if count > 0 && formats.is_empty() {
        return Ok(None);
    }
    entries_like(alloc, sections, formats.as_slice(), count, rest)
}
