// The texts of a unit's files, in parts: of each directory and of each path it is tested once whether it can be shown.
ghost use Rattle.std.specs.Prelude.{◌≡◌, ◌==◌, ◌≤◌, map, slice_index, IfOk};
ghost use Rattle.std.specs.Option.{option_map};
ghost use Rattle.symbol_lines.specs.FileTexts as texts;
ghost use Rattle.symbol_lines.specs.Lines.{first_number};
ghost use Rattle.symbol_lines.specs.KeptLines.{path_or_none, shown_entry, text_in, texts_view, files_view};
ghost use Rattle.symbol_lines.specs.SectionViews.{sections_view};
ghost use Rattle.symbol_lines.specs.Views.{path_view, entry_view};

use crate::frames::FileText;
use crate::program::{Entry, Path};
use crate::symbols::shown_or_none;
use crate::text_sections::TextSections;
use std::alloc::{AllocError, Global};

/// The texts of a unit's files, and the number of the first one.
#[derive(Drop)]
pub struct FileList<'a> {
    pub first: u64,
    pub texts: Vec<FileText<'a>>,
}

fn begins_with_slash(path: &str) -> bool
    ensures { result ≡ (slice_index path.now 0 == 47) }
{
    match path.as_bytes() {
        [] => false,
        [first, ..] => *first == b'/',
    }
}

fn shown_path<'a>(sections: &TextSections<'a>, path: Path<'a>) -> Option<&'a str>
    ensures { option_map (λ t. t.now) result
        ≡ path_or_none (sections_view sections.now) (path_view path.entry) }
{
    match path {
        Path::InUnit(text) => shown_or_none(text),
        Path::InStrings(offset) => sections.strings.text_at(offset),
        Path::InLineStrings(offset) => sections.line_strings.text_at(offset),
    }
}

/// The path of an entry, if it is told and can be shown.
fn shown_entry<'a>(sections: &TextSections<'a>, entry: Entry<'a>) -> Option<&'a str>
    ensures { option_map (λ t. t.now) result
        ≡ shown_entry (sections_view sections.now) (entry_view entry.entry) }
{
    match entry.path {
        Some(path) => shown_path(sections, path),
        None => None,
    }
}

/// The directories, without those that can't be shown.
fn shown_directories<'a>(
    alloc: Global,
    sections: &TextSections<'a>,
    directories: &[Entry<'a>],
) -> Result<Vec<Option<&'a str>>, AllocError>
    ensures { IfOk result (λ v. map (option_map (λ d. d.now)) v.items
        ≡ map (shown_entry (sections_view sections.now)) (map entry_view directories.now)) }
{
    let mut shown = Vec::new(alloc);
    for directory in directories {
        shown.push(shown_entry(sections, *directory))?;
    }
    Ok(shown)
}

/// A file's text: its path alone where it is in directory 0 or begins with '/', and else behind its directory. It is empty
/// where no path is told or there is no such directory, and where a part can't be shown.
fn text_of<'a>(
    sections: &TextSections<'a>,
    first: u64,
    directories: &[Option<&'a str>],
    file: Entry<'a>,
) -> FileText<'a>
    requires { first ≤ 1 }
    ensures { let shown = map (option_map (λ d. d.now)) directories.now in
        texts.text_of result
        ≡ text_in (sections_view sections.now) first shown (entry_view file.entry) }
{
    let name = match shown_entry(sections, file) {
        Some(name) => name,
        None => return FileText::of_name(""),
    };
    if file.directory == 0 || begins_with_slash(name) {
        return FileText::of_name(name);
    }
    let index = file.directory - first;
    if index >= directories.len() as u64 {
        return FileText::of_name("");
    }
    match directories[index as usize] {
        Some(directory) => {
            FileText {
                directory: Some(directory),
                name,
            }
        }
        None => FileText::of_name(""),
    }
}

/// The texts of files, in their order.
fn texts_of<'a>(
    alloc: Global,
    sections: &TextSections<'a>,
    first: u64,
    directories: &[Option<&'a str>],
    files: &[Entry<'a>],
) -> Result<Vec<FileText<'a>>, AllocError>
    requires { first ≤ 1 }
    ensures { let shown = map (option_map (λ d. d.now)) directories.now in
        IfOk result (λ v. texts_view v
        ≡ map (text_in (sections_view sections.now) first shown) (map entry_view files.now)) }
{
    let mut texts = Vec::new(alloc);
    for file in files {
        texts.push(text_of(sections, first, directories, *file))?;
    }
    Ok(texts)
}

/// Directories and files are counted from 1 in versions 2 to 4, and from 0 in version 5.
fn first_number(version: u16) -> u64
    ensures { result ≡ first_number version }
{
    if version < 5 { 1 } else { 0 }
}

/// The files of a unit of a version.
pub fn file_list<'a>(
    alloc: Global,
    sections: &TextSections<'a>,
    version: u16,
    directories: &[Entry<'a>],
    files: &[Entry<'a>],
) -> Result<FileList<'a>, AllocError>
    ensures { let s = sections_view sections.now in
        let first = first_number version in
        let shown = map (shown_entry s) (map entry_view directories.now) in
        IfOk result (λ l. files_view l
        ≡ record { first = first; texts = map (text_in s first shown) (map entry_view files.now) }) }
{
    let first = first_number(version);
    let shown = shown_directories(alloc, sections, directories)?;
    let texts = texts_of(alloc, sections, first, shown.as_slice(), files)?;
    Ok(FileList { first, texts })
}
