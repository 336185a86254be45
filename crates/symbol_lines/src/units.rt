// Line units: their headers, and the sequences that their programs give.
ghost use Rattle.std.specs.Prelude.{◌≡◌, map, length, fold, IfOk};
ghost use Rattle.std.specs.Option.{option_map};
ghost use Rattle.symbol_lines.specs.Program.{directories_at, files_at, lists_at, after_sizes, unit_at, operations_in};
ghost use Rattle.symbol_lines.specs.Kept.{perform_kept};
ghost use Rattle.symbol_lines.specs.Views.{rules_view, entry_view, unit_view};
ghost use Rattle.symbol_lines.specs.MachineViews.{machine_view};
ghost use Rattle.symbol_lines.specs.SectionViews.{sections_view};

use crate::entries::entries_of;
use crate::machine::Machine;
use crate::operations::{file_after, named, operation_of, rules_of};
use crate::program::{Entry, Rules, Unit};
use crate::reading::{byte_of, bytes_of, half_of, text_of, word_of};
use crate::text_sections::TextSections;
use std::alloc::{AllocError, Global};

/// Texts up to an empty one, and the bytes after it.
fn directories_of(
    alloc: Global,
    bytes: &[u8],
) -> Result<Option<(Vec<Entry<'_>>, &[u8])>, AllocError>
    ensures { IfOk result (λ o. option_map (λ x. (map entry_view x.0.items, x.1.now)) o
        ≡ directories_at (length bytes.now) bytes.now) }
{
    let mut found = Vec::new(alloc);
    let mut rest = bytes;
    for _ in 0..bytes.len() {
        let (text, after) = match text_of(rest) {
            Some(read) => read,
            None => return Ok(None),
        };
        if text.is_empty() {
            return Ok(Some((found, after)));
        }
        found.push(named(text, 0))?;
        rest = after;
    }
    Ok(None)
}

/// Files up to one with an empty name.
fn files_of(alloc: Global, bytes: &[u8]) -> Result<Option<Vec<Entry<'_>>>, AllocError>
    ensures { IfOk result (λ o. option_map (λ v. map entry_view v.items) o ≡ files_at (length bytes.now) bytes.now) }
{
    let mut found = Vec::new(alloc);
    let mut rest = bytes;
    for _ in 0..bytes.len() {
        let (name, after) = match text_of(rest) {
            Some(read) => read,
            None => return Ok(None),
        };
        if name.is_empty() {
            return Ok(Some(found));
        }
        let (entry, after) = match file_after(name, after) {
            Some(read) => read,
            None => return Ok(None),
        };
        found.push(entry)?;
        rest = after;
    }
    Ok(None)
}

/// The lists of directories and files.
#[tactic(auto, unfolding(crate::specs::Program::lists_at))]
fn lists_of<'a>(
    alloc: Global,
    sections: &TextSections<'_>,
    version: u16,
    bytes: &'a [u8],
) -> Result<Option<(Vec<Entry<'a>>, Vec<Entry<'a>>)>, AllocError>
    ensures { let s = sections_view sections.now in
        IfOk result (λ o. option_map (λ x. (map entry_view x.0.items, map entry_view x.1.items)) o
        ≡ lists_at s version bytes.now) }
{
    if version == 5 {
        let (directories, rest) = match entries_of(alloc, sections, bytes)? {
            Some(read) => read,
            None => return Ok(None),
        };
        match entries_of(alloc, sections, rest)? {
            Some((files, _)) => Ok(Some((directories, files))),
            None => Ok(None),
        }
    } else {
        let (directories, rest) = match directories_of(alloc, bytes)? {
            Some(read) => read,
            None => return Ok(None),
        };
        match files_of(alloc, rest)? {
            Some(files) => Ok(Some((directories, files))),
            None => Ok(None),
        }
    }
}

/// The bytes after the sizes of an address and of a segment selector, which version 5 tells: 8 and 0.
fn after_sizes(version: u16, bytes: &[u8]) -> Option<&[u8]>
    ensures { option_map (λ x. x.now) result ≡ after_sizes version bytes.now }
{
    if version != 5 {
        return Some(bytes);
    }
    let (address, rest) = byte_of(bytes)?;
    let (selector, rest) = byte_of(rest)?;
    if address == 8 && selector == 0 {
        Some(rest)
    } else {
        None
    }
}

/// A unit, from its version on. Versions 2 to 5 are read.
#[tactic(auto, unfolding(crate::specs::Program::unit_at))]
pub fn unit_of<'a>(
    alloc: Global,
    sections: &TextSections<'_>,
    bytes: &'a [u8],
) -> Result<Option<Unit<'a>>, AllocError>
    ensures { IfOk result (λ o. option_map unit_view o ≡ unit_at (sections_view sections.now) bytes.now) }
{
    let (version, rest) = match half_of(bytes) {
        Some(read) => read,
        None => return Ok(None),
    };
    if version < 2 || version > 5 {
        return Ok(None);
    }
    let rest = match after_sizes(version, rest) {
        Some(rest) => rest,
        None => return Ok(None),
    };
    let (len, rest) = match word_of(rest) {
        Some(read) => read,
        None => return Ok(None),
    };
    let program = match bytes_of(len as u64, rest) {
        Some((_, program)) => program,
        None => return Ok(None),
    };
    let (rules, rest) = match rules_of(version, rest) {
        Some(read) => read,
        None => return Ok(None),
    };
    let (directories, files) = match lists_of(alloc, sections, version, rest)? {
        Some(read) => read,
        None => return Ok(None),
    };
    Ok(Some(Unit {
        rules,
        directories,
        files,
        program,
    }))
}

/// The machine after a whole program, and None where the program is malformed.
pub fn run<'a>(
    alloc: Global,
    rules: &Rules<'a>,
    program: &'a [u8],
    machine: Machine<'a>,
) -> Result<Option<Machine<'a>>, AllocError>
    ensures { IfOk result (λ o. option_map machine_view o
        ≡ option_map (fold perform_kept (machine_view machine.entry)) (operations_in (rules_view rules.now) (length program.now) program.now)) }
{
    let mut machine = machine;
    let mut rest = program;
    for _ in 0..program.len() {
        if rest.is_empty() {
            return Ok(Some(machine));
        }
        let (operation, after) = match operation_of(rules, rest) {
            Some(read) => read,
            None => return Ok(None),
        };
        machine.perform(alloc, operation)?;
        rest = after;
    }
    if rest.is_empty() {
        Ok(Some(machine))
    } else {
        Ok(None)
    }
}
