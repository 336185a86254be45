// The ends of all texts of a section of texts, found from its end on: each byte is tested once, however many symbols or
// files share a text.
ghost use Rattle.std.specs.Prelude.{◌≡◌, ◌+◌, ◌-◌, ◌<◌, ◌≤◌, ◌&&◌, length, nat_lt, nat_le, IfOk};
ghost use Rattle.symbol_lines.specs.Symbols as symbols;
ghost use Rattle.std.specs.Option.{option_map};
ghost use Rattle.symbol_lines.specs.NameEnds.{name_end, place_in, HasEnds, HasNames, IsBoundary, shown_at};

use std::alloc::{AllocError, Global};
use std::str;

// The byte stands inside a character.
fn is_inside(byte: u8) -> bool
    ensures { result ≡ (nat_le 128 byte && nat_lt byte 192) }
{
    byte >= 128 && byte < 192
}

// Where the name at an offset ends, by the ends of those behind it. What is no place of the table stands for none.
fn end_of(strings: &[u8], ends: &[usize], offset: usize, boundary: usize) -> usize
    requires boundary { IsBoundary strings.now offset boundary }
    requires ends { HasEnds strings.now ends.now }
    requires all { offset + length ends.now + 1 ≡ length strings.now }
    ensures { place_in strings.now result ≡ name_end strings.now offset }
{
    let none = strings.len();
    let byte = strings[offset];
    if byte == 0 {
        return offset;
    }
    if byte < 0x20 || is_inside(byte) {
        return none;
    }
    match str::from_utf8(&strings[offset..boundary]) {
        Err(_) => none,
        Ok(_) => {
            if boundary == none {
                none
            } else {
                ends[none - 1 - boundary]
            }
        }
    }
}

/// Where the names at all offsets end, from the last offset down.
pub fn name_ends(alloc: Global, strings: &[u8]) -> Result<Vec<usize>, AllocError>
    ensures { IfOk result (λ v. HasNames strings.now v.items) }
{
    let mut ends = Vec::with_capacity(alloc, strings.len())?;
    let mut boundary = strings.len();
    let mut offset = strings.len();
    while offset > 0 {
        offset -= 1;
        let end = end_of(strings, ends.as_slice(), offset, boundary);
        ends.push(end)?;
        if !is_inside(strings[offset]) {
            boundary = offset;
        }
    }
    Ok(ends)
}

/// The text at an offset, and none where it has no end or can't be shown.
pub fn shown_at<'a>(strings: &'a [u8], ends: &[usize], offset: usize) -> Option<&'a str>
    requires { HasNames strings.now ends.now }
    ensures { option_map (λ t. t.now) result ≡ shown_at strings.now offset }
{
    if offset >= strings.len() {
        return None;
    }
    let end = ends[strings.len() - 1 - offset];
    if end >= strings.len() {
        return None;
    }
    // The ends are those of names that can be shown, which are UTF-8.
    Some(unsafe { str::from_utf8_unchecked(&strings[offset..end]) })
}

/// The name at an offset of the string table, and an empty one where there is none.
pub fn name_at<'a>(strings: &'a [u8], ends: &[usize], offset: usize) -> &'a str
    requires { HasNames strings.now ends.now }
    ensures { result.now ≡ symbols.name_at strings.now offset }
{
    match shown_at(strings, ends, offset) {
        Some(name) => name,
        None => "",
    }
}
