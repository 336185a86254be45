// The sections of texts that line units name, with the ends of all their texts.
ghost use Rattle.std.specs.Prelude.{◌≡◌, ◌-◌, IfOk};
ghost use Rattle.symbol_lines.specs.NameEnds.{HasNames, HasTextsBelow};

use crate::name_table::{name_ends, shown_at};
use std::alloc::{AllocError, Global};

/// A section of texts that zero bytes end.
#[derive(Drop)]
pub struct TextSection<'a> {
    pub bytes: &'a [u8],
    /// Where each text ends that can be shown, from the last offset down.
    ends: Vec<usize>,
    /// The place behind the last zero byte.
    ended: usize,
    ghost names: { HasNames bytes.now ends.items },
    ghost texts: { HasTextsBelow bytes.now ended },
}

/// The sections .debug_str and .debug_line_str.
#[derive(Drop)]
pub struct TextSections<'a> {
    pub strings: TextSection<'a>,
    pub line_strings: TextSection<'a>,
}

/// The place behind the last zero byte, and 0 where there is none.
fn ended_of(bytes: &[u8]) -> usize
    ensures { HasTextsBelow bytes.now result }
{
    let mut ended = bytes.len();
    while ended > 0 && bytes[ended - 1] != 0 {
        ended -= 1;
    }
    ended
}

impl<'a> TextSection<'a> {
    ghost use Rattle.std.specs.Option.{option_map};
    ghost use Rattle.symbol_lines.specs.Paths as paths;
    ghost use Rattle.symbol_lines.specs.NameEnds as name_ends;

    /// A section, and an empty one where there is none.
    pub fn read(alloc: Global, bytes: &'a [u8]) -> Result<TextSection<'a>, AllocError>
        ensures { IfOk result (λ s. s.bytes.now ≡ bytes.now) }
    {
        let ends = name_ends(alloc, bytes)?;
        let ended = ended_of(bytes);
        Ok(TextSection { bytes, ends, ended })
    }

    /// The text at an offset has an end.
    pub fn has_text(&self, offset: u32) -> bool
        ensures { result ≡ paths.has_text self.now.bytes.now offset }
    {
        (offset as usize) < self.ended
    }

    /// The text at an offset, if it has an end and can be shown.
    pub fn text_at(&self, offset: u32) -> Option<&'a str>
        ensures { option_map (λ t. t.now) result ≡ name_ends.shown_at self.now.bytes.now offset }
    {
        shown_at(self.bytes, self.ends.as_slice(), offset as usize)
    }
}
