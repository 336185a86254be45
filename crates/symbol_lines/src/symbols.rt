// Functions of a symbol table, and their names.
ghost use Rattle.std.specs.Prelude.{◌≡◌, ◌+◌, ◌*◌, ◌/◌, ◌<◌, ◌≤◌, length, map, nat_lt, IfOk};
ghost use Rattle.std.specs.List.{list_any};
ghost use Rattle.std.specs.Option.{option_map};
ghost use Rattle.symbol_lines.specs.Symbols as symbols;
ghost use Rattle.symbol_lines.specs.Kept.{function_span};
ghost use Rattle.symbol_lines.specs.KeptLines.{shown_or_none};

use crate::spans::Span;
use elf_image::bytes::{u32_at, u64_at};
use std::alloc::{AllocError, Global};

const SYMBOL_SIZE: usize = 24;

const STT_FUNC: u8 = 2;

/// The ranges of the functions, in the table's order. A function's rank is its start, and it stands for the offset of
/// its name.
#[tactic(auto, unfolding(crate::specs::Symbols::functions))]
pub fn function_spans(alloc: Global, table: &[u8]) -> Result<Vec<Span>, AllocError>
    ensures { IfOk result (λ v. v.items ≡ map function_span (symbols.functions table.now)) }
{
    let mut spans = Vec::new(alloc);
    for number in 0..table.len() / SYMBOL_SIZE {
        let at = SYMBOL_SIZE * number;
        if table[at + 4] % 16 == STT_FUNC {
            let start = u64_at(table, at + 8);
            spans.push(Span {
                start,
                size: u64_at(table, at + 16),
                rank: start,
                item: u32_at(table, at) as usize,
            })?;
        }
    }
    Ok(spans)
}

/// The bytes as a text that can be shown, if they are UTF-8 and no byte is below 0x20.
pub fn shown_or_none(bytes: &[u8]) -> Option<&str>
    ensures { option_map (λ t. t.now) result ≡ shown_or_none bytes.now }
{
    if has_low_byte(bytes) {
        return None;
    }
    match std::str::from_utf8(bytes) {
        Ok(text) => Some(text),
        Err(_) => None,
    }
}

fn has_low_byte(bytes: &[u8]) -> bool
    ensures { result ≡ list_any (λ b. nat_lt b 0x20) bytes.now }
{
    bytes.iter().any(|byte| *byte < 0x20)
}
