// Reading a unit's header and the operations of its program.
ghost use Rattle.std.specs.Prelude.{◌≡◌, ◌<◌, length};
ghost use Rattle.std.specs.Option.{option_map};
ghost use Rattle.symbol_lines.specs.Program as line_program;
ghost use Rattle.symbol_lines.specs.Views.{rules_view, entry_view, operation_view};

use crate::program::{Entry, Operation, Path, Rules};
use crate::reading::{byte_of, bytes_of, half_of, long_of, sleb_of, text_of, uleb_of};

const NOTHING: Operation = Operation::Advance(0, 0);

fn signed_byte(byte: u8) -> u64
    ensures { result ≡ line_program.signed_byte byte }
{
    if byte < 128 {
        byte as u64
    } else {
        u64::MAX - 255 + byte as u64
    }
}

fn after_single_operations(version: u16, bytes: &[u8]) -> Option<&[u8]>
    ensures { option_map (λ x. x.now) result ≡ line_program.single_operations_at version bytes.now }
{
    if version < 4 {
        return Some(bytes);
    }
    let (count, rest) = byte_of(bytes)?;
    if count == 1 { Some(rest) } else { None }
}

/// The fields of a header from minimum_instruction_length up to the operand counts.
#[tactic(auto, unfolding(crate::specs::Program::rules_at))]
pub fn rules_of(version: u16, bytes: &[u8]) -> Option<(Rules<'_>, &[u8])>
    ensures { option_map (λ x. (rules_view x.0, x.1.now)) result ≡ line_program.rules_at version bytes.now }
{
    let (minimum_length, rest) = byte_of(bytes)?;
    let rest = after_single_operations(version, rest)?;
    let (_, rest) = byte_of(rest)?;
    let (base, rest) = byte_of(rest)?;
    let (line_range, rest) = byte_of(rest)?;
    let (opcode_base, rest) = byte_of(rest)?;
    if line_range == 0 || opcode_base == 0 {
        return None;
    }
    let (operand_counts, rest) = bytes_of(opcode_base as u64 - 1, rest)?;
    let rules = Rules {
        version,
        minimum_length,
        line_base: signed_byte(base),
        line_range,
        opcode_base,
        operand_counts,
    };
    Some((rules, rest))
}

/// A path of a unit's own in a directory.
pub fn named<'a>(name: &'a [u8], directory: u64) -> Entry<'a>
    ensures { entry_view result ≡ line_program.named name.now directory }
{
    Entry {
        path: Some(Path::InUnit(name)),
        directory,
    }
}

/// What follows the name of a file: its directory, its time and its length.
pub fn file_after<'a>(name: &'a [u8], bytes: &'a [u8]) -> Option<(Entry<'a>, &'a [u8])>
    ensures { option_map (λ x. (entry_view x.0, x.1.now)) result ≡ line_program.file_after name.now bytes.now }
{
    let (directory, rest) = uleb_of(bytes)?;
    let (_, rest) = uleb_of(rest)?;
    let (_, rest) = uleb_of(rest)?;
    Some((named(name, directory), rest))
}

/// How far a special opcode moves the address.
fn address_advance(rules: &Rules<'_>, opcode: u8) -> u64
    ensures { result ≡ line_program.address_advance (rules_view rules.now) opcode }
{
    (opcode.saturating_sub(rules.opcode_base) / rules.line_range) as u64
        * rules.minimum_length as u64
}

fn line_advance(rules: &Rules<'_>, opcode: u8) -> u64
    ensures { result ≡ line_program.line_advance (rules_view rules.now) opcode }
{
    rules.line_base.wrapping_add(
        (opcode.saturating_sub(rules.opcode_base) % rules.line_range) as u64,
    )
}

/// So many ULEB128 numbers are passed over.
#[tactic(auto, unfolding(crate::specs::Program::after_numbers))]
fn after_numbers(count: u8, bytes: &[u8]) -> Option<&[u8]>
    ensures { option_map (λ x. x.now) result ≡ line_program.after_numbers count bytes.now }
{
    if count == 0 {
        return Some(bytes);
    }
    let (_, rest) = uleb_of(bytes)?;
    after_numbers(count - 1, rest)
}

/// A standard opcode's operands.
#[tactic(auto, unfolding(crate::specs::Program::standard_at))]
fn standard_of<'a>(
    rules: &Rules<'a>,
    opcode: u8,
    bytes: &'a [u8],
) -> Option<(Operation<'a>, &'a [u8])>
    requires some { 0 < opcode }
    requires standard { opcode < rules.now.opcode_base }
    ensures { option_map (λ x. (operation_view x.0, x.1.now)) result ≡ line_program.standard_at (rules_view rules.now) opcode bytes.now }
{
    if opcode == 1 {
        Some((Operation::AddRow(0, 0), bytes))
    } else if opcode == 2 {
        let (count, rest) = uleb_of(bytes)?;
        let by = count.wrapping_mul(rules.minimum_length as u64);
        Some((Operation::Advance(by, 0), rest))
    } else if opcode == 3 {
        let (lines, rest) = sleb_of(bytes)?;
        Some((Operation::Advance(0, lines), rest))
    } else if opcode == 4 {
        let (file, rest) = uleb_of(bytes)?;
        Some((Operation::SetFile(file), rest))
    } else if opcode == 8 {
        Some((Operation::Advance(address_advance(rules, 255), 0), bytes))
    } else if opcode == 9 {
        let (by, rest) = half_of(bytes)?;
        Some((Operation::Advance(by as u64, 0), rest))
    } else if opcode == 5 || opcode == 12 {
        Some((NOTHING, after_numbers(1, bytes)?))
    } else if opcode < 13 {
        Some((NOTHING, bytes))
    } else {
        let count = rules.operand_counts[opcode as usize - 1];
        Some((NOTHING, after_numbers(count, bytes)?))
    }
}

/// The bytes of an extended operation, from its own opcode on. Version 5 has no define_file.
#[tactic(auto, unfolding(crate::specs::Program::extended_in))]
fn extended_in(version: u16, body: &[u8]) -> Option<Operation<'_>>
    ensures { option_map operation_view result ≡ line_program.extended_in version body.now }
{
    let (opcode, bytes) = match body {
        [] => return Some(NOTHING),
        [opcode, bytes @ ..] => (*opcode, bytes),
    };
    if opcode == 1 {
        Some(Operation::EndSequence)
    } else if opcode == 2 {
        if bytes.len() != 8 {
            return None;
        }
        let (address, _) = long_of(bytes)?;
        Some(Operation::SetAddress(address))
    } else if opcode == 3 && version < 5 {
        let (name, rest) = text_of(bytes)?;
        let (entry, _) = file_after(name, rest)?;
        Some(Operation::DefineFile(entry))
    } else {
        Some(NOTHING)
    }
}

#[tactic(auto, unfolding(crate::specs::Program::extended_at))]
fn extended_of(version: u16, bytes: &[u8]) -> Option<(Operation<'_>, &[u8])>
    ensures { option_map (λ x. (operation_view x.0, x.1.now)) result ≡ line_program.extended_at version bytes.now }
{
    let (len, rest) = uleb_of(bytes)?;
    let (body, rest) = bytes_of(len, rest)?;
    let operation = extended_in(version, body)?;
    Some((operation, rest))
}

/// The operation at the front of a program.
#[tactic(auto, unfolding(crate::specs::Program::operation_at))]
pub fn operation_of<'a>(rules: &Rules<'a>, bytes: &'a [u8]) -> Option<(Operation<'a>, &'a [u8])>
    ensures { option_map (λ x. (operation_view x.0, x.1.now)) result ≡ line_program.operation_at (rules_view rules.now) bytes.now }
{
    let (opcode, rest) = byte_of(bytes)?;
    if rules.opcode_base <= opcode {
        let row = Operation::AddRow(address_advance(rules, opcode), line_advance(rules, opcode));
        Some((row, rest))
    } else if opcode == 0 {
        extended_of(rules.version, rest)
    } else {
        standard_of(rules, opcode, rest)
    }
}
