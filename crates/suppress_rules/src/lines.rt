// The lines of a file of rules.
ghost use Rattle.std.specs.Prelude.{◌≡◌, option_map, MatchResult, Ok, Err};
ghost use Rattle.std.specs.List.{before_first, after_first};
ghost use Rattle.suppress_rules.specs.RuleFile as file;

use crate::cut::cut_at;
use crate::fault::RuleFault;
use crate::rule::Kind;

fn is_blank(byte: u8) -> bool
    ensures { result ≡ file.is_blank byte }
{
    byte == b' ' || byte == b'\t' || byte == b'\r'
}

fn trimmed_start(line: &[u8]) -> &[u8]
    ensures { result.now ≡ file.trimmed_start line.now }
{
    let mut rest = line;
    while let Some((first, more)) = rest.split_first() {
        if !is_blank(*first) {
            break;
        }
        rest = more;
    }
    rest
}

/// The line without the spaces, tabs and carriage returns at both ends.
pub fn trimmed(line: &[u8]) -> &[u8]
    ensures { result.now ≡ file.trimmed line.now }
{
    let mut rest = trimmed_start(line);
    while let Some((last, front)) = rest.split_last() {
        if !is_blank(*last) {
            break;
        }
        rest = front;
    }
    rest
}

/// The first line, and what follows its newline.
pub fn first_line(bytes: &[u8]) -> (&[u8], &[u8])
    ensures line { result.0.now ≡ before_first file.is_newline bytes.now }
    ensures below { result.1.now ≡ after_first file.is_newline bytes.now }
{
    match cut_at(bytes, b'\n') {
        Some(cut) => cut,
        None => (bytes, &bytes[bytes.len()..]),
    }
}

fn kind_of(name: &[u8]) -> Option<Kind>
    ensures { result ≡ file.kind_of name.now }
{
    match name {
        b"race" => Some(Kind::Race),
        b"race_top" => Some(Kind::RaceTop),
        b"thread" | b"mutex" | b"signal" | b"deadlock" | b"called_from_lib" => Some(Kind::NeverMet),
        _ => None,
    }
}

/// The kind and the pattern of the rule in a trimmed line of this number, if it has one.
pub fn rule_in(number: u64, line: &[u8]) -> Result<Option<(Kind, &[u8])>, RuleFault>
    ensures { MatchResult result
        (λ found. file.rule_in number line.now ≡ Ok (option_map (λ rule. record { kind = rule.0; pattern = rule.1.now }) found))
        (λ fault. file.rule_in number line.now ≡ Err fault) }
{
    if line.is_empty() || line.starts_with(b"#") {
        return Ok(None);
    }
    let Some((name, pattern)) = cut_at(line, b':') else {
        return Err(RuleFault::NoColon(number));
    };
    match kind_of(name) {
        Some(kind) => Ok(Some((kind, pattern))),
        None => Err(RuleFault::UnknownType(number)),
    }
}
