// The options that take a number.
ghost use Rattle.std.specs.Prelude.{◌≡◌, ◌≤◌, true, false, if◌then◌else◌, IfSome, IfNone};
ghost use Rattle.std.specs.List.{list_all};
ghost use Rattle.std.specs.Char.{is_ascii_digit};
ghost use Rattle.command_words.specs.Command.{rows_read};
ghost use Rattle.command_words.specs.Numbers as spec;

use crate::command::text_given;
use clap::ArgMatches;
use run_record::Limits;

fn are_digits(text: &str) -> bool
    ensures { result ≡ list_all is_ascii_digit text.now }
{
    text.bytes().all(|b| b.is_ascii_digit())
}

/// Whether the text is 1 to so many decimal digits.
#[tactic(auto, using(std::proofs::lemmas::Bool::Decides::nat_tests))]
fn is_numeral(text: &str, digits: usize) -> bool
    ensures { result ≡ spec.is_numeral digits text.now }
{
    !text.is_empty() && text.len() <= digits && are_digits(text)
}

/// The number, if it is one from `least` to `most`.
#[tactic(auto, using(std::proofs::lemmas::Bool::Decides::nat_tests))]
fn within(number: u32, least: u32, most: u32) -> Option<u32>
    ensures value { result ≡ (if spec.is_between least most number then Some number else None) }
    ensures range { IfSome result (λ n. (least ≤ n) × (n ≤ most)) }
{
    if least <= number && number <= most {
        Some(number)
    } else {
        None
    }
}

/// The number that a text writes in 1 to so many decimal digits, if it is one from `least` to
/// `most`.
pub fn number_of(text: &str, digits: usize, least: u32, most: u32) -> Option<u32>
    ensures value { result ≡ spec.number_of digits least most text.now }
    ensures range { IfSome result (λ n. (least ≤ n) × (n ≤ most)) }
{
    if !is_numeral(text, digits) {
        return None;
    }
    match text.parse::<u32>() {
        Ok(number) => within(number, least, most),
        Err(_) => None,
    }
}

/// The number of an option: the one that the words give, or the default where they give none;
/// `None` where their text is out of form or of range.
fn number(matches: &ArgMatches, name: &str, least: u32, most: u32, default: u32) -> Option<u32>
    requires { (least ≤ default) × (default ≤ most) }
    ensures value { result ≡ spec.number_in (rows_read matches.now)
        (record { name = name.now; least = least; most = most; default = default }) }
    ensures range { IfSome result (λ n. (least ≤ n) × (n ≤ most)) }
{
    match text_given(matches, name) {
        Some(text) => number_of(text, 10, least, most),
        None => Some(default),
    }
}

/// The numbers of all options.
#[derive(Clone, Copy)]
pub struct Numbers {
    pub limits: Limits,
    pub seed: u32,
    pub size: u32,
}

/// The numbers of all options; `None` where the text of one is out of form or of range.
pub fn numbers_in(matches: &ArgMatches) -> Option<Numbers>
    ensures none { IfNone result (spec.has_numbers (rows_read matches.now) ≡ false) }
    ensures some { IfSome result (λ numbers. spec.has_numbers (rows_read matches.now) ≡ true) }
    ensures limits { IfSome result (λ numbers. numbers.limits ≡ spec.limits_in (rows_read matches.now)) }
    ensures seed { IfSome result (λ numbers. numbers.seed ≡ spec.number (rows_read matches.now) spec.seed) }
    ensures size { IfSome result (λ numbers. numbers.size ≡ spec.number (rows_read matches.now) spec.size) }
{
    let harts = number(matches, "harts", 1, 64, 4)?;
    let slots = number(matches, "slots", 1, 255, 255)?;
    let epochs = number(matches, "epochs", 2, 16_383, 16_383)?;
    let steps = number(matches, "steps", 1, 8_000_000, 1_000_000)?;
    let quantum = number(matches, "quantum", 1, 10_000, 1_000)?;
    let parts = number(matches, "parts", 2, 64, 8)?;
    let part_words = number(matches, "part-words", 64, 4_096, 512)?;
    let seed = number(matches, "seed", 0, u32::MAX, 1)?;
    let size = number(matches, "size", 0, 10_000, 1_000)?;
    Some(Numbers {
        limits: Limits {
            harts,
            slots,
            epochs: epochs as u16,
            steps,
            quantum,
            parts,
            part_words,
        },
        seed,
        size,
    })
}
