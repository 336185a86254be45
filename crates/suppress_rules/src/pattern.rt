// Patterns, and the texts that they match.
ghost use Rattle.std.specs.Prelude.{◌≡◌, option_map};
ghost use Rattle.suppress_rules.specs.Patterns as patterns;
ghost use Rattle.suppress_rules.specs.Pieces as pieces;
ghost use Rattle.suppress_rules.specs.Texts.{text_view};

use crate::cut::cut_at;
use crate::parts::{Text, behind, first_and_rest, text_ends_with};

/// Whether the pattern matches the text. It compares at most as many bytes as the pattern's length times the text's and one
/// more.
pub fn matches(pattern: &[u8], text: Text<'_>) -> bool
    ensures { result ≡ patterns.matches pattern.now (text_view text.entry) }
{
    if text.is_empty() {
        false
    } else if pattern.starts_with(b"^") {
        matches_here(&pattern[1..], text)
    } else {
        matches_somewhere(pattern, text)
    }
}

// Whether the text begins with what the pattern describes.
fn matches_here(pattern: &[u8], text: Text<'_>) -> bool
    ensures { result ≡ patterns.matches_here pattern.now (text_view text.entry) }
{
    if pattern.ends_with(b"$") {
        matches_body(true, &pattern[..pattern.len() - 1], text)
    } else {
        matches_body(false, pattern, text)
    }
}

// Whether some end of the text begins with what the pattern describes.
fn matches_somewhere(pattern: &[u8], text: Text<'_>) -> bool
    ensures { result ≡ patterns.some_end (patterns.matches_here pattern.now) (text_view text.entry) }
{
    if pattern.ends_with(b"$") {
        matches_body_somewhere(true, &pattern[..pattern.len() - 1], text)
    } else {
        matches_body_somewhere(false, pattern, text)
    }
}

// Whether the text begins with what the pattern describes, and ends there where its end is bound.
fn matches_body(bound: bool, pattern: &[u8], text: Text<'_>) -> bool
    ensures { result ≡ patterns.matches_body bound pattern.now (text_view text.entry) }
{
    match cut_at(pattern, b'*') {
        Some((piece, rest)) => {
            match behind(text, piece) {
                Some(after) => matches_body_somewhere(bound, rest, after),
                None => false,
            }
        }
        None => {
            match behind(text, pattern) {
                Some(after) => !bound || after.is_empty(),
                None => false,
            }
        }
    }
}

// The same of some end of the text. A piece between two stars is taken at the first place where it stands: the star after it
// stands for all that a later place would leave out.
fn matches_body_somewhere(bound: bool, pattern: &[u8], text: Text<'_>) -> bool
    ensures { result ≡ patterns.some_end (patterns.matches_body bound pattern.now) (text_view text.entry) }
{
    let mut pattern = pattern;
    let mut text = text;
    while let Some((piece, rest)) = cut_at(pattern, b'*') {
        match after_piece(piece, text) {
            Some(after) => text = after,
            None => return false,
        }
        pattern = rest;
    }
    if bound {
        text_ends_with(text, pattern)
    } else {
        after_piece(pattern, text).is_some()
    }
}

// What stands after the first place of the piece in the text.
fn after_piece<'a>(piece: &[u8], text: Text<'a>) -> Option<Text<'a>>
    ensures { option_map text_view result ≡ pieces.after_piece piece.now (text_view text.entry) }
{
    let mut rest = text;
    loop {
        if let Some(after) = behind(rest, piece) {
            return Some(after);
        }
        rest = match first_and_rest(rest) {
            Some((_, next)) => next,
            None => return None,
        };
    }
}
