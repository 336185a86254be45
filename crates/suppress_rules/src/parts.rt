// Texts in parts.
ghost use Rattle.std.specs.Prelude.{◌≡◌, ◌==◌, ◌-◌, ◌++◌, length, drop, option_map};
ghost use Rattle.std.specs.List.{ends_with};
ghost use Rattle.suppress_rules.specs.Texts as texts;
ghost use Rattle.suppress_rules.specs.Texts.{text_view};
ghost use Rattle.symbol_lines.specs.FileTexts.{text_of};

use symbol_lines::FileText;

/// A text: its three parts, one after the other.
#[derive(Clone, Copy)]
pub struct Text<'a> {
    pub front: &'a [u8],
    pub middle: &'a [u8],
    pub back: &'a [u8],
}

impl<'a> Text<'a> {
    /// A text in one part.
    pub fn of_bytes(bytes: &'a [u8]) -> Text<'a>
        ensures { text_view result ≡ bytes.now }
    {
        Text {
            front: &bytes[..0],
            middle: &bytes[..0],
            back: bytes,
        }
    }

    /// The text of a file.
    pub fn of_file(file: FileText<'a>) -> Text<'a>
        ensures { text_view result ≡ text_of file.entry }
    {
        match file.directory {
            None => Text::of_bytes(file.name.as_bytes()),
            Some(directory) => {
                Text {
                    front: directory.as_bytes(),
                    middle: b"/",
                    back: file.name.as_bytes(),
                }
            }
        }
    }

    pub fn is_empty(&self) -> bool
        ensures { result ≡ (length (text_view self.now) == 0) }
    {
        self.front.is_empty() && self.middle.is_empty() && self.back.is_empty()
    }
}

fn first_byte(bytes: &[u8]) -> Option<(u8, &[u8])>
    ensures { option_map (λ x. (x.0, x.1.now)) result ≡ texts.first_and_rest bytes.now }
{
    match bytes {
        [] => None,
        [first, rest @ ..] => Some((*first, rest)),
    }
}

// The first byte of two parts, and what follows it.
fn first_of_two<'a>(middle: &'a [u8], back: &'a [u8]) -> Option<(u8, Text<'a>)>
    ensures { option_map (λ x. (x.0, text_view x.1)) result ≡ texts.first_and_rest (middle.now ++ back.now) }
{
    match first_byte(middle) {
        Some((first, middle)) => {
            let rest = Text {
                front: &middle[..0],
                middle,
                back,
            };
            Some((first, rest))
        }
        None => {
            let (first, back) = first_byte(back)?;
            Some((first, Text::of_bytes(back)))
        }
    }
}

/// The first byte of a text, and what follows it.
pub fn first_and_rest(text: Text<'_>) -> Option<(u8, Text<'_>)>
    ensures { option_map (λ x. (x.0, text_view x.1)) result ≡ texts.first_and_rest (text_view text.entry) }
{
    let Text {
        front,
        middle,
        back,
    } = text;
    match first_byte(front) {
        Some((first, front)) => {
            let rest = Text {
                front,
                middle,
                back,
            };
            Some((first, rest))
        }
        None => first_of_two(middle, back),
    }
}

/// What stands behind a piece with which the text begins, and none where it begins with something else.
pub fn behind<'a>(text: Text<'a>, piece: &[u8]) -> Option<Text<'a>>
    ensures { option_map text_view result ≡ texts.behind piece.now (text_view text.entry) }
{
    let mut rest = text;
    for byte in piece {
        let (first, after) = match first_and_rest(rest) {
            Some(read) => read,
            None => return None,
        };
        if first != *byte {
            return None;
        }
        rest = after;
    }
    Some(rest)
}

// A part without its first bytes, and how many more are to go.
fn part_without(part: &[u8], count: u128) -> (&[u8], u128)
    ensures rest { result.0.now ≡ drop count part.now }
    ensures left { result.1 ≡ count - length part.now }
{
    let len = part.len();
    if count <= len as u128 {
        (&part[count as usize..], 0)
    } else {
        (&part[len..], count - len as u128)
    }
}

// A text without so many bytes at its front.
fn without(text: Text<'_>, count: u128) -> Text<'_>
    ensures { text_view result ≡ drop count (text_view text.entry) }
{
    let (front, count) = part_without(text.front, count);
    let (middle, count) = part_without(text.middle, count);
    let (back, _) = part_without(text.back, count);
    Text {
        front,
        middle,
        back,
    }
}

fn len(text: Text<'_>) -> u128
    ensures { result ≡ length (text_view text.entry) }
{
    text.front.len() as u128 + (text.middle.len() as u128 + text.back.len() as u128)
}

/// Whether the text ends with the piece.
pub fn text_ends_with(text: Text<'_>, piece: &[u8]) -> bool
    ensures { result ≡ ends_with ◌==◌ (text_view text.entry) piece.now }
{
    let last = without(text, len(text).saturating_sub(piece.len() as u128));
    behind(last, piece).is_some()
}
