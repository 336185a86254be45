// Numbers and texts at the front of bytes. Each function gives what it read and the bytes after it.
ghost use Rattle.std.specs.Prelude.{◌≡◌, ◌<◌, ◌==◌, length, position, IfSome};
ghost use Rattle.std.specs.Option.{option_map};
ghost use Rattle.symbol_lines.specs.Reading.{byte_at, half_at, word_at, long_at, bytes_at, uleb_at, uleb_within, sleb_at, sleb_within, text_at};

use elf_image::bytes::{u16_at, u32_at, u64_at};

pub fn byte_of(bytes: &[u8]) -> Option<(u8, &[u8])>
    ensures { option_map (λ x. (x.0, x.1.now)) result ≡ byte_at bytes.now }
{
    match bytes {
        [] => None,
        [first, rest @ ..] => Some((*first, rest)),
    }
}

pub fn half_of(bytes: &[u8]) -> Option<(u16, &[u8])>
    ensures { option_map (λ x. (x.0, x.1.now)) result ≡ half_at bytes.now }
{
    if bytes.len() < 2 {
        return None;
    }
    Some((u16_at(bytes, 0), &bytes[2..]))
}

pub fn word_of(bytes: &[u8]) -> Option<(u32, &[u8])>
    ensures { option_map (λ x. (x.0, x.1.now)) result ≡ word_at bytes.now }
{
    if bytes.len() < 4 {
        return None;
    }
    Some((u32_at(bytes, 0), &bytes[4..]))
}

pub fn long_of(bytes: &[u8]) -> Option<(u64, &[u8])>
    ensures { option_map (λ x. (x.0, x.1.now)) result ≡ long_at bytes.now }
{
    if bytes.len() < 8 {
        return None;
    }
    Some((u64_at(bytes, 0), &bytes[8..]))
}

/// So many bytes.
pub fn bytes_of(count: u64, bytes: &[u8]) -> Option<(&[u8], &[u8])>
    ensures { option_map (λ x. (x.0.now, x.1.now)) result ≡ bytes_at count bytes.now }
{
    if (bytes.len() as u64) < count {
        return None;
    }
    Some(bytes.split_at(count as usize))
}

/// A ULEB128 number.
pub fn uleb_of(bytes: &[u8]) -> Option<(u64, &[u8])>
    ensures { option_map (λ x. (x.0, x.1.now)) result ≡ uleb_at bytes.now }
{
    uleb_of_at_most(10, bytes)
}

#[tactic(auto, unfolding(crate::specs::Reading::uleb_within))]
fn uleb_of_at_most(count: u8, bytes: &[u8]) -> Option<(u64, &[u8])>
    ensures { option_map (λ x. (x.0, x.1.now)) result ≡ uleb_within count bytes.now }
{
    if count == 0 {
        return None;
    }
    let (first, rest) = match bytes {
        [] => return None,
        [first, rest @ ..] => (*first as u64, rest),
    };
    if first < 128 {
        return Some((first, rest));
    }
    let (high, rest) = uleb_of_at_most(count - 1, rest)?;
    if high < 1 << 57 {
        Some((first - 128 + 128 * high, rest))
    } else {
        None
    }
}

/// An SLEB128 number, modulo 2^64.
pub fn sleb_of(bytes: &[u8]) -> Option<(u64, &[u8])>
    ensures { option_map (λ x. (x.0, x.1.now)) result ≡ sleb_at bytes.now }
{
    sleb_of_at_most(10, bytes)
}

#[tactic(auto, unfolding(crate::specs::Reading::sleb_within))]
fn sleb_of_at_most(count: u8, bytes: &[u8]) -> Option<(u64, &[u8])>
    ensures { option_map (λ x. (x.0, x.1.now)) result ≡ sleb_within count bytes.now }
{
    if count == 0 {
        return None;
    }
    let (first, rest) = match bytes {
        [] => return None,
        [first, rest @ ..] => (*first as u64, rest),
    };
    if count == 1 {
        return match first {
            0 => Some((0, rest)),
            127 => Some((u64::MAX, rest)),
            _ => None,
        };
    }
    if first < 64 {
        return Some((first, rest));
    }
    if first < 128 {
        return Some((u64::MAX - 127 + first, rest));
    }
    let (high, rest) = sleb_of_at_most(count - 1, rest)?;
    Some((high.wrapping_mul(128).wrapping_add(first - 128), rest))
}

/// A text that a zero byte ends.
pub fn text_of(bytes: &[u8]) -> Option<(&[u8], &[u8])>
    ensures { option_map (λ x. (x.0.now, x.1.now)) result ≡ text_at bytes.now }
{
    match first_zero(bytes) {
        Some(len) => Some((&bytes[..len], &bytes[len + 1..])),
        None => None,
    }
}

fn first_zero(bytes: &[u8]) -> Option<usize>
    ensures value { result ≡ position (λ b. b == 0) bytes.now }
    ensures within { IfSome result (λ k. k < length bytes.now) }
{
    bytes.iter().position(|byte| *byte == 0)
}
