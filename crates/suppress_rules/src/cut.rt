// Bytes that are cut at a byte.
ghost use Rattle.std.specs.Prelude.{◌≡◌, ◌==◌, false, MatchOption, All, ◌∷◌, ◌++◌};

/// What stands before and after the first such byte, if there is one.
pub fn cut_at(bytes: &[u8], byte: u8) -> Option<(&[u8], &[u8])>
    ensures { MatchOption result (All (λ b. (b == byte) ≡ false) bytes.now)
        (λ cut. (bytes.now ≡ cut.0.now ++ byte ∷ cut.1.now) × All (λ b. (b == byte) ≡ false) cut.0.now) }
{
    let at = bytes.iter().position(|b| *b == byte)?;
    Some((&bytes[..at], &bytes[at + 1..]))
}
