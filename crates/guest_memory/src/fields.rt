// Some bytes of a granule's word.
ghost use Rattle.std.specs.Prelude.{◌≡◌};
ghost use Rattle.guest_memory.specs.Fields as words;
ghost use Rattle.guest_memory.specs.Fields.{IsField};

/// The number that `size` bytes of a word make, from byte `offset` on, the least first.
pub fn field(word: u64, offset: u8, size: u8) -> u64
    requires { IsField offset size }
    ensures { result ≡ words.field word offset size }
{
    if size == 8 {
        return word;
    }
    (word >> (8 * offset)) % (1 << (8 * size))
}

/// The word with the low `size` bytes of a value in place of its own from byte `offset` on.
pub fn with_field(word: u64, offset: u8, size: u8, value: u64) -> u64
    requires { IsField offset size }
    ensures { result ≡ words.with_field word offset size value }
{
    if size == 8 {
        return value;
    }
    let old = field(word, offset, size);
    let new = value % (1 << (8 * size));
    word - (old << (8 * offset)) + (new << (8 * offset))
}
