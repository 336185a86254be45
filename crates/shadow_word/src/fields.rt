// The fields of a cell's word.
ghost use Rattle.std.specs.Prelude.{◌≡◌};
ghost use Rattle.run_laws.specs.Words.{mask, sid, epoch, is_read, is_atomic, era};

// Which of the granule's bytes: bits 0 to 7.
pub fn mask_of(word: u64) -> u8
    ensures { result ≡ mask word }
{
    (word % 0x100) as u8
}

// Bits 8 to 15.
pub fn sid_of(word: u64) -> u8
    ensures { result ≡ sid word }
{
    ((word >> 8) % 0x100) as u8
}

// Bits 16 to 29.
pub fn epoch_of(word: u64) -> u16
    ensures { result ≡ epoch word }
{
    ((word >> 16) % 0x4000) as u16
}

// Bit 30.
pub fn reads(word: u64) -> bool
    ensures { result ≡ is_read word }
{
    (word >> 30) % 2 == 1
}

// Bit 31.
pub fn is_of_atomic(word: u64) -> bool
    ensures { result ≡ is_atomic word }
{
    (word >> 31) % 2 == 1
}

// Bits 32 to 63.
pub fn era_of(word: u64) -> u32
    ensures { result ≡ era word }
{
    (word >> 32) as u32
}
