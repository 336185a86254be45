// What RV64I and M compute of two words.
ghost use Rattle.std.specs.Prelude.{◌≡◌, ◌%◌, ◌^◌};
ghost use Rattle.std.specs.Int.{w32};
ghost use Rattle.rv_exec.specs.Words as words;

/// The low half of a word.
pub fn low(word: u64) -> u32
    ensures { result ≡ words.low word }
{
    (word % 0x1_0000_0000) as u32
}

/// A number of 32 bits, sign-extended.
pub fn extend(half: u32) -> u64
    ensures { result ≡ words.extend w32 half }
{
    i64::from(half.cast_signed()).cast_unsigned()
}

pub fn shift_left(a: u64, b: u64) -> u64
    ensures { result ≡ words.shift_left a b }
{
    a << (b % 64)
}

pub fn shift_right(a: u64, b: u64) -> u64
    ensures { result ≡ words.shift_right a b }
{
    a >> (b % 64)
}

pub fn shift_right_signed(a: u64, b: u64) -> u64
    ensures { result ≡ words.shift_right_signed a b }
{
    (a.cast_signed() >> (b % 64)).cast_unsigned()
}

pub fn less(a: u64, b: u64) -> u64
    ensures { result ≡ words.less a b }
{
    u64::from(a.cast_signed() < b.cast_signed())
}

pub fn less_unsigned(a: u64, b: u64) -> u64
    ensures { result ≡ words.less_unsigned a b }
{
    u64::from(a < b)
}

pub fn add_w(a: u64, b: u64) -> u64
    ensures { result ≡ words.add_w a b }
{
    extend(low(a).wrapping_add(low(b)))
}

pub fn sub_w(a: u64, b: u64) -> u64
    ensures { result ≡ words.sub_w a b }
{
    extend(low(a).wrapping_sub(low(b)))
}

pub fn shift_left_w(a: u64, b: u64) -> u64
    ensures { result ≡ words.shift_left_w a b }
{
    extend(low(a) << (b % 32))
}

pub fn shift_right_w(a: u64, b: u64) -> u64
    ensures { result ≡ words.shift_right_w a b }
{
    extend(low(a) >> (b % 32))
}

pub fn shift_right_signed_w(a: u64, b: u64) -> u64
    ensures { result ≡ words.shift_right_signed_w a b }
{
    i64::from(low(a).cast_signed() >> (b % 32)).cast_unsigned()
}

pub fn multiply_high(a: u64, b: u64) -> u64
    ensures { result ≡ words.multiply_high a b }
{
    let product = i128::from(a.cast_signed()) * i128::from(b.cast_signed());
    ((product >> 64) as i64).cast_unsigned()
}

pub fn multiply_high_mixed(a: u64, b: u64) -> u64
    ensures { result ≡ words.multiply_high_mixed a b }
{
    let product = i128::from(a.cast_signed()) * i128::from(b);
    ((product >> 64) as i64).cast_unsigned()
}

pub fn multiply_high_unsigned(a: u64, b: u64) -> u64
    ensures { result ≡ words.multiply_high_unsigned a b }
{
    let product = u128::from(a) * u128::from(b);
    (product >> 64) as u64
}

pub fn divide(a: u64, b: u64) -> u64
    ensures { result ≡ words.divide a b }
{
    if b == 0 {
        return u64::MAX;
    }
    a.cast_signed()
        .wrapping_div(b.cast_signed())
        .cast_unsigned()
}

pub fn divide_unsigned(a: u64, b: u64) -> u64
    ensures { result ≡ words.divide_unsigned a b }
{
    if b == 0 { u64::MAX } else { a / b }
}

pub fn remainder(a: u64, b: u64) -> u64
    ensures { result ≡ words.remainder a b }
{
    if b == 0 {
        return a;
    }
    a.cast_signed()
        .wrapping_rem(b.cast_signed())
        .cast_unsigned()
}

pub fn remainder_unsigned(a: u64, b: u64) -> u64
    ensures { result ≡ words.remainder_unsigned a b }
{
    if b == 0 { a } else { a % b }
}

pub fn multiply_w(a: u64, b: u64) -> u64
    ensures { result ≡ words.multiply_w a b }
{
    extend(low(a).wrapping_mul(low(b)))
}

pub fn divide_w(a: u64, b: u64) -> u64
    ensures { result ≡ words.divide_w a b }
{
    if low(b) == 0 {
        return u64::MAX;
    }
    let quotient = low(a).cast_signed().wrapping_div(low(b).cast_signed());
    extend(quotient.cast_unsigned())
}

pub fn divide_unsigned_w(a: u64, b: u64) -> u64
    ensures { result ≡ words.divide_unsigned_w a b }
{
    if low(b) == 0 {
        return u64::MAX;
    }
    extend(low(a) / low(b))
}

pub fn remainder_w(a: u64, b: u64) -> u64
    ensures { result ≡ words.remainder_w a b }
{
    if low(b) == 0 {
        return extend(low(a));
    }
    let rest = low(a).cast_signed().wrapping_rem(low(b).cast_signed());
    i64::from(rest).cast_unsigned()
}

pub fn remainder_unsigned_w(a: u64, b: u64) -> u64
    ensures { result ≡ words.remainder_unsigned_w a b }
{
    if low(b) == 0 {
        return extend(low(a));
    }
    extend(low(a) % low(b))
}
