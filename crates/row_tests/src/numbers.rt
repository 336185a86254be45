// Numbers and registers as they are written.
use crate::AssemblyError;

/// A number, decimal or after `0x` hexadecimal, as 32 bits of two's complement.
pub fn number(text: &str) -> Result<u32, AssemblyError> {
    let (negative, digits) = match text.strip_prefix('-') {
        Some(digits) => (true, digits),
        None => (false, text.strip_prefix('+').unwrap_or(text)),
    };
    let value = magnitude(digits)?;
    Ok(if negative {
        0u32.wrapping_sub(value)
    } else {
        value
    })
}

fn magnitude(digits: &str) -> Result<u32, AssemblyError> {
    let parsed = match digits.strip_prefix("0x") {
        Some(digits) => u32::from_str_radix(digits, 16),
        None => digits.parse::<u32>(),
    };
    match parsed {
        Ok(value) if value < 0x8000_0000 => Ok(value),
        _ => Err(AssemblyError::BadNumber),
    }
}

/// The number of a register, `x0` to `x31`.
pub fn register(text: &str) -> Result<u32, AssemblyError> {
    match text.strip_prefix('x').map(|digits| digits.parse::<u32>()) {
        Some(Ok(number)) if number < 32 => Ok(number),
        _ => Err(AssemblyError::BadOperands),
    }
}
