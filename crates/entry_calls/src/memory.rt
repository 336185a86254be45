// What atomic calls do with the word in memory.
ghost use Rattle.std.specs.Prelude.{◌≡◌};
ghost use Rattle.entry_calls.specs.Calls.{IsCall, IsSize};
ghost use Rattle.entry_calls.specs.Effects.{word_by, answer_by, stored_over, answered, old_answer};

use crate::reading::cut;
use crate::{AtomicOp, Call};

fn exchanged(op: AtomicOp, size: u8, value: u64, expected: u64, old: u64) -> Option<u64>
    requires { IsSize size }
    ensures { result ≡ stored_over op size value expected old }
{
    match op {
        AtomicOp::Load => None,
        AtomicOp::Store | AtomicOp::Exchange => Some(value),
        AtomicOp::Add => Some(cut(old.wrapping_add(value), size)),
        AtomicOp::Sub => Some(cut(old.wrapping_sub(value), size)),
        AtomicOp::And => Some(cut(old, size) & value),
        AtomicOp::Or => Some(cut(old, size) | value),
        AtomicOp::Xor => Some(cut(old, size) ^ value),
        AtomicOp::Compare if cut(old, size) == expected => Some(value),
        AtomicOp::Compare => None,
    }
}

/// The word that an atomic call stores over the old one, of which the low bytes of the call's size
/// count. `None` comes exactly for a load and for a comparison that fails, and for calls that aren't
/// atomic.
pub fn atomic_word(call: &Call, old: u64) -> Option<u64>
    requires { IsCall call.now }
    ensures { result ≡ word_by call.now old }
{
    match *call {
        Call::Atomic {
            op,
            size,
            value,
            expected,
            ..
        } => exchanged(op, size, value, expected, old),
        _ => None,
    }
}

fn extended(size: u8, old: u64) -> u64
    requires { IsSize size }
    ensures { result ≡ old_answer size old }
{
    let word = cut(old, size);
    if size == 4 {
        i64::from((word as u32).cast_signed()).cast_unsigned()
    } else {
        word
    }
}

/// What an atomic call answers: the old word, sign-extended where it has 32 bits. `None` comes
/// exactly for a store, which has no answer, and for calls that aren't atomic.
pub fn atomic_answer(call: &Call, old: u64) -> Option<u64>
    requires { IsCall call.now }
    ensures { result ≡ answer_by call.now old }
{
    match *call {
        Call::Atomic {
            op: AtomicOp::Store,
            ..
        } => None,
        Call::Atomic { size, .. } => Some(extended(size, old)),
        _ => None,
    }
}
