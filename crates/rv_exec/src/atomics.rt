// What atomic memory operations store.
ghost use Rattle.std.specs.Prelude.{◌≡◌, ◌<◌, ◌^◌};
ghost use Rattle.std.specs.Bool.{OnFalse};
ghost use Rattle.rv_exec.specs.Meaning.{meaning, stored_by, combined, IsAtomic};

use crate::words::low;
use rv_decode::Op;

fn wide(op: Op, old: u64, arg: u64) -> u64
    ensures { result ≡ combined 8 (meaning op) old arg }
{
    match op {
        Op::AmoswapD => arg,
        Op::AmoaddD => old.wrapping_add(arg),
        Op::AmoxorD => old ^ arg,
        Op::AmoandD => old & arg,
        Op::AmoorD => old | arg,
        Op::AmominD if old.cast_signed() < arg.cast_signed() => old,
        Op::AmominD => arg,
        Op::AmomaxD if old.cast_signed() < arg.cast_signed() => arg,
        Op::AmominuD if old < arg => old,
        Op::AmominuD => arg,
        Op::AmomaxuD if old < arg => arg,
        _ => old,
    }
}

fn narrow(op: Op, old: u32, arg: u32) -> u32
    ensures { result ≡ combined 4 (meaning op) old arg }
{
    match op {
        Op::AmoswapW => arg,
        Op::AmoaddW => old.wrapping_add(arg),
        Op::AmoxorW => old ^ arg,
        Op::AmoandW => old & arg,
        Op::AmoorW => old | arg,
        Op::AmominW if old.cast_signed() < arg.cast_signed() => old,
        Op::AmominW => arg,
        Op::AmomaxW if old.cast_signed() < arg.cast_signed() => arg,
        Op::AmominuW if old < arg => old,
        Op::AmominuW => arg,
        Op::AmomaxuW if old < arg => arg,
        _ => old,
    }
}

/// The word that an atomic memory operation stores over the old one. In the forms on 4 bytes the
/// low 32 bits count, and the upper 32 bits of the answer are 0.
pub fn amo(op: Op, is_wide: bool, old: u64, arg: u64) -> u64
    requires { IsAtomic (meaning op) is_wide }
    ensures value { result ≡ stored_by op old arg }
    ensures upper { OnFalse is_wide (result < 2 ^ 32) }
{
    if is_wide {
        wide(op, old, arg)
    } else {
        u64::from(narrow(op, low(old), low(arg)))
    }
}
