// The end of an instruction that asked for something.
ghost use Rattle.std.specs.Prelude.{◌≡◌, ◌<◌};
ghost use Rattle.std.specs.Int.{w8, w16};
ghost use Rattle.rv_decode.specs.Table.{IsInstr};
ghost use Rattle.rv_exec.specs.Registers.{put};
ghost use Rattle.rv_exec.specs.Words as words;
ghost use Rattle.rv_exec.specs.Meaning.{finished_by, next};

use crate::Regs;
use crate::exec::advance;
use crate::words::{extend, low};
use rv_decode::{Instr, Op};

/// The low byte, sign-extended.
fn extend_byte(word: u64) -> u64
    ensures { result ≡ words.extend w8 (words.low_bytes 1 word) }
{
    i64::from(((word % 0x100) as u8).cast_signed()).cast_unsigned()
}

/// The low two bytes, sign-extended.
fn extend_two(word: u64) -> u64
    ensures { result ≡ words.extend w16 (words.low_bytes 2 word) }
{
    i64::from(((word % 0x1_0000) as u16).cast_signed()).cast_unsigned()
}

fn receive(regs: &mut Regs, rd: u8, word: u64)
    requires { rd < 32 }
    ensures { regs.new ≡ next (put regs.old rd word) }
{
    regs.set(rd, word);
    advance(regs);
}

/// Ends an instruction that asked for something, with what memory gave: the low bytes that were
/// loaded, the old value of an atomic memory operation, or whether a conditional store failed. It
/// writes rd, extended as the instruction says, and the next instruction follows. A store and a
/// call write no register.
pub fn finish(regs: &mut Regs, instr: &Instr, value: u64)
    requires { IsInstr instr.now }
    ensures { regs.new ≡ finished_by instr.now.op instr.now regs.old value }
{
    match instr.op {
        Op::Lb => receive(regs, instr.rd, extend_byte(value)),
        Op::Lh => receive(regs, instr.rd, extend_two(value)),
        Op::Lbu => receive(regs, instr.rd, value % 0x100),
        Op::Lhu => receive(regs, instr.rd, value % 0x1_0000),
        Op::Lwu => receive(regs, instr.rd, value % 0x1_0000_0000),
        Op::Ld | Op::LrD | Op::ScW | Op::ScD => receive(regs, instr.rd, value),
        Op::AmoswapD
        | Op::AmoaddD
        | Op::AmoxorD
        | Op::AmoandD
        | Op::AmoorD
        | Op::AmominD
        | Op::AmomaxD
        | Op::AmominuD
        | Op::AmomaxuD => receive(regs, instr.rd, value),
        Op::Lw
        | Op::LrW
        | Op::AmoswapW
        | Op::AmoaddW
        | Op::AmoxorW
        | Op::AmoandW
        | Op::AmoorW
        | Op::AmominW
        | Op::AmomaxW
        | Op::AmominuW
        | Op::AmomaxuW => receive(regs, instr.rd, extend(low(value))),
        _ => advance(regs),
    }
}
