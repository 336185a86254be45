// One instruction on the registers.
ghost use Rattle.std.specs.Prelude.{◌≡◌, ◌<◌};
ghost use Rattle.rv_decode.specs.Table.{IsInstr};
ghost use Rattle.rv_exec.specs.Registers.{value};
ghost use Rattle.rv_exec.specs.Effects.{IsPlaced, KeepsUnlessDone, TellsAtomic};
ghost use Rattle.rv_exec.specs.Meaning.{done_by, meaning, computed, holds, immediate, address, asked, writes, jumps, branches, next};

use crate::words::{
    add_w, divide, divide_unsigned, divide_unsigned_w, divide_w, less, less_unsigned,
    multiply_high, multiply_high_mixed, multiply_high_unsigned, multiply_w, remainder,
    remainder_unsigned, remainder_unsigned_w, remainder_w, shift_left, shift_left_w, shift_right,
    shift_right_signed, shift_right_signed_w, shift_right_w, sub_w,
};
use crate::{GuestFault, Regs};
use rv_decode::{Instr, Op};

/// What an instruction asks for, beside what it did to the registers. Of a value and of an argument
/// the low `size` bytes count. An address is a multiple of its size, which is 1, 2, 4 or 8.
#[derive(Clone, Copy)]
pub enum Effect {
    /// Nothing: the instruction is done.
    Local,
    Load { addr: u64, size: u8 },
    Store { addr: u64, size: u8, value: u64 },
    /// An atomic memory operation.
    Amo { addr: u64, size: u8, arg: u64 },
    /// A load that reserves its address.
    Reserve { addr: u64, size: u8 },
    /// A store where the reservation of the address stands.
    Conditional { addr: u64, size: u8, value: u64 },
    /// The call that the registers tell.
    Call,
    Fault(GuestFault),
}

#[inline(always)]
fn immediate_word(instr: &Instr) -> u64
    ensures { result ≡ immediate instr.now }
{
    instr.imm.cast_unsigned()
}

#[inline(always)]
pub fn advance(regs: &mut Regs)
    ensures { regs.new ≡ next regs.old }
{
    let after = regs.pc().wrapping_add(4);
    regs.set_pc(after);
}

/// Writes rd, and the next instruction follows.
#[inline(always)]
fn write(regs: &mut Regs, rd: u8, word: u64) -> Effect
    requires { rd < 32 }
    ensures { writes regs.old rd word ≡ record { registers = regs.new; effect = result } }
{
    regs.set(rd, word);
    advance(regs);
    Effect::Local
}

/// A jump that keeps the address of the next instruction in rd.
#[inline(always)]
fn jump(regs: &mut Regs, rd: u8, target: u64) -> Effect
    requires { rd < 32 }
    ensures { jumps regs.old rd target ≡ record { registers = regs.new; effect = result } }
{
    if target % 4 != 0 {
        return Effect::Fault(GuestFault::Misaligned);
    }
    let after = regs.pc().wrapping_add(4);
    regs.set(rd, after);
    regs.set_pc(target);
    Effect::Local
}

#[inline(always)]
fn is_taken(op: Op, a: u64, b: u64) -> bool
    ensures { result ≡ holds (meaning op) a b }
{
    match op {
        Op::Beq => a == b,
        Op::Bne => a != b,
        Op::Blt => a.cast_signed() < b.cast_signed(),
        Op::Bge => a.cast_signed() >= b.cast_signed(),
        Op::Bltu => a < b,
        Op::Bgeu => a >= b,
        _ => false,
    }
}

#[inline(always)]
fn branch(regs: &mut Regs, instr: &Instr, taken: bool) -> Effect
    ensures { branches regs.old instr.now taken ≡ record { registers = regs.new; effect = result } }
{
    if !taken {
        advance(regs);
        return Effect::Local;
    }
    let target = regs.pc().wrapping_add(immediate_word(instr));
    if target % 4 != 0 {
        return Effect::Fault(GuestFault::Misaligned);
    }
    regs.set_pc(target);
    Effect::Local
}

/// The effect, or the fault of an address that isn't a multiple of the size.
#[inline(always)]
fn ask(addr: u64, size: u8, effect: Effect) -> Effect
    requires { 0 < size }
    ensures { result ≡ asked addr size effect }
{
    if addr % u64::from(size) == 0 {
        effect
    } else {
        Effect::Fault(GuestFault::Misaligned)
    }
}

/// rs1 + imm.
#[inline(always)]
fn offset_base(regs: &Regs, instr: &Instr) -> u64
    requires { IsInstr instr.now }
    ensures { result ≡ address instr.now regs.now }
{
    regs.get(instr.rs1).wrapping_add(immediate_word(instr))
}

/// What an instruction with a result computes of two words.
#[inline(always)]
fn compute(op: Op, a: u64, b: u64) -> u64
    ensures { result ≡ computed (meaning op) a b }
{
    match op {
        Op::Add | Op::Addi => a.wrapping_add(b),
        Op::Sub => a.wrapping_sub(b),
        Op::Sll | Op::Slli => shift_left(a, b),
        Op::Slt | Op::Slti => less(a, b),
        Op::Sltu | Op::Sltiu => less_unsigned(a, b),
        Op::Xor | Op::Xori => a ^ b,
        Op::Srl | Op::Srli => shift_right(a, b),
        Op::Sra | Op::Srai => shift_right_signed(a, b),
        Op::Or | Op::Ori => a | b,
        Op::And | Op::Andi => a & b,
        Op::Mul => a.wrapping_mul(b),
        Op::Mulh => multiply_high(a, b),
        Op::Mulhsu => multiply_high_mixed(a, b),
        Op::Mulhu => multiply_high_unsigned(a, b),
        Op::Div => divide(a, b),
        Op::Divu => divide_unsigned(a, b),
        Op::Rem => remainder(a, b),
        Op::Remu => remainder_unsigned(a, b),
        Op::Addw | Op::Addiw => add_w(a, b),
        Op::Subw => sub_w(a, b),
        Op::Sllw | Op::Slliw => shift_left_w(a, b),
        Op::Srlw | Op::Srliw => shift_right_w(a, b),
        Op::Sraw | Op::Sraiw => shift_right_signed_w(a, b),
        Op::Mulw => multiply_w(a, b),
        Op::Divw => divide_w(a, b),
        Op::Divuw => divide_unsigned_w(a, b),
        Op::Remw => remainder_w(a, b),
        Op::Remuw => remainder_unsigned_w(a, b),
        _ => 0,
    }
}

#[inline(always)]
fn load(regs: &Regs, instr: &Instr, size: u8) -> Effect
    requires instr { IsInstr instr.now }
    requires size { 0 < size }
    ensures { result ≡ asked (address instr.now regs.now) size (Effect.Load (address instr.now regs.now) size) }
{
    let addr = offset_base(regs, instr);
    ask(addr, size, Effect::Load { addr, size })
}

#[inline(always)]
fn store(regs: &Regs, instr: &Instr, size: u8) -> Effect
    requires instr { IsInstr instr.now }
    requires size { 0 < size }
    ensures { result ≡ asked (address instr.now regs.now) size (Effect.Store (address instr.now regs.now) size (value regs.now instr.now.rs2)) }
{
    let addr = offset_base(regs, instr);
    let value = regs.get(instr.rs2);
    ask(addr, size, Effect::Store { addr, size, value })
}

#[inline(always)]
fn reserve(regs: &Regs, instr: &Instr, size: u8) -> Effect
    requires instr { IsInstr instr.now }
    requires size { 0 < size }
    ensures { result ≡ asked (value regs.now instr.now.rs1) size (Effect.Reserve (value regs.now instr.now.rs1) size) }
{
    let addr = regs.get(instr.rs1);
    ask(addr, size, Effect::Reserve { addr, size })
}

#[inline(always)]
fn conditional(regs: &Regs, instr: &Instr, size: u8) -> Effect
    requires instr { IsInstr instr.now }
    requires size { 0 < size }
    ensures { result ≡ asked (value regs.now instr.now.rs1) size (Effect.Conditional (value regs.now instr.now.rs1) size (value regs.now instr.now.rs2)) }
{
    let addr = regs.get(instr.rs1);
    let value = regs.get(instr.rs2);
    ask(addr, size, Effect::Conditional { addr, size, value })
}

#[inline(always)]
fn atomic(regs: &Regs, instr: &Instr, size: u8) -> Effect
    requires instr { IsInstr instr.now }
    requires size { 0 < size }
    ensures { result ≡ asked (value regs.now instr.now.rs1) size (Effect.Amo (value regs.now instr.now.rs1) size (value regs.now instr.now.rs2)) }
{
    let addr = regs.get(instr.rs1);
    let arg = regs.get(instr.rs2);
    ask(addr, size, Effect::Amo { addr, size, arg })
}

#[inline(always)]
fn execute(regs: &mut Regs, instr: &Instr) -> Effect
    requires { IsInstr instr.now }
    ensures { done_by instr.now.op instr.now regs.old ≡ record { registers = regs.new; effect = result } }
{
    let imm = immediate_word(instr);
    let a = regs.get(instr.rs1);
    let b = regs.get(instr.rs2);
    match instr.op {
        Op::Lui => write(regs, instr.rd, imm),
        Op::Auipc => {
            let word = regs.pc().wrapping_add(imm);
            write(regs, instr.rd, word)
        }
        Op::Jal => {
            let target = regs.pc().wrapping_add(imm);
            jump(regs, instr.rd, target)
        }
        Op::Jalr => {
            let target = a.wrapping_add(imm);
            jump(regs, instr.rd, target - target % 2)
        }
        Op::Beq | Op::Bne | Op::Blt | Op::Bge | Op::Bltu | Op::Bgeu => branch(
            regs,
            instr,
            is_taken(instr.op, a, b),
        ),
        Op::Lb | Op::Lbu => load(regs, instr, 1),
        Op::Lh | Op::Lhu => load(regs, instr, 2),
        Op::Lw | Op::Lwu => load(regs, instr, 4),
        Op::Ld => load(regs, instr, 8),
        Op::Sb => store(regs, instr, 1),
        Op::Sh => store(regs, instr, 2),
        Op::Sw => store(regs, instr, 4),
        Op::Sd => store(regs, instr, 8),
        Op::LrW => reserve(regs, instr, 4),
        Op::LrD => reserve(regs, instr, 8),
        Op::ScW => conditional(regs, instr, 4),
        Op::ScD => conditional(regs, instr, 8),
        Op::AmoswapW
        | Op::AmoaddW
        | Op::AmoxorW
        | Op::AmoandW
        | Op::AmoorW
        | Op::AmominW
        | Op::AmomaxW
        | Op::AmominuW
        | Op::AmomaxuW => atomic(regs, instr, 4),
        Op::AmoswapD
        | Op::AmoaddD
        | Op::AmoxorD
        | Op::AmoandD
        | Op::AmoorD
        | Op::AmominD
        | Op::AmomaxD
        | Op::AmominuD
        | Op::AmomaxuD => atomic(regs, instr, 8),
        Op::Fence => {
            advance(regs);
            Effect::Local
        }
        Op::Ecall => Effect::Call,
        Op::Ebreak => Effect::Fault(GuestFault::Break),
        Op::Addi
        | Op::Slti
        | Op::Sltiu
        | Op::Xori
        | Op::Ori
        | Op::Andi
        | Op::Slli
        | Op::Srli
        | Op::Srai
        | Op::Addiw
        | Op::Slliw
        | Op::Srliw
        | Op::Sraiw => write(regs, instr.rd, compute(instr.op, a, imm)),
        _ => write(regs, instr.rd, compute(instr.op, a, b)),
    }
}

/// Begins an instruction. `Local` has written rd and the address of the next instruction; every
/// other effect changes no register. A fault is a breakpoint, or an address that isn't a multiple of
/// the size, or of four where control goes.
#[inline(always)]
pub fn begin(regs: &mut Regs, instr: &Instr) -> Effect
    requires { IsInstr instr.now }
    ensures value { done_by instr.now.op instr.now regs.old ≡ record { registers = regs.new; effect = result } }
    ensures undone { KeepsUnlessDone result regs.old regs.new }
    ensures placed { IsPlaced result }
    ensures atomic { TellsAtomic (meaning instr.now.op) result }
{
    execute(regs, instr)
}
