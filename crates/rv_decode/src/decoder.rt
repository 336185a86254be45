// Words to instructions, an opcode at a time.
ghost use Rattle.std.specs.Prelude.{◌≡◌, ◌++◌, IfSome};
ghost use Rattle.rv_decode.specs.Fields.{opcode, bits as bits_of};
ghost use Rattle.rv_decode.specs.Table.{IsInstr, found, instr_of, branches, loads, stores, immediates, immediates_w, registers, registers_w, system, atomics_w, atomics_d};

use crate::fields::{
    bits, form_b, form_bare, form_i, form_j, form_r, form_s, form_shift, form_shift_w, form_u,
};
use crate::{Instr, Op};

fn branch(word: u32) -> Option<Instr>
    requires { opcode word ≡ 0x63 }
    ensures value { result ≡ found branches word }
    ensures registers { IfSome result IsInstr }
{
    match bits(word, 12, 3) {
        0 => Some(form_b(Op::Beq, word)),
        1 => Some(form_b(Op::Bne, word)),
        4 => Some(form_b(Op::Blt, word)),
        5 => Some(form_b(Op::Bge, word)),
        6 => Some(form_b(Op::Bltu, word)),
        7 => Some(form_b(Op::Bgeu, word)),
        _ => None,
    }
}

fn load(word: u32) -> Option<Instr>
    requires { opcode word ≡ 0x03 }
    ensures value { result ≡ found loads word }
    ensures registers { IfSome result IsInstr }
{
    match bits(word, 12, 3) {
        0 => Some(form_i(Op::Lb, word)),
        1 => Some(form_i(Op::Lh, word)),
        2 => Some(form_i(Op::Lw, word)),
        3 => Some(form_i(Op::Ld, word)),
        4 => Some(form_i(Op::Lbu, word)),
        5 => Some(form_i(Op::Lhu, word)),
        6 => Some(form_i(Op::Lwu, word)),
        _ => None,
    }
}

fn store(word: u32) -> Option<Instr>
    requires { opcode word ≡ 0x23 }
    ensures value { result ≡ found stores word }
    ensures registers { IfSome result IsInstr }
{
    match bits(word, 12, 3) {
        0 => Some(form_s(Op::Sb, word)),
        1 => Some(form_s(Op::Sh, word)),
        2 => Some(form_s(Op::Sw, word)),
        3 => Some(form_s(Op::Sd, word)),
        _ => None,
    }
}

fn immediate(word: u32) -> Option<Instr>
    requires { opcode word ≡ 0x13 }
    ensures value { result ≡ found immediates word }
    ensures registers { IfSome result IsInstr }
{
    match bits(word, 12, 3) {
        0 => Some(form_i(Op::Addi, word)),
        2 => Some(form_i(Op::Slti, word)),
        3 => Some(form_i(Op::Sltiu, word)),
        4 => Some(form_i(Op::Xori, word)),
        6 => Some(form_i(Op::Ori, word)),
        7 => Some(form_i(Op::Andi, word)),
        1 if bits(word, 26, 6) == 0 => Some(form_shift(Op::Slli, word)),
        5 if bits(word, 26, 6) == 0 => Some(form_shift(Op::Srli, word)),
        5 if bits(word, 26, 6) == 0x10 => Some(form_shift(Op::Srai, word)),
        _ => None,
    }
}

fn immediate_w(word: u32) -> Option<Instr>
    requires { opcode word ≡ 0x1b }
    ensures value { result ≡ found immediates_w word }
    ensures registers { IfSome result IsInstr }
{
    match bits(word, 12, 3) {
        0 => Some(form_i(Op::Addiw, word)),
        1 if bits(word, 25, 7) == 0 => Some(form_shift_w(Op::Slliw, word)),
        5 if bits(word, 25, 7) == 0 => Some(form_shift_w(Op::Srliw, word)),
        5 if bits(word, 25, 7) == 0x20 => Some(form_shift_w(Op::Sraiw, word)),
        _ => None,
    }
}

fn register(word: u32) -> Option<Instr>
    requires { opcode word ≡ 0x33 }
    ensures value { result ≡ found registers word }
    ensures registers { IfSome result IsInstr }
{
    match (bits(word, 25, 7), bits(word, 12, 3)) {
        (0, 0) => Some(form_r(Op::Add, word)),
        (0, 1) => Some(form_r(Op::Sll, word)),
        (0, 2) => Some(form_r(Op::Slt, word)),
        (0, 3) => Some(form_r(Op::Sltu, word)),
        (0, 4) => Some(form_r(Op::Xor, word)),
        (0, 5) => Some(form_r(Op::Srl, word)),
        (0, 6) => Some(form_r(Op::Or, word)),
        (0, 7) => Some(form_r(Op::And, word)),
        (0x20, 0) => Some(form_r(Op::Sub, word)),
        (0x20, 5) => Some(form_r(Op::Sra, word)),
        (1, 0) => Some(form_r(Op::Mul, word)),
        (1, 1) => Some(form_r(Op::Mulh, word)),
        (1, 2) => Some(form_r(Op::Mulhsu, word)),
        (1, 3) => Some(form_r(Op::Mulhu, word)),
        (1, 4) => Some(form_r(Op::Div, word)),
        (1, 5) => Some(form_r(Op::Divu, word)),
        (1, 6) => Some(form_r(Op::Rem, word)),
        (1, 7) => Some(form_r(Op::Remu, word)),
        _ => None,
    }
}

fn register_w(word: u32) -> Option<Instr>
    requires { opcode word ≡ 0x3b }
    ensures value { result ≡ found registers_w word }
    ensures registers { IfSome result IsInstr }
{
    match (bits(word, 25, 7), bits(word, 12, 3)) {
        (0, 0) => Some(form_r(Op::Addw, word)),
        (0, 1) => Some(form_r(Op::Sllw, word)),
        (0, 5) => Some(form_r(Op::Srlw, word)),
        (0x20, 0) => Some(form_r(Op::Subw, word)),
        (0x20, 5) => Some(form_r(Op::Sraw, word)),
        (1, 0) => Some(form_r(Op::Mulw, word)),
        (1, 4) => Some(form_r(Op::Divw, word)),
        (1, 5) => Some(form_r(Op::Divuw, word)),
        (1, 6) => Some(form_r(Op::Remw, word)),
        (1, 7) => Some(form_r(Op::Remuw, word)),
        _ => None,
    }
}

fn atomic_w(word: u32) -> Option<Instr>
    requires opcode { opcode word ≡ 0x2f }
    requires width { bits_of word 12 3 ≡ 2 }
    ensures value { result ≡ found atomics_w word }
    ensures registers { IfSome result IsInstr }
{
    match bits(word, 27, 5) {
        2 if bits(word, 20, 5) == 0 => Some(form_r(Op::LrW, word)),
        3 => Some(form_r(Op::ScW, word)),
        1 => Some(form_r(Op::AmoswapW, word)),
        0 => Some(form_r(Op::AmoaddW, word)),
        4 => Some(form_r(Op::AmoxorW, word)),
        0x0c => Some(form_r(Op::AmoandW, word)),
        0x08 => Some(form_r(Op::AmoorW, word)),
        0x10 => Some(form_r(Op::AmominW, word)),
        0x14 => Some(form_r(Op::AmomaxW, word)),
        0x18 => Some(form_r(Op::AmominuW, word)),
        0x1c => Some(form_r(Op::AmomaxuW, word)),
        _ => None,
    }
}

fn atomic_d(word: u32) -> Option<Instr>
    requires opcode { opcode word ≡ 0x2f }
    requires width { bits_of word 12 3 ≡ 3 }
    ensures value { result ≡ found atomics_d word }
    ensures registers { IfSome result IsInstr }
{
    match bits(word, 27, 5) {
        2 if bits(word, 20, 5) == 0 => Some(form_r(Op::LrD, word)),
        3 => Some(form_r(Op::ScD, word)),
        1 => Some(form_r(Op::AmoswapD, word)),
        0 => Some(form_r(Op::AmoaddD, word)),
        4 => Some(form_r(Op::AmoxorD, word)),
        0x0c => Some(form_r(Op::AmoandD, word)),
        0x08 => Some(form_r(Op::AmoorD, word)),
        0x10 => Some(form_r(Op::AmominD, word)),
        0x14 => Some(form_r(Op::AmomaxD, word)),
        0x18 => Some(form_r(Op::AmominuD, word)),
        0x1c => Some(form_r(Op::AmomaxuD, word)),
        _ => None,
    }
}

fn system(word: u32) -> Option<Instr>
    requires { opcode word ≡ 0x73 }
    ensures value { result ≡ found system word }
    ensures registers { IfSome result IsInstr }
{
    match bits(word, 7, 25) {
        0 => Some(form_bare(Op::Ecall)),
        0x2000 => Some(form_bare(Op::Ebreak)),
        _ => None,
    }
}

fn atomic(word: u32) -> Option<Instr>
    requires { opcode word ≡ 0x2f }
    ensures value { result ≡ found (atomics_w ++ atomics_d) word }
    ensures registers { IfSome result IsInstr }
{
    match bits(word, 12, 3) {
        2 => atomic_w(word),
        3 => atomic_d(word),
        _ => None,
    }
}

/// The instruction that a word is. `None` comes exactly where no row of the instruction table
/// matches the word.
#[tactic(auto, unfolding(crate::specs::Table::instr_of))]
pub fn decode(word: u32) -> Option<Instr>
    ensures value { result ≡ instr_of word }
    ensures registers { IfSome result IsInstr }
{
    match bits(word, 0, 7) {
        0x37 => Some(form_u(Op::Lui, word)),
        0x17 => Some(form_u(Op::Auipc, word)),
        0x6f => Some(form_j(Op::Jal, word)),
        0x67 if bits(word, 12, 3) == 0 => Some(form_i(Op::Jalr, word)),
        0x63 => branch(word),
        0x03 => load(word),
        0x23 => store(word),
        0x13 => immediate(word),
        0x1b => immediate_w(word),
        0x33 => register(word),
        0x3b => register_w(word),
        0x0f if bits(word, 12, 3) == 0 => Some(form_bare(Op::Fence)),
        0x73 => system(word),
        0x2f => atomic(word),
        _ => None,
    }
}
