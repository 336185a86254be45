// The fields of a word.
ghost use Rattle.std.specs.Prelude.{◌≡◌, ◌<◌, ◌≤◌, ◌^◌};
ghost use Rattle.rv_decode.specs.Fields as fields;
ghost use Rattle.rv_decode.specs.Fields.{r_form, i_form, shift_form, shift_w_form, s_form, b_form, u_form, j_form};
ghost use Rattle.rv_decode.specs.Table.{IsInstr};

use crate::{Instr, Op};

/// Some bits of a word.
pub fn bits(word: u32, from: u32, count: u32) -> u32
    requires from { from < 32 }
    requires count { count < 32 }
    ensures { result ≡ fields.bits word from count }
{
    (word >> from) % (1 << count)
}

fn register(word: u32, from: u32) -> u8
    requires { from < 32 }
    ensures value { result ≡ fields.bits word from 5 }
    ensures small { result < 32 }
{
    bits(word, from, 5) as u8
}

fn signed(value: u64, count: u32) -> i64
    requires some { 1 ≤ count }
    requires count { count < 33 }
    requires fits { value < 2 ^ count }
    ensures { result ≡ fields.signed count value }
{
    if value < 1 << (count - 1) {
        value as i64
    } else {
        value as i64 - (1 << count)
    }
}

fn imm_i(word: u32) -> i64
    ensures { result ≡ fields.imm_i word }
{
    signed(bits(word, 20, 12) as u64, 12)
}

fn imm_s(word: u32) -> i64
    ensures { result ≡ fields.imm_s word }
{
    let value = bits(word, 7, 5) + bits(word, 25, 7) * 0x20;
    signed(value as u64, 12)
}

fn imm_b(word: u32) -> i64
    ensures { result ≡ fields.imm_b word }
{
    let value = bits(word, 7, 1) * 0x800
        + bits(word, 8, 4) * 2
        + bits(word, 25, 6) * 0x20
        + bits(word, 31, 1) * 0x1000;
    signed(value as u64, 13)
}

fn imm_u(word: u32) -> i64
    ensures { result ≡ fields.imm_u word }
{
    signed(bits(word, 12, 20) as u64 * 0x1000, 32)
}

fn imm_j(word: u32) -> i64
    ensures { result ≡ fields.imm_j word }
{
    let value = bits(word, 21, 10) * 2
        + bits(word, 20, 1) * 0x800
        + bits(word, 12, 8) * 0x1000
        + bits(word, 31, 1) * 0x10_0000;
    signed(value as u64, 21)
}

pub fn form_r(op: Op, word: u32) -> Instr
    ensures value { result ≡ fields.fields r_form op word }
    ensures registers { IsInstr result }
{
    Instr {
        op,
        rd: register(word, 7),
        rs1: register(word, 15),
        rs2: register(word, 20),
        imm: 0,
    }
}

pub fn form_i(op: Op, word: u32) -> Instr
    ensures value { result ≡ fields.fields i_form op word }
    ensures registers { IsInstr result }
{
    Instr {
        op,
        rd: register(word, 7),
        rs1: register(word, 15),
        rs2: 0,
        imm: imm_i(word),
    }
}

pub fn form_shift(op: Op, word: u32) -> Instr
    ensures value { result ≡ fields.fields shift_form op word }
    ensures registers { IsInstr result }
{
    Instr {
        op,
        rd: register(word, 7),
        rs1: register(word, 15),
        rs2: 0,
        imm: bits(word, 20, 6) as i64,
    }
}

pub fn form_shift_w(op: Op, word: u32) -> Instr
    ensures value { result ≡ fields.fields shift_w_form op word }
    ensures registers { IsInstr result }
{
    Instr {
        op,
        rd: register(word, 7),
        rs1: register(word, 15),
        rs2: 0,
        imm: bits(word, 20, 5) as i64,
    }
}

pub fn form_s(op: Op, word: u32) -> Instr
    ensures value { result ≡ fields.fields s_form op word }
    ensures registers { IsInstr result }
{
    Instr {
        op,
        rd: 0,
        rs1: register(word, 15),
        rs2: register(word, 20),
        imm: imm_s(word),
    }
}

pub fn form_b(op: Op, word: u32) -> Instr
    ensures value { result ≡ fields.fields b_form op word }
    ensures registers { IsInstr result }
{
    Instr {
        op,
        rd: 0,
        rs1: register(word, 15),
        rs2: register(word, 20),
        imm: imm_b(word),
    }
}

pub fn form_u(op: Op, word: u32) -> Instr
    ensures value { result ≡ fields.fields u_form op word }
    ensures registers { IsInstr result }
{
    Instr {
        op,
        rd: register(word, 7),
        rs1: 0,
        rs2: 0,
        imm: imm_u(word),
    }
}

pub fn form_j(op: Op, word: u32) -> Instr
    ensures value { result ≡ fields.fields j_form op word }
    ensures registers { IsInstr result }
{
    Instr {
        op,
        rd: register(word, 7),
        rs1: 0,
        rs2: 0,
        imm: imm_j(word),
    }
}

pub fn form_bare(op: Op) -> Instr
    ensures value { result ≡ fields.bare op }
    ensures registers { IsInstr result }
{
    Instr {
        op,
        rd: 0,
        rs1: 0,
        rs2: 0,
        imm: 0,
    }
}
