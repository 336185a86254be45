// Instruction words at the edges of the manual's rules. The words write x10 and read x11 and x12.
use crate::{Effect, Regs, amo, begin, finish};
use rv_decode::decode;
use std::test::Fail;

const START: u64 = 0x1_0000;

const LEAST: u64 = 0x8000_0000_0000_0000;

const GREATEST: u64 = 0x7fff_ffff_ffff_ffff;

const ONES: u64 = 0xffff_ffff_ffff_ffff;

const LEAST_W: u64 = 0xffff_ffff_8000_0000;

/// The registers after an instruction, where memory gives `given`; none after a fault or a call.
fn after(word: u32, x11: u64, x12: u64, given: u64) -> Option<Regs> {
    let instr = decode(word)?;
    let mut regs = Regs::new(START);
    regs.set(11, x11);
    regs.set(12, x12);
    match begin(&mut regs, &instr) {
        Effect::Local => Some(regs),
        Effect::Call | Effect::Fault(_) => None,
        _ => {
            finish(&mut regs, &instr, given);
            Some(regs)
        }
    }
}

#[test]
fn computes(rt: HostRuntime) -> Result<(), Fail> {
    for (word, x11, x12, x10) in COMPUTATIONS {
        let regs = after(word, x11, x12, 0).ok_or("no result")?;
        assert_eq!(rt; regs.get(10), x10);
        assert_eq!(rt; regs.pc(), START + 4);
    }
    Ok(())
}

#[test]
fn loads(rt: HostRuntime) -> Result<(), Fail> {
    for (word, given, x10) in LOADS {
        let regs = after(word, 0x1000, 0, given).ok_or("no result")?;
        assert_eq!(rt; regs.get(10), x10);
    }
    Ok(())
}

#[test]
fn goes(rt: HostRuntime) -> Result<(), Fail> {
    for (word, x11, x12, pc) in JUMPS {
        let regs = after(word, x11, x12, 0).ok_or("no result")?;
        assert_eq!(rt; regs.pc(), pc);
    }
    Ok(())
}

#[test]
fn refuses(rt: HostRuntime) {
    for (word, x11) in REFUSED {
        assert!(rt; after(word, x11, x11, 0).is_none());
    }
}

#[test]
fn swaps(rt: HostRuntime) -> Result<(), Fail> {
    for (word, old, x12, new, x10) in ATOMICS {
        let instr = decode(word).ok_or("no instruction")?;
        let mut regs = Regs::new(START);
        regs.set(12, x12);
        let Effect::Amo { size, arg, .. } = begin(&mut regs, &instr) else {
            return Err("no atomic operation")?;
        };
        assert_eq!(rt; amo(instr.op, size == 8, old, arg), new);
        finish(&mut regs, &instr, old);
        assert_eq!(rt; regs.get(10), x10);
    }
    Ok(())
}

// The word, x11, x12, and what x10 gets.
const COMPUTATIONS: [(u32, u64, u64, u64); 77] = [
    // add, sub
    (0x00c5_8533, GREATEST, 1, LEAST),
    (0x00c5_8533, ONES, ONES, 0xffff_ffff_ffff_fffe),
    (0x40c5_8533, 0, 1, ONES),
    (0x40c5_8533, LEAST, 1, GREATEST),
    // sll, slt, sltu
    (0x00c5_9533, 1, 63, LEAST),
    (0x00c5_9533, 5, 64, 5),
    (0x00c5_a533, LEAST, GREATEST, 1),
    (0x00c5_a533, 0, ONES, 0),
    (0x00c5_b533, 0, ONES, 1),
    (0x00c5_b533, LEAST, GREATEST, 0),
    // xor, srl, sra, or, and
    (0x00c5_c533, ONES, GREATEST, LEAST),
    (0x00c5_d533, LEAST, 63, 1),
    (0x00c5_d533, ONES, 127, 1),
    (0x40c5_d533, LEAST, 63, ONES),
    (0x40c5_d533, GREATEST, 63, 0),
    (0x00c5_e533, LEAST, 1, 0x8000_0000_0000_0001),
    (0x00c5_f533, ONES, LEAST, LEAST),
    // mul, mulh
    (0x02c5_8533, LEAST, 2, 0),
    (0x02c5_8533, ONES, ONES, 1),
    (0x02c5_9533, LEAST, LEAST, 0x4000_0000_0000_0000),
    (0x02c5_9533, ONES, ONES, 0),
    (0x02c5_9533, ONES, 1, ONES),
    // mulhsu, mulhu
    (0x02c5_a533, ONES, ONES, ONES),
    (0x02c5_a533, LEAST, ONES, LEAST),
    (0x02c5_a533, 1, ONES, 0),
    (0x02c5_b533, ONES, ONES, 0xffff_ffff_ffff_fffe),
    (0x02c5_b533, LEAST, 2, 1),
    // div, divu
    (0x02c5_c533, LEAST, ONES, LEAST),
    (0x02c5_c533, LEAST, 0, ONES),
    (0x02c5_c533, 0xffff_ffff_ffff_fff9, 2, 0xffff_ffff_ffff_fffd),
    (0x02c5_c533, 7, 0xffff_ffff_ffff_fffe, 0xffff_ffff_ffff_fffd),
    (0x02c5_d533, ONES, 2, GREATEST),
    (0x02c5_d533, 5, 0, ONES),
    (0x02c5_d533, LEAST, ONES, 0),
    // rem, remu
    (0x02c5_e533, LEAST, ONES, 0),
    (0x02c5_e533, 5, 0, 5),
    (0x02c5_e533, 0xffff_ffff_ffff_fff9, 2, ONES),
    (0x02c5_e533, 7, 0xffff_ffff_ffff_fffe, 1),
    (0x02c5_f533, ONES, 10, 5),
    (0x02c5_f533, 5, 0, 5),
    // addw, subw, sllw, srlw, sraw
    (0x00c5_853b, 0x7fff_ffff, 1, LEAST_W),
    (0x00c5_853b, 0xffff_ffff_0000_0001, 0, 1),
    (0x40c5_853b, 0, 1, ONES),
    (0x40c5_853b, 0x8000_0000, 1, 0x7fff_ffff),
    (0x00c5_953b, 1, 31, LEAST_W),
    (0x00c5_953b, 1, 32, 1),
    (0x00c5_d53b, LEAST_W, 31, 1),
    (0x00c5_d53b, 0x8000_0000, 0, LEAST_W),
    (0x40c5_d53b, 0x8000_0000, 31, ONES),
    (0x40c5_d53b, 0xffff_ffff_7fff_ffff, 31, 0),
    // mulw, divw, divuw
    (0x02c5_853b, 0x1_0000, 0x8000, LEAST_W),
    (0x02c5_c53b, 0x8000_0000, 0xffff_ffff, LEAST_W),
    (0x02c5_c53b, 1, 0x1_0000_0000, ONES),
    (0x02c5_d53b, 0xffff_ffff, 1, ONES),
    (0x02c5_d53b, 1, 0, ONES),
    // remw, remuw
    (0x02c5_e53b, 0x8000_0000, 0xffff_ffff, 0),
    (0x02c5_e53b, 0x8000_0000, 0, LEAST_W),
    (0x02c5_e53b, 0xffff_fff9, 2, ONES),
    (0x02c5_f53b, 0x8000_0000, 0, LEAST_W),
    (0x02c5_f53b, 0xffff_ffff, 16, 15),
    // addi, slti, sltiu, xori, ori, andi
    (0xfff5_8513, 0, 0, ONES),
    (0x7ff5_8513, LEAST, 0, 0x8000_0000_0000_07ff),
    (0xfff5_a513, 0xffff_ffff_ffff_fffe, 0, 1),
    (0xfff5_b513, GREATEST, 0, 1),
    (0xfff5_c513, 0xff, 0, 0xffff_ffff_ffff_ff00),
    (0x8005_e513, 1, 0, 0xffff_ffff_ffff_f801),
    (0x7ff5_f513, ONES, 0, 0x7ff),
    // slli, srli, srai
    (0x03f5_9513, 3, 0, LEAST),
    (0x03f5_d513, LEAST, 0, 1),
    (0x43f5_d513, LEAST, 0, ONES),
    // addiw, slliw, srliw, sraiw
    (0xfff5_851b, 0x8000_0000, 0, 0x7fff_ffff),
    (0x01f5_951b, 1, 0, LEAST_W),
    (0x01f5_d51b, 0x8000_0000, 0, 1),
    (0x41f5_d51b, 0x8000_0000, 0, ONES),
    // lui, auipc, fence
    (0x8000_0537, 0, 0, LEAST_W),
    (0x8000_0517, 0, 0, 0xffff_ffff_8001_0000),
    (0x0ff0_000f, 0, 0, 0),
];

// The word, what memory gives, and what x10 gets: lb, lbu, lh, lhu, lw, lwu, ld, lr.w, lr.d, sc.d.
const LOADS: [(u32, u64, u64); 10] = [
    (0x0005_8503, 0x80, 0xffff_ffff_ffff_ff80),
    (0x0005_c503, 0x80, 0x80),
    (0x0005_9503, 0x8000, 0xffff_ffff_ffff_8000),
    (0x0005_d503, 0x8000, 0x8000),
    (0x0005_a503, 0x8000_0000, LEAST_W),
    (0x0005_e503, 0x8000_0000, 0x8000_0000),
    (0x0005_b503, LEAST, LEAST),
    (0x1005_a52f, 0x8000_0000, LEAST_W),
    (0x1005_b52f, LEAST, LEAST),
    (0x18c5_b52f, 1, 1),
];

// The word, x11, x12 and the next pc: branches by 8 and one by -4, jal by -4, jalr by 1.
const JUMPS: [(u32, u64, u64, u64); 11] = [
    (0x00c5_8463, 1, 1, 0x1_0008),
    (0x00c5_8463, 1, 2, 0x1_0004),
    (0x00c5_9463, 1, 2, 0x1_0008),
    (0x00c5_c463, ONES, 0, 0x1_0008),
    (0x00c5_e463, ONES, 0, 0x1_0004),
    (0x00c5_d463, 0, ONES, 0x1_0008),
    (0x00c5_f463, 0, ONES, 0x1_0004),
    (0xfec5_8ee3, 1, 1, 0xfffc),
    (0x00c5_8163, 1, 2, 0x1_0004),
    (0xffdf_f56f, 0, 0, 0xfffc),
    (0x0015_8567, 0x2000, 0, 0x2000),
];

// Faults, with x11, which is x12 too: a branch by 2, a jump, loads, a store and a reservation at
// addresses that aren't aligned, a breakpoint. And words that are no instructions.
const REFUSED: [(u32, u64); 12] = [
    (0x00c5_8163, 0),
    (0x0005_8567, 0x2002),
    (0x0005_9503, 1),
    (0x0005_a503, 2),
    (0x0005_b503, 4),
    (0x00c5_b023, 4),
    (0x1005_a52f, 2),
    (0x0010_0073, 0),
    (0, 0),
    (0x10c5_a52f, 0),
    (0x0805_9513, 0),
    (0x0200_0073, 0),
];

// The word, the old value, x12, the new value and what x10 gets.
const ATOMICS: [(u32, u64, u64, u64, u64); 14] = [
    // on 4 bytes: swap, add, xor, and, or, min, max, minu, maxu
    (0x08c5_a52f, 0x8000_0000, 0xffff_ffff_0000_0005, 5, LEAST_W),
    (0x00c5_a52f, 0xffff_ffff, 0xaaaa_aaaa_0000_0001, 0, ONES),
    (0x20c5_a52f, 0xff, 0xf0f, 0xff0, 0xff),
    (0x60c5_a52f, 0xff, 0xf0f, 0x0f, 0xff),
    (0x40c5_a52f, 0xff, 0xf0f, 0xfff, 0xff),
    (
        0x80c5_a52f,
        0x7fff_ffff,
        0x1_8000_0000,
        0x8000_0000,
        0x7fff_ffff,
    ),
    (
        0xa0c5_a52f,
        0x7fff_ffff,
        0x1_8000_0000,
        0x7fff_ffff,
        0x7fff_ffff,
    ),
    (
        0xc0c5_a52f,
        0x8000_0000,
        0xffff_ffff_7fff_ffff,
        0x7fff_ffff,
        LEAST_W,
    ),
    (
        0xe0c5_a52f,
        0x8000_0000,
        0xffff_ffff_7fff_ffff,
        0x8000_0000,
        LEAST_W,
    ),
    // on 8 bytes: min, max, minu, maxu, add with both order bits
    (0x80c5_b52f, LEAST, GREATEST, LEAST, LEAST),
    (0xa0c5_b52f, LEAST, GREATEST, GREATEST, LEAST),
    (0xc0c5_b52f, LEAST, GREATEST, GREATEST, LEAST),
    (0xe0c5_b52f, LEAST, GREATEST, LEAST, LEAST),
    (0x06c5_b52f, ONES, 2, 1, ONES),
];
