// Instruction words, by the formats of the RISC-V unprivileged manual. The head of a word is what
// its operands leave: the opcode, funct3 and the upper bits. An immediate is a number of 32 bits in
// two's complement.
ghost use Rattle.std.specs.Prelude.{◌<◌};

use crate::AssemblyError;

pub const ADDI: u32 = 0x13;

pub const LUI: u32 = 0x37;

/// `jal x1,+4`
pub const NEXT: u32 = 0x0040_00ef;
/// `jal x0,0`
pub const LOOP: u32 = 0x6f;

pub const ECALL: u32 = 0x73;

/// An immediate that a signed field of so many bits can hold.
fn signed(immediate: u32, bits: u32) -> Result<u32, AssemblyError>
    requires some { 0 < bits }
    requires small { bits < 32 }
{
    if immediate.wrapping_add(1 << (bits - 1)) < 1 << bits {
        Ok(immediate)
    } else {
        Err(AssemblyError::BadNumber)
    }
}

pub fn registers(head: u32, rd: u32, rs1: u32, rs2: u32) -> u32 {
    head | rd << 7 | rs1 << 15 | rs2 << 20
}

pub fn immediate(head: u32, rd: u32, rs1: u32, value: u32) -> Result<u32, AssemblyError> {
    Ok(head | rd << 7 | rs1 << 15 | signed(value, 12)? << 20)
}

/// A shift by an amount below the width, which is 32 for the W forms.
pub fn shift(head: u32, rd: u32, rs1: u32, amount: u32) -> Result<u32, AssemblyError> {
    let width = if head & 0x7f == 0x1b { 32 } else { 64 };
    if amount >= width {
        return Err(AssemblyError::BadNumber);
    }
    Ok(head | rd << 7 | rs1 << 15 | amount << 20)
}

pub fn store(head: u32, rs1: u32, rs2: u32, offset: u32) -> Result<u32, AssemblyError> {
    let offset = signed(offset, 12)?;
    Ok(head | (offset & 31) << 7 | rs1 << 15 | rs2 << 20 | offset >> 5 << 25)
}

pub fn upper(head: u32, rd: u32, value: u32) -> Result<u32, AssemblyError> {
    if value >= 0x10_0000 {
        return Err(AssemblyError::BadNumber);
    }
    Ok(head | rd << 7 | value << 12)
}

/// The distance to a target, which a field of so many bits holds without its lowest one.
fn even(distance: u32, bits: u32) -> Result<u32, AssemblyError>
    requires some { 0 < bits }
    requires small { bits < 32 }
{
    if distance % 2 == 0 {
        signed(distance, bits)
    } else {
        Err(AssemblyError::BadNumber)
    }
}

/// A branch whose head has its registers, with the distance to its target.
pub fn branch(head: u32, distance: u32) -> Result<u32, AssemblyError> {
    let distance = even(distance, 13)?;
    let low = (distance >> 1 & 15) << 8 | (distance >> 5 & 63) << 25;
    Ok(head | (distance >> 11 & 1) << 7 | low | (distance >> 12 & 1) << 31)
}

/// A jump whose head has its register, with the distance to its target.
pub fn jump(head: u32, distance: u32) -> Result<u32, AssemblyError> {
    let distance = even(distance, 21)?;
    let low = (distance >> 1 & 1023) << 21 | (distance >> 11 & 1) << 20;
    Ok(head | (distance >> 12 & 255) << 12 | low | (distance >> 20 & 1) << 31)
}

/// The `lui` of a pair whose `addi` adds the low bits of an address.
pub fn high_part(rd: u32, address: u32) -> u32 {
    LUI | rd << 7 | (address.wrapping_add(0x800) >> 12) << 12
}

/// The `addi` of the pair.
pub fn low_part(rd: u32, address: u32) -> u32 {
    ADDI | rd << 7 | rd << 15 | address << 20
}
