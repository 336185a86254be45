// One instruction by its mnemonic and its operands.
use crate::mnemonics::{Mnemonic, Shape};
use crate::numbers::{number, register};
use crate::{AssemblyError, encoding};

/// A word of code, or what it waits for.
#[derive(Clone, Copy)]
pub enum Piece<'a> {
    Word(u32),
    /// The head of a branch, and its target.
    Branch(u32, &'a str),
    /// The head of a jump, and its target.
    Jump(u32, &'a str),
    /// The `lui` that gives register x10 the upper bits of a label's address.
    High(&'a str),
    /// The `addi` that adds the lower ones.
    Low(&'a str),
}

fn two(text: &str) -> Result<(&str, &str), AssemblyError> {
    text.split_once(',').ok_or(AssemblyError::BadOperands)
}

fn three(text: &str) -> Result<(&str, &str, &str), AssemblyError> {
    let (first, rest) = two(text)?;
    let (second, third) = two(rest)?;
    Ok((first, second, third))
}

/// The offset and the register of `offset(register)`, where nothing is 0.
fn place(text: &str) -> Result<(u32, u32), AssemblyError> {
    let (offset, base) = text.split_once('(').ok_or(AssemblyError::BadOperands)?;
    let base = base.strip_suffix(')').ok_or(AssemblyError::BadOperands)?;
    let offset = if offset.is_empty() {
        0
    } else {
        number(offset)?
    };
    Ok((offset, register(base)?))
}

/// Whether a target is a distance and no label.
fn is_distance(target: &str) -> bool {
    match target.as_bytes() {
        [first, ..] => first.is_ascii_digit() || *first == b'+' || *first == b'-',
        [] => false,
    }
}

/// The word of an instruction whose operands are registers and at most one number.
fn plain(mnemonic: Mnemonic, operands: &str) -> Result<u32, AssemblyError> {
    let head = mnemonic.head;
    match mnemonic.shape {
        Shape::Registers => {
            let (rd, rs1, rs2) = three(operands)?;
            let rd = register(rd)?;
            let rs1 = register(rs1)?;
            Ok(encoding::registers(head, rd, rs1, register(rs2)?))
        }
        Shape::Immediate => {
            let (rd, rs1, value) = three(operands)?;
            let rd = register(rd)?;
            encoding::immediate(head, rd, register(rs1)?, number(value)?)
        }
        Shape::Shift => {
            let (rd, rs1, amount) = three(operands)?;
            let rd = register(rd)?;
            encoding::shift(head, rd, register(rs1)?, number(amount)?)
        }
        Shape::Upper => {
            let (rd, value) = two(operands)?;
            encoding::upper(head, register(rd)?, number(value)?)
        }
        _ => in_memory(mnemonic, operands),
    }
}

/// The word of an instruction with a place in memory.
fn in_memory(mnemonic: Mnemonic, operands: &str) -> Result<u32, AssemblyError> {
    let head = mnemonic.head;
    let (first, rest) = two(operands)?;
    let first = register(first)?;
    match mnemonic.shape {
        Shape::Load => {
            let (offset, base) = place(rest)?;
            encoding::immediate(head, first, base, offset)
        }
        Shape::Store => {
            let (offset, base) = place(rest)?;
            encoding::store(head, base, first, offset)
        }
        Shape::Reserve => match place(rest)? {
            (0, base) => Ok(encoding::registers(head, first, base, 0)),
            _ => Err(AssemblyError::BadOperands),
        },
        Shape::Atomic => {
            let (value, base) = two(rest)?;
            match place(base)? {
                (0, base) => Ok(encoding::registers(head, first, base, register(value)?)),
                _ => Err(AssemblyError::BadOperands),
            }
        }
        _ => Err(AssemblyError::BadOperands),
    }
}

/// The piece of an instruction with operands.
pub fn instruction<'a>(mnemonic: Mnemonic, operands: &'a str) -> Result<Piece<'a>, AssemblyError> {
    match mnemonic.shape {
        Shape::Branch => {
            let (rs1, rs2, target) = three(operands)?;
            let rs1 = register(rs1)?;
            let head = encoding::registers(mnemonic.head, 0, rs1, register(rs2)?);
            if is_distance(target) {
                return Ok(Piece::Word(encoding::branch(head, number(target)?)?));
            }
            Ok(Piece::Branch(head, target))
        }
        Shape::Jump => {
            let (rd, target) = two(operands)?;
            let head = encoding::registers(mnemonic.head, register(rd)?, 0, 0);
            if is_distance(target) {
                return Ok(Piece::Word(encoding::jump(head, number(target)?)?));
            }
            Ok(Piece::Jump(head, target))
        }
        _ => Ok(Piece::Word(plain(mnemonic, operands)?)),
    }
}
