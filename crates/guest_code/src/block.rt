// The instructions of one region.
ghost use Rattle.std.specs.Prelude.{◌≡◌, IfOk};
ghost use Rattle.rv_decode.specs.Table.{IsInstr};
ghost use Rattle.guest_code.specs.Decoded.{decoded_of, AreDecoded};

use elf_image::Image;
use rv_decode::{Instr, Op, decode};
use std::alloc::{AllocError, Global};

/// Instructions one after another, from an address on.
#[derive(Drop)]
pub struct Block {
    pub start: u64,
    pub instrs: Vec<Instr>,
}

// The word's instruction; where it is none, a breakpoint, which a loop of instructions leaves to its caller.
fn decoded(word: Option<u32>) -> Instr
    ensures value { result ≡ decoded_of word }
    ensures instr { IsInstr result }
{
    let breakpoint = Instr {
        op: Op::Ebreak,
        rd: 0,
        rs1: 0,
        rs2: 0,
        imm: 0,
    };
    match word {
        Some(word) => decode(word).unwrap_or(breakpoint),
        None => breakpoint,
    }
}

/// The instructions of a region, of this number and from this address on, up to the end of the bytes that the file has for it.
pub fn decoded_region(
    alloc: Global,
    image: &Image<'_>,
    region: u32,
    start: u64,
) -> Result<Vec<Instr>, AllocError>
    ensures { IfOk result (λ v. AreDecoded image.now start v.items) }
{
    let end = image.file_end(region);
    let mut instrs = Vec::with_capacity(alloc, (end.saturating_sub(start) / 4) as usize)?;
    let mut pc = start;
    'words: while pc < end {
        instrs.push(decoded(image.fetch_near(region, pc)))?;
        pc += 4;
    }
    Ok(instrs)
}
