// The decoded instructions of an image.
ghost use Rattle.std.specs.Prelude.{◌≡◌, ◌≤◌, ℕ, List, Some, IfOk, IfSome};
ghost use Rattle.guest_code.specs.Decoded.{AreDecoded, IsKnown, is_break};
ghost use Rattle.guest_code.specs.Locals.{locals};

use crate::block::{Block, decoded_region};
use elf_image::Image;
use rv_decode::{Instr, Op};
use rv_exec::{Effect, Regs, begin};
use std::alloc::{AllocError, Global};
use std::marker::Model;

// Whether an instruction is a breakpoint, as which the table also has words that are no instructions.
#[inline(always)]
fn is_break(instr: &Instr) -> bool
    ensures { result ≡ is_break instr.now.op }
{
    match instr.op {
        Op::Ebreak => true,
        _ => false,
    }
}

// The instruction at an address, where these from `start` on have it and it is no breakpoint.
#[inline(always)]
fn instr_in<'a>(start: u64, instrs: &'a [Instr], pc: u64) -> Option<&'a Instr>
    ensures { (file : List ℕ) → AreDecoded file start instrs.now → IfSome result (λ instr. IsKnown file pc instr.now) }
{
    if pc % 4 != start % 4 || pc < start {
        return None;
    }
    let index = ((pc - start) / 4) as usize;
    if index >= instrs.len() || is_break(&instrs[index]) {
        return None;
    }
    Some(&instrs[index])
}

/// An image and its instructions. Contracts see the bytes of the image's file.
#[derive(Drop)]
pub struct Code<'a> {
    image: &'a Image<'a>,
    // By rising start.
    blocks: Vec<Block>,
}

impl<'a> Model for Code<'a> {
    ghost use Rattle.std.specs.Prelude.{List, ℕ};
    ghost use Rattle.guest_code.specs.Blocks.{AreBlocks};

    ghost Value = { List ℕ };

    ghost view = { λ c. c.image.now };

    ghost invariant = { λ c. AreBlocks c.image.now c.blocks.items };
}

impl<'a> Code<'a> {
    /// Decodes the executable regions of an image, as far as the file has bytes for them.
    pub fn new(alloc: Global, image: &'a Image<'a>) -> Result<Code<'a>, AllocError>
        ensures { IfOk result (λ code. code ≡ image.now) }
    {
        let mut blocks = Vec::new(alloc);
        for region in image.regions() {
            if region.executable
                && let Some(number) = image.region_of(region.start)
            {
                let instrs = decoded_region(alloc, image, number, region.start)?;
                blocks.push(Block {
                    start: region.start,
                    instrs,
                })?;
            }
        }
        Ok(Code { image, blocks })
    }

    /// The image.
    pub fn image(&self) -> &Image<'a>
        ensures { result.now ≡ self.now }
    {
        self.image
    }

    /// The instruction at an address, as it was decoded. Nothing is said where none is told: the image tells whether one stands
    /// there that is a breakpoint.
    #[inline(always)]
    pub fn instr(&self, pc: u64) -> Option<&Instr>
        ensures { IfSome result (λ instr. IsKnown self.now pc instr.now) }
    {
        let after = self.blocks.partition_point(|block| block.start <= pc);
        if after == 0 {
            return None;
        }
        let block = &self.blocks[after - 1];
        instr_in(block.start, block.instrs.as_slice(), pc)
    }

    /// Makes the instructions from the registers' pc on, while they touch registers alone and stand in one region, at most so
    /// many. It tells how many it made. None is begun that isn't done.
    pub fn run_locals(&self, regs: &mut Regs, most: u32) -> u32
        ensures made { locals self.now result regs.old ≡ Some regs.new }
        ensures few { result ≤ most }
    {
        let pc = regs.pc();
        let after = self.blocks.partition_point(|block| block.start <= pc);
        if after == 0 {
            return 0;
        }
        let block = &self.blocks[after - 1];
        self.run_block(block.start, block.instrs.as_slice(), regs, most)
    }

    // Makes instructions of a block from the registers' pc on, while they touch registers alone.
    #[tactic(auto, unfolding(crate::specs::Locals::locals))]
    fn run_block(&self, start: u64, instrs: &[Instr], regs: &mut Regs, most: u32) -> u32
        requires { AreDecoded self.now start instrs.now }
        ensures made { locals self.now result regs.old ≡ Some regs.new }
        ensures few { result ≤ most }
    {
        let mut made = 0;
        'steps: while made < most {
            let pc = regs.pc();
            if pc < start || pc % 4 != start % 4 {
                return made;
            }
            let at = ((pc - start) / 4) as usize;
            if at >= instrs.len() {
                return made;
            }
            match begin(regs, &instrs[at]) {
                Effect::Local => {}
                _ => return made,
            }
            made += 1;
        }
        made
    }
}
