// Instructions of registers, and loads and stores, made without a request.
ghost use Rattle.std.specs.Prelude.{◌≡◌, ℕ, Some, length, slice_get, slice_set};
ghost use Rattle.elf_image.specs.File.{granules_of};
ghost use Rattle.bare_machine.specs.World.{World};
ghost use Rattle.bare_machine.specs.Step.{with_registers};
ghost use Rattle.bare_machine.specs.Plain.{MakesPlain};

use crate::memory::Memory;
use crate::thread::Thread;
use crate::touch::offset;
use guest_code::Code;
use guest_memory::{field, with_field};
use rv_exec::{Effect, begin, finish};

/// What was made of a thread's next instruction.
#[derive(Clone, Copy)]
pub enum Plain {
    /// It isn't made: nothing has changed.
    Nothing,
    /// It touched registers alone.
    Registers,
    /// It loaded or stored a word, and used the stripe of its address.
    Word,
}

impl Thread {
    // Makes the next instruction where it touches registers alone, or loads or stores a word of memory that may be written.
    #[tactic(auto, using(elf_image::proofs::MemoryLaws::granule_below))]
    #[inline(always)]
    pub(crate) fn make_plain(&mut self, code: &Code<'_>, memory: &mut Memory) -> Plain
        requires { length memory.old.words ≡ granules_of code.now }
        ensures registers { self.new ≡ with_registers self.old self.new.regs }
        ensures made { (tid : ℕ) (w : World) → slice_get w.threads tid ≡ Some self.old → w.memory ≡ memory.old → MakesPlain code.now tid w result (record w { threads = slice_set w.threads tid self.new; memory = memory.new }) }
    {
        if !self.began {
            return Plain::Nothing;
        }
        let Some(instr) = code.instr(self.regs.pc()) else {
            return Plain::Nothing;
        };
        let image = code.image();
        image.accepted();
        match begin(&mut self.regs, instr) {
            Effect::Local => Plain::Registers,
            Effect::Load { addr, size } => {
                let Some(granule) = image.granule_of(addr) else {
                    return Plain::Nothing;
                };
                let word = memory.word(granule);
                finish(&mut self.regs, instr, field(word, offset(addr), size));
                Plain::Word
            }
            Effect::Store { addr, size, value } => {
                let Some(granule) = image.granule_of(addr) else {
                    return Plain::Nothing;
                };
                let word = memory.word(granule);
                let stored = with_field(word, offset(addr), size, value);
                memory.write(granule, Some(stored));
                finish(&mut self.regs, instr, 0);
                Plain::Word
            }
            _ => Plain::Nothing,
        }
    }
}
