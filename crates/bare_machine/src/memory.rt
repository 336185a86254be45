// Guest memory, and what an instruction makes of it.
ghost use Rattle.std.specs.Prelude.{◌≡◌, ◌<◌, IfOk, OnOk, OnErr, length, slice_index};
ghost use Rattle.bare_machine.specs.Memory as memory;
ghost use Rattle.bare_machine.specs.World.{initial_memory};
ghost use Rattle.bare_machine.specs.Asked.{IsTouch, IsTouched};

use crate::request::Touch;
use crate::touch::touch;
use elf_image::Image;
use guest_memory::Reservations;
use run_record::NoMemory;
use rv_exec::Effect;
use std::alloc::{AllocError, Global};
use std::marker::Model;

/// The words of the granules, and which thread has reserved which granule.
#[derive(Drop)]
pub struct Memory {
    words: Vec<u64>,
    reservations: Reservations,
}

impl Model for Memory {
    ghost use Rattle.bare_machine.specs.Memory.{GuestMemory};

    ghost Value = { GuestMemory };

    ghost view = { λ m. record { words = m.words.items; reservations = m.reservations } };
}

/// The object that has an address of memory, from 0 to 63.
pub fn stripe(addr: u64) -> u32
    ensures { result ≡ memory.stripe addr }
{
    (addr / 8 % 64) as u32
}

impl Memory {
    /// Memory as the file has it.
    pub fn new(alloc: Global, image: &Image<'_>) -> Result<Memory, AllocError>
        ensures { IfOk result (λ m. m ≡ initial_memory image.now) }
    {
        let mut words = Vec::with_capacity(alloc, image.granules() as usize)?;
        for granule in 0..image.granules() {
            words.push(image.initial_word(granule))?;
        }
        Ok(Memory {
            words,
            reservations: Reservations::new(alloc),
        })
    }

    /// The word of a granule.
    pub(crate) fn word(&self, granule: u32) -> u64
        requires { granule < length self.now.words }
        ensures { result ≡ slice_index self.now.words granule }
    {
        self.words[granule as usize]
    }

    /// Keeps the word of a granule that was written, and ends its reservations.
    pub(crate) fn write(&mut self, granule: u32, written: Option<u64>)
        requires { granule < length self.old.words }
        ensures written { self.new ≡ memory.written self.old granule written }
        ensures size { length self.new.words ≡ length self.old.words }
    {
        if let Some(word) = written {
            self.words[granule as usize] = word;
            self.reservations.end_granule(granule);
        }
    }

    // Makes or ends the reservation that an instruction makes or ends, whatever it writes.
    fn settle(&mut self, tid: u32, granule: u32, effect: Effect) -> Result<(), AllocError>
        ensures ok { OnOk result (self.new ≡ memory.reserved self.old tid granule effect) }
        ensures words { self.new.words ≡ self.old.words }
        ensures err { OnErr result (self.new ≡ self.old) }
    {
        match effect {
            Effect::Reserve { .. } => self.reservations.reserve(tid, granule),
            Effect::Conditional { .. } => {
                self.reservations.end_thread(tid);
                Ok(())
            }
            Effect::Load { .. } | Effect::Store { .. } | Effect::Amo { .. } => Ok(()),
            Effect::Local | Effect::Call | Effect::Fault(_) => Ok(()),
        }
    }

    /// An instruction touches a granule. Its value is what the instruction gets. After want of memory nothing has changed.
    pub(crate) fn touch(&mut self, tid: u32, request: &Touch) -> Result<u64, NoMemory>
        requires granule { request.now.granule < length self.old.words }
        requires sound { IsTouch request.now }
        ensures memory { length self.new.words ≡ length self.old.words }
        ensures ok { IfOk result (λ value. IsTouched tid self.old self.new request.now value) }
        ensures err { OnErr result (self.new ≡ self.old) }
    {
        let granule = request.granule;
        let stands = self.reservations.stands(tid, granule);
        let word = self.words[granule as usize];
        let touched = touch(request.instr.op, request.effect, word, stands);
        self.settle(tid, granule, request.effect)?;
        self.write(granule, touched.written);
        Ok(touched.value)
    }
}
