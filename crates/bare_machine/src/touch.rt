// What an instruction makes of the word of the granule that it touches.
ghost use Rattle.std.specs.Prelude.{◌≡◌};
ghost use Rattle.rv_exec.specs.Meaning.{meaning};
ghost use Rattle.rv_exec.specs.Effects.{IsPlaced, TellsAtomic};
ghost use Rattle.bare_machine.specs.Memory as memory;

use guest_memory::{field, with_field};
use rv_decode::Op;
use rv_exec::{Effect, amo};

/// What an instruction makes of a granule's word: the value that it gets, and the new word, where
/// it writes one.
#[derive(Clone, Copy)]
pub struct Touched {
    pub value: u64,
    pub written: Option<u64>,
}

fn reads(value: u64) -> Touched
    ensures { result ≡ memory.reads value }
{
    Touched {
        value,
        written: None,
    }
}

fn writes(value: u64, word: u64) -> Touched
    ensures { result ≡ memory.writes value word }
{
    Touched {
        value,
        written: Some(word),
    }
}

/// The place of an address in its granule.
pub fn offset(addr: u64) -> u8
    ensures { result ≡ memory.offset addr }
{
    (addr % 8) as u8
}

/// What an instruction with this effect makes of the word; `stands` says whether the thread's
/// reservation of the granule stands.
pub fn touch(op: Op, effect: Effect, word: u64, stands: bool) -> Touched
    requires placed { IsPlaced effect }
    requires atomic { TellsAtomic (meaning op) effect }
    ensures { result ≡ memory.touched op effect word stands }
{
    match effect {
        Effect::Load { addr, size } | Effect::Reserve { addr, size } => {
            reads(field(word, offset(addr), size))
        }
        Effect::Store { addr, size, value } => {
            writes(0, with_field(word, offset(addr), size, value))
        }
        Effect::Amo { addr, size, arg } => {
            let old = field(word, offset(addr), size);
            let new = amo(op, size == 8, old, arg);
            writes(old, with_field(word, offset(addr), size, new))
        }
        Effect::Conditional { addr, size, value } if stands => {
            writes(0, with_field(word, offset(addr), size, value))
        }
        Effect::Conditional { .. } => reads(1),
        Effect::Local | Effect::Call | Effect::Fault(_) => reads(0),
    }
}
