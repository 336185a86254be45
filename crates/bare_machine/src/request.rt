// What an instruction comes to.
ghost use Rattle.std.specs.Prelude.{◌≡◌};
ghost use Rattle.rv_exec.specs.Registers.{Registers};
ghost use Rattle.bare_machine.specs.Requests.{object_of, needs};
ghost use Rattle.bare_machine.specs.Asked.{asked};

use crate::machine::DESK;
use crate::memory::stripe;
use entry_calls::{Call, needs_slot};
use run_record::GuestEnd;
use rv_decode::Instr;
use rv_exec::Effect;

/// A call that is done, with its answer, if any, and the stripe that it uses, if any, and leaves as it is.
#[derive(Clone, Copy)]
pub struct Return {
    pub call: Call,
    pub answer: Option<u64>,
    pub object: Option<u32>,
}

/// An instruction that touches memory at an address of a granule.
#[derive(Clone, Copy)]
pub struct Touch {
    pub instr: Instr,
    pub effect: Effect,
    pub addr: u64,
    pub granule: u32,
}

/// An atomic call, on so many bytes at an address of a granule.
#[derive(Clone, Copy)]
pub struct Operation {
    pub call: Call,
    pub addr: u64,
    pub size: u8,
    pub granule: u32,
}

/// What an instruction comes to, as far as its own thread can tell. Unless it is done, the thread is as it was.
#[derive(Clone, Copy)]
pub enum Request {
    /// It is done, and the thread has its registers.
    Done,
    Return(Return),
    Touch(Touch),
    Operate(Operation),
    /// The low `count` bytes of the value are put.
    Put { value: u64, count: u8 },
    /// A thread is created, which begins at `pc`.
    Create { pc: u64, argument: u64, stack: u64 },
    /// The thread of this number is joined.
    Join { of: u64 },
    /// The thread ends, with this exit or fault, if any.
    Stop(Option<GuestEnd>),
}

impl Request {
    /// The object that it uses, if any: a stripe of memory, from 0 to 63, or 64 for the desk.
    pub fn object(&self) -> Option<u32>
        ensures { (r : Registers) → result ≡ object_of (asked r self.now) }
    {
        match self {
            Request::Done => None,
            Request::Return(request) => request.object,
            Request::Touch(touch) => Some(stripe(touch.addr)),
            Request::Operate(operation) => Some(stripe(operation.addr)),
            Request::Put { .. }
            | Request::Create { .. }
            | Request::Stop(_)
            | Request::Join { .. } => Some(DESK),
        }
    }

    /// Whether only a thread with a slot makes it, where that has begun.
    pub fn needs_slot(&self) -> bool
        ensures { (r : Registers) → result ≡ needs (asked r self.now) }
    {
        match self {
            Request::Done | Request::Touch(_) | Request::Put { .. } => false,
            Request::Return(request) => needs_slot(&request.call),
            Request::Operate(_)
            | Request::Create { .. }
            | Request::Join { .. }
            | Request::Stop(_) => true,
        }
    }
}
