// From a thread to its request.
ghost use Rattle.std.specs.Prelude.{◌≡◌, ℕ, List, unwrap_or};
ghost use Rattle.rv_decode.specs.Table.{IsInstr};
ghost use Rattle.rv_exec.specs.Registers.{Registers};
ghost use Rattle.rv_exec.specs.Meaning.{meaning};
ghost use Rattle.rv_exec.specs.Effects.{IsPlaced, KeepsUnlessDone, TellsAtomic};
ghost use Rattle.guest_memory.specs.Fields.{IsField};
ghost use Rattle.entry_calls.specs.declared.call.Outcome.{Outcome};
ghost use Rattle.entry_calls.specs.Calls.{call_of, IsCall, IsSize};
ghost use Rattle.entry_calls.specs.Effects.{IsAnswered};
ghost use Rattle.bare_machine.specs.declared.thread.Thread.{Thread};
ghost use Rattle.bare_machine.specs.Memory as memory;
ghost use Rattle.bare_machine.specs.Requests as requests;
ghost use Rattle.bare_machine.specs.Step.{with_registers};
ghost use Rattle.bare_machine.specs.Asked.{asked, Keeps, IsRoom, IsSound, IsShallow, IsWithin};

use crate::machine::fault_number;
use crate::memory::stripe;
use crate::request::{Operation, Request, Return, Touch};
use crate::thread::Thread;
use crate::touch::offset;
use elf_image::Image;
use entry_calls::{AtomicOp, Call, atomic_answer, read_call};
use guest_code::Code;
use guest_memory::field;
use run_record::GuestEnd;
use rv_decode::{Instr, decode};
use rv_exec::{Effect, GuestFault, begin, finish};

/// The thread ends with a fault at its pc.
fn faulted(tid: u32, thread: &Thread, fault: GuestFault) -> Request
    ensures value { (r : Registers) → asked r result ≡ requests.faulted tid thread.now fault }
    ensures sound { IsSound result }
    ensures shallow { IsShallow result thread.now.depth }
    ensures within { (file : List ℕ) → IsWithin file result }
    ensures kept { Keeps result thread.now thread.now }
{
    Request::Stop(Some(GuestEnd::Fault {
        fault: fault_number(fault),
        pc: thread.regs.pc(),
        tid,
    }))
}

// ---- calls

// A call is done, which uses no more than a stripe's name.
fn returned(thread: &Thread, call: &Call, answer: Option<u64>, object: Option<u32>) -> Request
    requires answered { (o : Outcome) → o.answer ≡ unwrap_or answer 0 → IsAnswered call.now o }
    requires room { IsRoom call.now thread.now.depth }
    ensures value { (r : Registers) → asked r result ≡ requests.returned call.now answer object }
    ensures sound { IsSound result }
    ensures shallow { IsShallow result thread.now.depth }
    ensures within { (file : List ℕ) → IsWithin file result }
    ensures kept { Keeps result thread.now thread.now }
{
    Request::Return(Return {
        call: *call,
        answer,
        object,
    })
}

fn enter(tid: u32, thread: &Thread, pc: u64) -> Request
    ensures value { (r : Registers) → asked r result ≡ requests.enter_request tid thread.now pc }
    ensures sound { IsSound result }
    ensures shallow { IsShallow result thread.now.depth }
    ensures within { (file : List ℕ) → IsWithin file result }
    ensures kept { Keeps result thread.now thread.now }
{
    if thread.depth >= 4096 {
        return faulted(tid, thread, GuestFault::StackDeep);
    }
    returned(thread, &Call::Enter { pc }, None, None)
}

// Memory that isn't writable can only be loaded.
fn operation_at_constant(
    tid: u32,
    thread: &Thread,
    op: AtomicOp,
    call: &Call,
    addr: u64,
    size: u8,
    word: u64,
) -> Request
    requires placed { IsField (memory.offset addr) size }
    requires call { IsCall call.now }
    requires answered { (o : Outcome) → IsAnswered call.now o }
    requires room { IsRoom call.now thread.now.depth }
    ensures value { (r : Registers) → asked r result ≡ requests.constant_operation tid thread.now op call.now addr size word }
    ensures sound { IsSound result }
    ensures shallow { IsShallow result thread.now.depth }
    ensures within { (file : List ℕ) → IsWithin file result }
    ensures kept { Keeps result thread.now thread.now }
{
    match op {
        AtomicOp::Load => {
            let answer = atomic_answer(call, field(word, offset(addr), size));
            returned(thread, call, answer, Some(stripe(addr)))
        }
        AtomicOp::Store | AtomicOp::Exchange | AtomicOp::Compare => {
            faulted(tid, thread, GuestFault::ReadOnly)
        }
        AtomicOp::Add | AtomicOp::Sub | AtomicOp::And | AtomicOp::Or | AtomicOp::Xor => {
            faulted(tid, thread, GuestFault::ReadOnly)
        }
    }
}

#[tactic(auto, using(crate::proofs::CallLemmas::field_at, elf_image::proofs::MemoryLaws::granule_below))]
fn operation(
    image: &Image<'_>,
    tid: u32,
    thread: &Thread,
    op: AtomicOp,
    call: &Call,
    addr: u64,
    size: u8,
) -> Request
    requires size { IsSize size }
    requires call { IsCall call.now }
    requires answered { (o : Outcome) → IsAnswered call.now o }
    requires room { IsRoom call.now thread.now.depth }
    ensures value { (r : Registers) → asked r result ≡ requests.operation image.now tid thread.now op call.now addr size }
    ensures sound { IsSound result }
    ensures shallow { IsShallow result thread.now.depth }
    ensures within { IsWithin image.now result }
    ensures kept { Keeps result thread.now thread.now }
{
    if addr % u64::from(size) != 0 {
        return faulted(tid, thread, GuestFault::Misaligned);
    }
    image.accepted();
    if let Some(granule) = image.granule_of(addr) {
        return Request::Operate(Operation {
            call: *call,
            addr,
            size,
            granule,
        });
    }
    match image.constant_word(addr) {
        Some(word) => operation_at_constant(tid, thread, op, call, addr, size, word),
        None => faulted(tid, thread, GuestFault::Outside),
    }
}

// What a call comes to.
fn request_of_call(image: &Image<'_>, tid: u32, thread: &Thread, call: &Call) -> Request
    requires { IsCall call.now }
    ensures value { (r : Registers) → asked r result ≡ requests.call_request image.now tid thread.now call.now }
    ensures sound { IsSound result }
    ensures shallow { IsShallow result thread.now.depth }
    ensures within { IsWithin image.now result }
    ensures kept { Keeps result thread.now thread.now }
{
    match *call {
        Call::Put { value, count } => Request::Put { value, count },
        Call::Create { pc, arg, sp } => Request::Create {
            pc,
            argument: arg,
            stack: sp,
        },
        Call::Exit { status } => Request::Stop(Some(GuestEnd::Exit(status))),
        Call::ThreadExit => Request::Stop(None),
        Call::Join { tid: of } => Request::Join { of },
        Call::Yield => returned(thread, call, Some(0), None),
        Call::Enter { pc } => enter(tid, thread, pc),
        Call::Access { .. } | Call::Leave | Call::Fence | Call::MutexCreate => {
            returned(thread, call, None, None)
        }
        Call::Atomic { op, size, addr, .. } => operation(image, tid, thread, op, call, addr, size),
        Call::Acquire { addr }
        | Call::Release { addr }
        | Call::MutexDestroy { addr }
        | Call::PostLock { addr, .. }
        | Call::PreUnlock { addr, .. } => returned(thread, call, None, Some(stripe(addr))),
    }
}

// The call that the registers tell.
fn told(image: &Image<'_>, tid: u32, thread: &Thread) -> Request
    ensures value { (r : Registers) → asked r result ≡ requests.told_request image.now tid thread.now (call_of thread.now.regs) }
    ensures sound { IsSound result }
    ensures shallow { IsShallow result thread.now.depth }
    ensures within { IsWithin image.now result }
    ensures kept { Keeps result thread.now thread.now }
{
    match read_call(&thread.regs) {
        Some(call) => request_of_call(image, tid, thread, &call),
        None => faulted(tid, thread, GuestFault::UnknownCall),
    }
}

// ---- instructions

// An instruction that touches memory that isn't writable.
fn at_constant(tid: u32, thread: &mut Thread, instr: &Instr, effect: Effect, word: u64) -> Request
    requires instr { IsInstr instr.now }
    requires placed { IsPlaced effect }
    ensures value { asked thread.new.regs result ≡ requests.constant_request tid thread.old instr.now effect word }
    ensures thread { thread.new ≡ with_registers thread.old thread.new.regs }
    ensures sound { IsSound result }
    ensures shallow { IsShallow result thread.old.depth }
    ensures within { (file : List ℕ) → IsWithin file result }
    ensures kept { Keeps result thread.old thread.new }
{
    match effect {
        Effect::Load { addr, size } => {
            finish(&mut thread.regs, instr, field(word, offset(addr), size));
            Request::Done
        }
        Effect::Store { .. }
        | Effect::Amo { .. }
        | Effect::Reserve { .. }
        | Effect::Conditional { .. } => faulted(tid, thread, GuestFault::ReadOnly),
        Effect::Local | Effect::Call | Effect::Fault(_) => {
            faulted(tid, thread, GuestFault::ReadOnly)
        }
    }
}

// An instruction that touches the memory at an address.
#[tactic(auto, using(elf_image::proofs::MemoryLaws::granule_below))]
fn at_address(
    image: &Image<'_>,
    tid: u32,
    thread: &mut Thread,
    instr: &Instr,
    effect: Effect,
    addr: u64,
) -> Request
    requires instr { IsInstr instr.now }
    requires placed { IsPlaced effect }
    requires atomic { TellsAtomic (meaning instr.now.op) effect }
    ensures value { asked thread.new.regs result ≡ requests.memory_request image.now tid thread.old instr.now effect addr }
    ensures thread { thread.new ≡ with_registers thread.old thread.new.regs }
    ensures sound { IsSound result }
    ensures shallow { IsShallow result thread.old.depth }
    ensures within { IsWithin image.now result }
    ensures kept { Keeps result thread.old thread.new }
{
    image.accepted();
    if let Some(granule) = image.granule_of(addr) {
        return Request::Touch(Touch {
            instr: *instr,
            effect,
            addr,
            granule,
        });
    }
    match image.constant_word(addr) {
        Some(word) => at_constant(tid, thread, instr, effect, word),
        None => faulted(tid, thread, GuestFault::Outside),
    }
}

// What an instruction comes to that has left the thread so.
fn request_of_effect(
    image: &Image<'_>,
    tid: u32,
    thread: &mut Thread,
    instr: &Instr,
    effect: Effect,
) -> Request
    requires instr { IsInstr instr.now }
    requires placed { IsPlaced effect }
    requires atomic { TellsAtomic (meaning instr.now.op) effect }
    ensures value { asked thread.new.regs result ≡ requests.effect_request image.now tid thread.old instr.now effect }
    ensures thread { thread.new ≡ with_registers thread.old thread.new.regs }
    ensures sound { IsSound result }
    ensures shallow { IsShallow result thread.old.depth }
    ensures within { IsWithin image.now result }
    ensures kept { (before : Thread) → thread.old ≡ with_registers before thread.old.regs → KeepsUnlessDone effect before.regs thread.old.regs → Keeps result before thread.new }
{
    match effect {
        Effect::Local => Request::Done,
        Effect::Call => told(image, tid, thread),
        Effect::Fault(fault) => faulted(tid, thread, fault),
        Effect::Load { addr, .. }
        | Effect::Store { addr, .. }
        | Effect::Amo { addr, .. }
        | Effect::Reserve { addr, .. }
        | Effect::Conditional { addr, .. } => at_address(image, tid, thread, instr, effect, addr),
    }
}

// What the instruction at the pc comes to, where the table of decoded instructions doesn't tell it.
#[tactic(auto, unfolding(crate::specs::Requests::request))]
fn request_of_word(image: &Image<'_>, tid: u32, thread: &mut Thread) -> Request
    ensures value { asked thread.new.regs result ≡ requests.request image.now tid thread.old }
    ensures thread { thread.new ≡ with_registers thread.old thread.new.regs }
    ensures sound { IsSound result }
    ensures shallow { IsShallow result thread.old.depth }
    ensures within { IsWithin image.now result }
    ensures kept { Keeps result thread.old thread.new }
{
    let Some(word) = image.fetch(thread.regs.pc()) else {
        return faulted(tid, thread, GuestFault::FetchOutside);
    };
    let Some(instr) = decode(word) else {
        return faulted(tid, thread, GuestFault::Illegal);
    };
    let effect = begin(&mut thread.regs, &instr);
    request_of_effect(image, tid, thread, &instr, effect)
}

impl Request {
    /// What the instruction at the pc of thread `tid` comes to. If it is done then, the thread has its registers. It takes no
    /// memory, and reads none that is written.
    #[tactic(auto, unfolding(crate::specs::Requests::request))]
    pub fn of(code: &Code<'_>, tid: u32, thread: &mut Thread) -> Request
        ensures value { asked thread.new.regs result ≡ requests.request code.now tid thread.old }
        ensures thread { thread.new ≡ with_registers thread.old thread.new.regs }
        ensures sound { IsSound result }
        ensures shallow { IsShallow result thread.old.depth }
        ensures within { IsWithin code.now result }
        ensures kept { Keeps result thread.old thread.new }
    {
        let image = code.image();
        let Some(instr) = code.instr(thread.regs.pc()) else {
            return request_of_word(image, tid, thread);
        };
        let effect = begin(&mut thread.regs, instr);
        request_of_effect(image, tid, thread, instr, effect)
    }
}
