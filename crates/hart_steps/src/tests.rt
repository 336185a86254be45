// Turns of threads on a file of a few instructions.
use crate::Hart;
use bare_machine::{Request, new_thread};
use elf_image::load;
use entry_calls::CallEvents;
use guest_code::Code;
use guest_memory::Reservations;
use machine_desk::MachineDesk;
use run_record::{Event, GuestEnd, Items, NoMemory};
use shared_table::GuestWords;
use std::alloc::{AllocError, Global};
use std::test::Fail;

const DATA: u64 = 0x100_0000;

// lr.d x5, (x10); sc.d x6, x11, (x10); sd x11, 0(x10); ecall; addi x5, x0, 1
const CODE: [u32; 5] = [0x1005_32af, 0x18b5_332f, 0x00b5_3023, 0x73, 0x0010_0293];

const LOAD_RESERVED: u64 = 0x1_0000;

const STORE_CONDITIONAL: u64 = 0x1_0004;

const STORE: u64 = 0x1_0008;

const CALL: u64 = 0x1_000c;

const ADD: u64 = 0x1_0010;

// The code at 0x10000 and 1,024 bytes of data at 0x1000000.
fn file(alloc: Global) -> Result<Vec<u8>, AllocError> {
    let mut bytes = Vec::new(alloc);
    bytes.extend_from_slice(&[0x7f, 0x45, 0x4c, 0x46, 2, 1, 1, 0, 0, 0, 0, 0, 0, 0, 0, 0])?;
    bytes.extend_from_slice(&[2, 0, 243, 0, 1, 0, 0, 0])?;
    for field in [0x1_0000u64, 64, 0] {
        bytes.extend_from_slice(&field.to_le_bytes())?;
    }
    bytes.extend_from_slice(&[0, 0, 0, 0, 64, 0, 56, 0, 2, 0, 64, 0, 0, 0, 0, 0])?;
    bytes.extend_from_slice(&[1, 0, 0, 0, 5, 0, 0, 0])?;
    for field in [176u64, 0x1_0000, 0x1_0000, 20, 20, 4] {
        bytes.extend_from_slice(&field.to_le_bytes())?;
    }
    bytes.extend_from_slice(&[1, 0, 0, 0, 6, 0, 0, 0])?;
    for field in [176u64, 0x100_0000, 0x100_0000, 8, 1024, 8] {
        bytes.extend_from_slice(&field.to_le_bytes())?;
    }
    for word in CODE {
        bytes.extend_from_slice(&word.to_le_bytes())?;
    }
    Ok(bytes)
}

// A thread with the data's address in x10 and a value in x11.
fn hart(value: u64) -> Hart {
    let mut thread = new_thread(CALL, DATA, 0);
    thread.regs.set(11, value);
    Hart {
        thread,
        reserved: None,
    }
}

// What the instruction there leaves in x6. It uses the first word of its stripe.
fn step_at_stripe(
    code: &Code<'_>,
    tid: u32,
    pc: u64,
    hart: &mut Hart,
    words: &mut GuestWords,
    reserved: &mut Reservations,
) -> Result<u64, NoMemory> {
    hart.thread.regs.set_pc(pc);
    let request = hart.ask(code, tid);
    let mut events = CallEvents::new();
    if words.len() > 0 {
        match request {
            Request::Touch(_) | Request::Operate(_) => {
                hart.serve_at_stripe(tid, &request, words, reserved, 0, &mut events)?;
            }
            _ => return Ok(77),
        }
    }
    Ok(hart.thread.regs.get(6))
}

// A store of another thread ends the reservation, and without one it stands.
#[test]
fn conditional_stores(rt: HostRuntime) -> Result<(), Fail> {
    let alloc = rt.alloc();
    let bytes = file(alloc)?;
    let image = load(alloc, bytes.as_slice())?;
    let code = Code::new(alloc, &image)?;
    let mut words = GuestWords::from_vec([5u64, 6].to_vec(alloc)?);
    let mut reserved = Reservations::new(alloc);
    let mut one = hart(10);
    let mut other = hart(20);
    step_at_stripe(&code, 0, LOAD_RESERVED, &mut one, &mut words, &mut reserved)?;
    step_at_stripe(&code, 1, STORE, &mut other, &mut words, &mut reserved)?;
    let failed = step_at_stripe(
        &code,
        0,
        STORE_CONDITIONAL,
        &mut one,
        &mut words,
        &mut reserved,
    )?;
    assert_eq!(rt; (failed, one.thread.regs.get(5)), (1, 5));
    assert_eq!(rt; words.as_slice(), [20, 6].as_slice());
    step_at_stripe(&code, 0, LOAD_RESERVED, &mut one, &mut words, &mut reserved)?;
    let done = step_at_stripe(
        &code,
        0,
        STORE_CONDITIONAL,
        &mut one,
        &mut words,
        &mut reserved,
    )?;
    assert_eq!(rt; (done, one.thread.regs.get(5)), (0, 20));
    assert_eq!(rt; words.as_slice(), [10, 6].as_slice());
    Ok(())
}

// The events of a call at the desk, of two threads that may live and one that does.
fn call_at_desk(
    code: &Code<'_>,
    number: u64,
    arguments: [u64; 2],
    hart: &mut Hart,
    desk: &mut MachineDesk,
) -> Result<CallEvents, NoMemory> {
    hart.thread.regs.set_pc(CALL);
    hart.thread.regs.set(17, number);
    hart.thread.regs.set(10, arguments[0]);
    hart.thread.regs.set(11, arguments[1]);
    let request = hart.ask(code, 0);
    let mut events = CallEvents::new();
    if desk.made.len() > 1024 {
        return Err(NoMemory);
    }
    match request {
        Request::Put { .. } | Request::Create { .. } | Request::Stop(_) => {
            hart.serve_at_desk(0, 2, &request, 1, None, desk, &mut events)?;
        }
        Request::Join { .. } => {
            hart.serve_at_desk(0, 2, &request, 1, Some(true), desk, &mut events)?;
        }
        _ => return Err(NoMemory),
    }
    Ok(events)
}

#[test]
fn calls_at_the_desk(rt: HostRuntime) -> Result<(), Fail> {
    let alloc = rt.alloc();
    let bytes = file(alloc)?;
    let image = load(alloc, bytes.as_slice())?;
    let code = Code::new(alloc, &image)?;
    let mut main = hart(0);
    let mut desk = MachineDesk {
        made: Items::new(alloc),
        output: Items::new(alloc),
        ended: None,
    };
    desk.made.push(main.thread)?;
    let events = call_at_desk(&code, 3, [ADD, 9], &mut main, &mut desk)?;
    assert_eq!(rt;
        events.as_slice(),
        [Event::Begin, Event::Create(1)].as_slice()
    );
    assert_eq!(rt; desk.made.len(), 2);
    let second = Hart::arrive(&desk, 1);
    assert_eq!(rt;
        (second.thread.regs.pc(), second.thread.regs.get(10)),
        (ADD, 9)
    );
    let events = call_at_desk(&code, 5, [1, 0], &mut main, &mut desk)?;
    assert_eq!(rt;
        (events.as_slice().len(), main.thread.regs.get(10)),
        (0, u64::MAX - 15)
    );
    let _put = call_at_desk(&code, 1, [0x2_6968, 2], &mut main, &mut desk)?;
    assert_eq!(rt; desk.output.as_slice(), b"hi".as_slice());
    let events = call_at_desk(&code, 2, [44, 0], &mut main, &mut desk)?;
    assert_eq!(rt; events.as_slice(), [Event::End].as_slice());
    assert_eq!(rt;
        (desk.ended, main.thread.lives),
        (Some(GuestEnd::Exit(44)), false)
    );
    let _later = call_at_desk(&code, 2, [45, 0], &mut main, &mut desk)?;
    assert_eq!(rt; desk.ended, Some(GuestEnd::Exit(44)));
    Ok(())
}

// Whether the instruction needs a slot, and what it leaves in x5.
fn step_alone(code: &Code<'_>, pc: u64, hart: &mut Hart) -> (bool, u64) {
    hart.thread.regs.set_pc(pc);
    let request = hart.ask(code, 0);
    let needs = hart.needs_slot(&request);
    let mut events = CallEvents::new();
    if let Request::Done = request {
        hart.serve_alone(&request, &mut events);
    }
    (needs, hart.thread.regs.get(5))
}

#[test]
fn steps_alone(rt: HostRuntime) -> Result<(), Fail> {
    let alloc = rt.alloc();
    let bytes = file(alloc)?;
    let image = load(alloc, bytes.as_slice())?;
    let code = Code::new(alloc, &image)?;
    let mut main = hart(0);
    assert_eq!(rt; step_alone(&code, ADD, &mut main), (true, 1));
    assert_eq!(rt; step_alone(&code, ADD, &mut main), (false, 1));
    assert_eq!(rt; step_alone(&code, ADD + 4, &mut main), (true, 1));
    Ok(())
}
