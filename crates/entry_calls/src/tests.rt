// The events of calls at the edges of the call table.
use crate::{CallEvents, Outcome, atomic_answer, atomic_word, events_of, needs_slot, read_call};
use run_record::{Event, Part};
use rv_exec::Regs;
use std::test::Fail;

const PLACE: u64 = 0x1_0054;

const ADDR: u64 = 0x100_0000;

const LAST: u64 = 0xffff_ffff_ffff_ffff;
// -11
const NO_THREAD: u64 = 0xffff_ffff_ffff_fff5;

fn registers(number: u64, arguments: [u64; 5]) -> Regs {
    let mut regs = Regs::new(PLACE + 4);
    regs.set(17, number);
    regs.set(10, arguments[0]);
    regs.set(11, arguments[1]);
    regs.set(12, arguments[2]);
    regs.set(13, arguments[3]);
    regs.set(14, arguments[4]);
    regs
}

fn told(number: u64, arguments: [u64; 5], wrote: bool) -> Option<CallEvents> {
    let call = read_call(&registers(number, arguments))?;
    let outcome = Outcome {
        place: PLACE,
        wrote,
        answer: NO_THREAD,
    };
    Some(events_of(&call, &outcome))
}

#[test]
fn announces(rt: HostRuntime) -> Result<(), Fail> {
    for (number, arguments, wrote, count, events) in TOLD {
        let told = told(number, arguments, wrote).ok_or("no call")?;
        assert!(rt; count <= 3);
        assert_eq!(rt; told.as_slice(), &events[..count]);
    }
    Ok(())
}

const READ: Event = Event::Access {
    place: PLACE,
    addr: ADDR,
    size: 8,
    read: true,
    atomic: true,
};

const WRITE: Event = Event::Access {
    place: PLACE,
    addr: ADDR,
    size: 8,
    read: false,
    atomic: true,
};

const BYTE: Event = Event::Access {
    place: PLACE,
    addr: ADDR,
    size: 1,
    read: false,
    atomic: true,
};

const END: Event = Event::Access {
    place: PLACE,
    addr: LAST,
    size: 2,
    read: true,
    atomic: false,
};

const LONG: Event = Event::Access {
    place: PLACE,
    addr: ADDR,
    size: 0x1_0000,
    read: false,
    atomic: false,
};

const ACQUIRE: Event = Event::Acquire {
    addr: ADDR,
    part: Part::Main,
};

const REPLACE: Event = Event::Release {
    addr: ADDR,
    part: Part::Main,
    replaces: true,
};

const JOIN: Event = Event::Release {
    addr: ADDR,
    part: Part::Main,
    replaces: false,
};

const CLEAR: Event = Event::Clear { addr: ADDR };

const NONE: Event = Event::Leave;

// The number, the arguments, whether it wrote, and the events: so many of the three.
const TOLD: [(u64, [u64; 5], bool, usize, [Event; 3]); 17] = [
    // atomic64_load: acquire, consume, relaxed, release
    (112, [ADDR, 2, 0, 0, 0], false, 2, [ACQUIRE, READ, NONE]),
    (112, [ADDR, 1, 0, 0, 0], false, 2, [ACQUIRE, READ, NONE]),
    (112, [ADDR, 0, 0, 0, 0], false, 1, [READ, NONE, NONE]),
    (112, [ADDR, 3, 0, 0, 0], false, 1, [READ, NONE, NONE]),
    // atomic64_store: release, acquire, an order above 5
    (113, [ADDR, 1, 3, 0, 0], true, 2, [WRITE, REPLACE, NONE]),
    (113, [ADDR, 1, 2, 0, 0], true, 2, [WRITE, CLEAR, NONE]),
    (113, [ADDR, 1, 6, 0, 0], true, 2, [WRITE, REPLACE, NONE]),
    // atomic64_exchange: acq_rel, an order above 5; atomic8_exchange: consume
    (114, [ADDR, 1, 4, 0, 0], true, 3, [WRITE, ACQUIRE, JOIN]),
    (114, [ADDR, 1, LAST, 0, 0], true, 3, [WRITE, ACQUIRE, JOIN]),
    (66, [ADDR, 0xabcd, 1, 0, 0], true, 2, [BYTE, ACQUIRE, NONE]),
    // atomic64_compare_exchange_val: one that wrote with release, then failures of each order
    (120, [ADDR, 1, 2, 3, 2], true, 2, [WRITE, JOIN, NONE]),
    (120, [ADDR, 1, 2, 5, 0], false, 1, [READ, NONE, NONE]),
    (120, [ADDR, 1, 2, 0, 1], false, 2, [ACQUIRE, READ, NONE]),
    (120, [ADDR, 1, 2, 5, 3], false, 1, [READ, NONE, NONE]),
    // ranges: at the last address, of no bytes, of 65,537 bytes
    (34, [LAST, 2, 0, 0, 0], false, 1, [END, NONE, NONE]),
    (35, [ADDR, 0, 0, 0, 0], false, 0, [NONE, NONE, NONE]),
    (35, [ADDR, 0x1_0001, 0, 0, 0], false, 1, [LONG, NONE, NONE]),
];

#[test]
fn exchanges(rt: HostRuntime) -> Result<(), Fail> {
    for (number, arguments, old, new, answer) in WORDS {
        let call = read_call(&registers(number, arguments)).ok_or("no call")?;
        assert!(rt; needs_slot(&call));
        assert_eq!(rt; atomic_word(&call, old), new);
        assert_eq!(rt; atomic_answer(&call, old), answer);
    }
    Ok(())
}

// The number, the arguments, the old word, the word to store, and the answer.
const WORDS: [(u64, [u64; 5], u64, Option<u64>, Option<u64>); 10] = [
    // atomic8: exchange with high bits, fetch_sub, compare exchange with high bits
    (66, [ADDR, 0xabcd, 5, 0, 0], 0x80, Some(0xcd), Some(0x80)),
    (68, [ADDR, 1, 5, 0, 0], 0, Some(0xff), Some(0)),
    (72, [ADDR, 0x180, 0x201, 5, 0], 0x80, Some(1), Some(0x80)),
    // atomic16: load; atomic32: fetch_add
    (80, [ADDR, 5, 0, 0, 0], 0x8000, None, Some(0x8000)),
    (99, [ADDR, 1, 5, 0, 0], 0xffff_ffff, Some(0), Some(LAST)),
    // atomic64: store, fetch_and, fetch_or, fetch_xor, a compare exchange that fails
    (113, [ADDR, 7, 5, 0, 0], 1, Some(7), None),
    (117, [ADDR, 0xf0, 5, 0, 0], LAST, Some(0xf0), Some(LAST)),
    (118, [ADDR, 0xf0, 5, 0, 0], 0x0f, Some(0xff), Some(0x0f)),
    (
        119,
        [ADDR, LAST, 5, 0, 0],
        1,
        Some(0xffff_ffff_ffff_fffe),
        Some(1),
    ),
    (120, [ADDR, 1, 2, 5, 5], 3, None, Some(3)),
];

#[test]
fn refuses(rt: HostRuntime) {
    for number in [0, 7, 15, 47, 63, 73, 79, 121, 128, LAST] {
        assert!(rt; read_call(&registers(number, [0; 5])).is_none());
    }
}
