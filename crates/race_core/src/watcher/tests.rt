// Calls that take memory, each with an answer, and the parts of an access in an image.
ghost use Rattle.std.specs.Prelude.{IsSome};
ghost use Rattle.run_laws.specs.Accesses.{access_of};

use super::*;
use elf_image::load;
use run_record::KeptLock;
use std::test::Fail;

const LIMITS: Limits = Limits {
    harts: 4,
    slots: 8,
    epochs: 5,
    steps: 100,
    quantum: 10,
    parts: 2,
    part_words: 64,
};

#[test]
fn tells_an_access_with_stack_and_locks(rt: HostRuntime) -> Result<(), Fail> {
    let mut watcher = Watcher::new(rt.alloc(), 3, &LIMITS)?;
    assert_eq!(rt;
        (watcher.tid(), watcher.depth(), watcher.label()),
        (3, 0, None)
    );
    watcher.room()?;
    watcher.note(&Event::Enter(0x1_0000));
    watcher.note(&Event::Enter(0x1_0040));
    watcher.note(&Event::Lock {
        addr: 0x100_0008,
        read: true,
    });
    let access = Event::Access {
        place: 0x1_0080,
        addr: 0x100_0000,
        size: 4,
        read: false,
        atomic: true,
    };
    let side = watcher.side_now(&access)?;
    assert_eq!(rt; (side.tid, side.read, side.atomic), (3, false, true));
    assert_eq!(rt; (side.addr, side.size), (0x100_0000, 4));
    match &side.stack {
        Some(stack) => {
            assert_eq!(rt; stack.as_slice(), [0x1_0080, 0x1_0040, 0x1_0000].as_slice());
        }
        None => panic!(rt; "no stack"),
    }
    let lock = KeptLock {
        addr: 0x100_0008,
        read: true,
    };
    assert_eq!(rt; side.locks.as_slice(), [lock].as_slice());
    Ok(())
}

// An executable with one instruction at 0x10000 and sixteen writable bytes at 0x1000000, which are
// its first two granules; the stack's are behind them.
const FILE: [u8; 180] = [
    0x7f, 0x45, 0x4c, 0x46, 2, 1, 1, 0, 0, 0, 0, 0, 0, 0, 0, 0, 2, 0, 0xf3, 0, 1, 0, 0, 0, 0, 0, 1,
    0, 0, 0, 0, 0, 0x40, 0, 0, 0, 0, 0, 0, 0, 0, 0, 0, 0, 0, 0, 0, 0, 0, 0, 0, 0, 0x40, 0, 0x38, 0,
    2, 0, 0x40, 0, 0, 0, 0, 0, 1, 0, 0, 0, 5, 0, 0, 0, 0xb0, 0, 0, 0, 0, 0, 0, 0, 0, 0, 1, 0, 0, 0,
    0, 0, 0, 0, 1, 0, 0, 0, 0, 0, 4, 0, 0, 0, 0, 0, 0, 0, 4, 0, 0, 0, 0, 0, 0, 0, 8, 0, 0, 0, 0, 0,
    0, 0, 1, 0, 0, 0, 6, 0, 0, 0, 0xb4, 0, 0, 0, 0, 0, 0, 0, 0, 0, 0, 1, 0, 0, 0, 0, 0, 0, 0, 1, 0,
    0, 0, 0, 0, 0, 0, 0, 0, 0, 0, 0, 0x10, 0, 0, 0, 0, 0, 0, 0, 8, 0, 0, 0, 0, 0, 0, 0, 0x73, 0, 0,
    0,
];

#[test]
fn plans_an_access(rt: HostRuntime) -> Result<(), Fail> {
    let image = match load(rt.alloc(), &FILE) {
        Ok(image) => image,
        Err(_) => panic!(rt; "the file is refused"),
    };
    let watcher = Watcher::new(rt.alloc(), 0, &LIMITS)?;
    // Two bytes before the writable ones, all of the first granule, and three bytes of the second.
    let mut parts = watcher.plan_access(&image, &access(0xff_fffe, 13));
    assert_eq!(rt; parts.next(), Some((0, 0xff)));
    assert_eq!(rt; parts.next(), Some((1, 0x07)));
    assert_eq!(rt; parts.next(), None);
    let mut parts = watcher.plan_access(&image, &access(0x100_0003, 2));
    assert_eq!(rt; parts.next(), Some((0, 0x18)));
    assert_eq!(rt; parts.next(), None);
    // Code can't be written, and addresses end at 2^64.
    let mut parts = watcher.plan_access(&image, &access(0x1_0000, 4));
    assert_eq!(rt; parts.next(), None);
    let mut parts = watcher.plan_access(&image, &access(u64::MAX, 8));
    assert_eq!(rt; parts.next(), None);
    Ok(())
}

fn access(addr: u64, size: u32) -> Event
    ensures { IsSome (access_of result) }
{
    Event::Access {
        place: 0,
        addr,
        size,
        read: true,
        atomic: false,
    }
}
