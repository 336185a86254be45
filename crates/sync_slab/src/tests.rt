// Releases and acquires over eras.
ghost use Rattle.std.specs.Prelude.{◌≡◌, length, IfOk};

use crate::SyncSet;
use run_record::{NoMemory, Part};
use std::alloc::Global;
use std::test::Fail;
use vector_clock::Clock;

#[derive(Clone, Copy)]
enum Call {
    Store,
    Join,
    Clear,
    Destroy,
}

use Call::{Clear, Destroy, Join, Store};
use Part::{Main, Readers};

// The epochs of two slots.
type Epochs = (u16, u16);

// A call in an era with a clock, and what acquires of both objects of address 8 give after it in that era.
#[derive(Clone, Copy)]
struct Row {
    call: Call,
    era: u32,
    addr: u64,
    part: Part,
    clock: Epochs,
    main: Epochs,
    readers: Epochs,
}

fn after(
    call: Call,
    era: u32,
    addr: u64,
    part: Part,
    clock: Epochs,
    main: Epochs,
    readers: Epochs,
) -> Row {
    Row {
        call,
        era,
        addr,
        part,
        clock,
        main,
        readers,
    }
}

fn clock_of(alloc: Global, epochs: Epochs) -> Result<Clock, NoMemory>
    ensures { IfOk result (λ clock. length clock ≡ 2) }
{
    let mut clock = Clock::new(alloc, 2)?;
    clock.set(0, epochs.0);
    clock.set(1, epochs.1);
    Ok(clock)
}

fn make(alloc: Global, set: &mut SyncSet, row: &Row) -> Result<(), NoMemory>
    requires { set.old.slots ≡ 2 }
    ensures { set.new.slots ≡ 2 }
{
    let clock = clock_of(alloc, row.clock)?;
    set.reserve_one()?;
    match row.call {
        Store => set.release_store(row.era, row.addr, row.part, &clock),
        Join => set.release_join(row.era, row.addr, row.part, &clock),
        Clear => set.clear(row.addr),
        Destroy => set.destroy(row.addr),
    }
    Ok(())
}

// What a thread that knew nothing knows after an acquire.
fn acquired(
    alloc: Global,
    set: &SyncSet,
    era: u32,
    addr: u64,
    part: Part,
) -> Result<Epochs, NoMemory>
    requires { set.now.slots ≡ 2 }
{
    let mut clock = Clock::new(alloc, 2)?;
    set.acquire(era, addr, part, &mut clock);
    Ok((clock.get(0), clock.get(1)))
}

fn holds(alloc: Global, set: &mut SyncSet, row: &Row) -> Result<bool, NoMemory>
    requires { set.old.slots ≡ 2 }
    ensures { set.new.slots ≡ 2 }
{
    make(alloc, set, row)?;
    let main = acquired(alloc, set, row.era, 8, Main)?;
    let readers = acquired(alloc, set, row.era, 8, Readers)?;
    Ok(main == row.main && readers == row.readers)
}

#[test]
fn keeps_clocks_of_an_era(rt: HostRuntime) -> Result<(), Fail> {
    let rows = [
        after(Store, 0, 8, Main, (5, 1), (5, 1), (0, 0)),
        after(Join, 0, 8, Main, (2, 7), (5, 7), (0, 0)),
        after(Store, 0, 8, Main, (1, 1), (1, 1), (0, 0)),
        after(Join, 0, 8, Readers, (3, 0), (1, 1), (3, 0)),
        after(Join, 1, 8, Main, (0, 4), (0, 4), (0, 0)),
        after(Store, 1, 16, Main, (9, 9), (0, 4), (0, 0)),
        after(Join, 1, 8, Readers, (2, 2), (0, 4), (2, 2)),
        after(Clear, 1, 8, Main, (0, 0), (0, 0), (2, 2)),
        after(Store, 1, 8, Main, (3, 0), (3, 0), (2, 2)),
        after(Destroy, 1, 8, Main, (0, 0), (0, 0), (0, 0)),
        after(Join, 1, 8, Main, (6, 0), (6, 0), (0, 0)),
    ];
    let mut set = SyncSet::new(rt.alloc(), 2)?;
    assert_eq!(rt; set.reserve_one(), Ok(()));
    for row in rows.iter() {
        assert!(rt; holds(rt.alloc(), &mut set, row)?);
    }
    assert_eq!(rt; acquired(rt.alloc(), &set, 1, 16, Main)?, (9, 9));
    Ok(())
}
