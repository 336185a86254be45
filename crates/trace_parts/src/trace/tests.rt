// What is held, and what is restored.
ghost use Rattle.std.specs.Prelude.{◌≡◌, false};
ghost use Rattle.trace_parts.specs.declared.event.TraceEvent.TheVariants as Traced;
ghost use Rattle.trace_parts.specs.Spelling.{IsTraceable};

use super::*;
use run_record::{KeptLock, Places};
use std::process::Abort;
use std::test::Fail;

const ALL_BYTES: u64 = 0xff;

const GRANULE: u64 = 0x100_0000;

fn label(epoch: u16) -> Label
    ensures { result ≡ record { sid = 0; epoch = epoch; era = 0 } }
{
    Label {
        sid: 0,
        epoch,
        era: 0,
    }
}

fn taken(epoch: u16) -> TraceEvent
    ensures { result ≡ Traced.Label 0 epoch 0 }
{
    TraceEvent::Label {
        sid: 0,
        epoch,
        era: 0,
    }
}

fn write_at(place: u64) -> TraceEvent
    ensures { result ≡ Traced.Access place 16777216 8 false false }
{
    TraceEvent::Access {
        place,
        addr: GRANULE,
        size: 8,
        read: false,
        atomic: false,
    }
}

/// One more event, for which room is made.
fn put(rt: &impl Abort, trace: &mut Trace, event: TraceEvent) -> Result<(), Fail>
    requires { IsTraceable event }
{
    assert!(rt; trace.count() < u64::MAX);
    trace.room()?;
    trace.push(event);
    Ok(())
}

fn put_enters(rt: &impl Abort, trace: &mut Trace, from: u64, to: u64) -> Result<(), Fail> {
    for pc in from..to {
        put(rt, trace, TraceEvent::Enter { pc })?;
    }
    Ok(())
}

/// The place, the stack and the number of locks of the first write under the label.
fn restored(trace: &Trace, epoch: u16) -> Result<Option<(u64, Places, usize)>, Fail> {
    let sought = Sought {
        label: label(epoch),
        granule_address: GRANULE,
        word: ALL_BYTES + u64::from(epoch) * 0x1_0000,
    };
    match trace.ring.restore(&sought)? {
        Restored::Found {
            place,
            stack,
            locks,
            ..
        } => Ok(Some((place, stack, locks.len()))),
        Restored::Lost => Ok(None),
    }
}

#[test]
fn restores_with_stack_and_locks(rt: HostRuntime) -> Result<(), Fail> {
    let mut trace = Trace::new(rt.alloc(), 64, 2)?;
    trace.room()?;
    trace.push(taken(1));
    trace.push(TraceEvent::Enter { pc: 0x1_0000 });
    trace.push(TraceEvent::Lock {
        addr: 0x20,
        read: true,
    });
    trace.push(write_at(0x1_0054));
    assert_eq!(rt; trace.count(), 4);
    match trace.restore(label(1), GRANULE, 0x1_00ff)? {
        Restored::Found {
            place,
            addr,
            size,
            stack,
            locks,
        } => {
            assert_eq!(rt; (place, addr, size), (0x1_0054, GRANULE, 8));
            assert_eq!(rt; stack.as_slice(), [0x1_0054, 0x1_0000].as_slice());
            let lock = KeptLock {
                addr: 0x20,
                read: true,
            };
            assert_eq!(rt; locks.as_slice(), [lock].as_slice());
        }
        Restored::Lost => panic!(rt; "the label is held"),
    }
    Ok(())
}

// Two parts of 64 words: the first has two labels and the write, then 30 Enters of two words each.
#[test]
fn holds_the_last_parts(rt: HostRuntime) -> Result<(), Fail> {
    for (enters, is_held) in [(62, true), (63, false)] {
        let mut trace = Trace::new(rt.alloc(), 64, 2)?;
        put(&rt, &mut trace, taken(1))?;
        put(&rt, &mut trace, taken(2))?;
        put(&rt, &mut trace, write_at(0x1_0054))?;
        put_enters(&rt, &mut trace, 0, enters)?;
        assert_eq!(rt;
            restored(&trace, 2)?.is_some(),
            is_held,
            "after {enters} Enters"
        );
        assert!(rt; restored(&trace, 1)?.is_none());
    }
    Ok(())
}

// The write that begins the second part takes three words there, so 30 Enters fit behind it.
#[test]
fn spells_anew_in_the_next_part(rt: HostRuntime) -> Result<(), Fail> {
    for (enters, is_held) in [(30, true), (31, false)] {
        let mut trace = Trace::new(rt.alloc(), 64, 2)?;
        put(&rt, &mut trace, taken(1))?;
        put(&rt, &mut trace, write_at(0x100_0000))?;
        put_enters(&rt, &mut trace, 0, 30)?;
        put(&rt, &mut trace, write_at(0x100_0004))?;
        put_enters(&rt, &mut trace, 0, enters)?;
        assert_eq!(rt;
            restored(&trace, 1)?.is_some(),
            is_held,
            "after {enters} Enters"
        );
    }
    Ok(())
}

#[test]
fn restores_the_first_with_a_deep_stack(rt: HostRuntime) -> Result<(), Fail> {
    let mut trace = Trace::new(rt.alloc(), 64, 2)?;
    put_enters(&rt, &mut trace, 1, 4_098)?;
    put(&rt, &mut trace, TraceEvent::Leave)?;
    put(&rt, &mut trace, taken(1))?;
    put(&rt, &mut trace, write_at(0x1_0028))?;
    put(&rt, &mut trace, write_at(0x1_009c))?;
    let (place, stack, locks) = restored(&trace, 1)?.ok_or("lost")?;
    assert_eq!(rt; (place, stack.len(), locks), (0x1_0028, 4_097, 0));
    assert_eq!(rt; stack.as_slice().get(1).copied(), Some(4_096));
    assert_eq!(rt; stack.as_slice().last().copied(), Some(1));
    Ok(())
}
