// Runs by a plan of turns, and under other limits than the usual ones.
use super::*;
use run_record::{DeskNote, GuestEnd};

const RESERVING: &str =
    "main: N(a) lui x8,0x1000 lr.d x0,(x8) addi x9,x0,7 sc.d x10,x9,(x8) ld x9,0(x8) add x10,x10,x9 Q X(0); a: lui x8,0x1000 addi x9,x0,32 sb x9,0(x8) T";

static LIMITS: [Row<'static>; 3] = [
    // No second thread may live: create answers -11.
    Row {
        program: "main: N(a) Q X(0); a: T",
        options: &["--harts=1"],
        out: b"\xf5",
        summary: (0, 0, 0, 1, "exit 0"),
        ..ROW
    },
    // The budget is ten instructions.
    Row {
        program: "main: L",
        options: &["--steps=10"],
        summary: (0, 0, 0, 1, "budget spent"),
        status: 8,
        ..ROW
    },
    // Spent slots are left, and the thread goes on in another.
    Row {
        program: LEAVING,
        options: &["--epochs=2"],
        ..ROW
    },
];

#[test]
fn limits_count(rt: HostRuntime) -> Result<(), Fail> {
    for row in LIMITS.iter() {
        check_both(&rt, rt.alloc(), row)?;
    }
    Ok(())
}

static TURNS: [Row<'static>; 3] = [
    // The other thread stores a byte between LR and SC: SC answers 1, and the byte stays.
    Row {
        program: RESERVING,
        options: &["--plan=0:6,1:3,0:100"],
        out: b"\x21",
        summary: (0, 0, 0, 2, "exit 0"),
        ..ROW
    },
    // It stores before LR.
    Row {
        program: RESERVING,
        options: &["--plan=0:5,1:3,0:100"],
        out: b"\x07",
        summary: (0, 0, 0, 2, "exit 0"),
        ..ROW
    },
    // It doesn't store.
    Row {
        program: RESERVING,
        options: &["--plan=0:100"],
        out: b"\x07",
        summary: (0, 0, 0, 2, "exit 0"),
        ..ROW
    },
];

#[test]
fn plans_count(rt: HostRuntime) -> Result<(), Fail> {
    for row in TURNS.iter() {
        check_row(&rt, rt.alloc(), row)?;
    }
    Ok(())
}

const TWO_WRITERS: &str = "main: N(a) N(b) T; a: E(write8,0) T; b: E(write8,0) T";

/// Both threads spend slots, of which there are two.
const STARVING: &str =
    "main: N(a) E(write8,0) E(release,8) E(write8,24) T; a: E(release,16) E(release,16) E(write8,0) E(write8,24) T";

const STARVED: &[&str] = &["--harts=2", "--slots=2", "--epochs=2", "--plan=0:22,1:100"];

static SLOTS: [Row<'static>; 3] = [
    // b takes the slot that a gave back, and with it a's clock.
    Row {
        program: TWO_WRITERS,
        options: &["--harts=2", "--slots=2", "--plan=0:4,1:11,0:6"],
        summary: (0, 0, 0, 3, "all ended"),
        ..ROW
    },
    // With more slots b takes a fresh one.
    Row {
        program: TWO_WRITERS,
        options: &["--harts=2", "--plan=0:4,1:11,0:6"],
        races: &[Race {
            mine: "Write of size 8 at 0x0000000001000000 by thread T2",
            stack: &[(UNKNOWN, 0x1006c)],
            previous: "write of size 8 at 0x0000000001000000 by thread T1",
            previous_stack: &[(UNKNOWN, 0x10040)],
        }],
        summary: (1, 0, 0, 3, "all ended"),
        status: 66,
        ..ROW
    },
    // Spent slots begin an era, and a pair across eras isn't told.
    Row {
        program: STARVING,
        options: STARVED,
        races: &[Race {
            mine: "Write of size 8 at 0x0000000001000018 by thread T1",
            stack: &[(UNKNOWN, 0x10108)],
            previous: "write of size 8 at 0x0000000001000018 by main thread",
            previous_stack: &[(UNKNOWN, 0x10070)],
        }],
        summary: (1, 0, 0, 2, "all ended"),
        status: 66,
        ..ROW
    },
];

#[test]
fn slots_and_eras_order_accesses(rt: HostRuntime) -> Result<(), Fail> {
    for row in SLOTS.iter() {
        check_row(&rt, rt.alloc(), row)?;
    }
    Ok(())
}

static WINDOWS: [Row<'static>; 2] = [
    // The trace no longer holds the access: its stack is lost.
    Row {
        program: "a: E(write8,0) T; main: N(a) E(write8,0) 63*E(func_entry,260) T",
        options: &["--parts=2", "--part-words=64"],
        races: &[Race {
            mine: "Write of size 8 at 0x0000000001000000 by thread T1",
            stack: &[(UNKNOWN, 0x10018)],
            previous: "write of size 8 at 0x0000000001000000 by main thread",
            previous_stack: &[],
        }],
        summary: (1, 0, 0, 2, "all ended"),
        status: 66,
        ..ROW
    },
    // It just holds it.
    Row {
        program: "a: E(write8,0) T; main: N(a) E(write8,0) 62*E(func_entry,260) T",
        options: &["--parts=2", "--part-words=64"],
        races: &[Race {
            mine: "Write of size 8 at 0x0000000001000000 by thread T1",
            stack: &[(UNKNOWN, 0x10018)],
            previous: "write of size 8 at 0x0000000001000000 by main thread",
            previous_stack: &[(UNKNOWN, 0x10054)],
        }],
        summary: (1, 0, 0, 2, "all ended"),
        status: 66,
        ..ROW
    },
];

#[test]
fn short_traces_lose_stacks(rt: HostRuntime) -> Result<(), Fail> {
    for row in WINDOWS.iter() {
        check_both(&rt, rt.alloc(), row)?;
    }
    Ok(())
}

/// Each release raises the epoch, and the second of a slot spends it.
const LEAVING: &str = "main: E(release,0) E(release,0) E(release,0) E(release,0) E(write8,8) T";

#[test]
fn notes_tell_which_slots_are_taken_and_left(rt: HostRuntime) -> Result<(), Fail> {
    let alloc = rt.alloc();
    let file = assemble(alloc, LEAVING, &Form::PLAIN)?;
    let answer = call(alloc, &["step", "p", "--epochs=2"], &file)?;
    let Some(finished) = &answer.ended.kept else {
        panic!(rt; "nothing is kept");
    };
    let mut notes = Vec::new(alloc);
    for entry in finished.history.entries.to_vec(alloc)?.as_slice() {
        match entry.note {
            DeskNote::Nothing => {}
            DeskNote::Attach(label) => notes.push((true, label.sid, label.epoch))?,
            DeskNote::Leave(label) => notes.push((false, label.sid, label.epoch))?,
        }
    }
    let expected = [
        (true, 0u8, 1u16),
        (false, 0, 2),
        (true, 1, 1),
        (false, 1, 2),
        (true, 2, 1),
    ];
    assert_eq!(rt; notes.as_slice(), expected.as_slice());
    assert_eq!(rt; finished.last.end, GuestEnd::AllEnded);
    Ok(())
}

#[test]
fn a_thread_without_a_slot_ends_the_era(rt: HostRuntime) -> Result<(), Fail> {
    let alloc = rt.alloc();
    let file = assemble(alloc, STARVING, &Form::PLAIN)?;
    let mut words = Vec::new(alloc);
    words.push("step")?;
    words.push("p")?;
    words.extend_from_slice(STARVED)?;
    let answer = call(alloc, words.as_slice(), &file)?;
    let Some(finished) = &answer.ended.kept else {
        panic!(rt; "nothing is kept");
    };
    let mut steps = 0u32;
    for entry in finished.history.entries.to_vec(alloc)?.as_slice() {
        if entry.tid == 1 && entry.era == 0 {
            steps = steps.saturating_add(entry.steps);
        }
    }
    assert_eq!(rt; steps, 26);
    assert_eq!(rt; finished.last.era, 1);
    Ok(())
}
