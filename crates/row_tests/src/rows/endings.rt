// How runs end.
use super::*;
use run_record::{DeskNote, Event, Label};
use tsanrun_cli::End;

/// Faults, exits and ended threads, and what some instructions and calls do on the way.
static ENDINGS: [Row<'static>; 19] = [
    Row {
        program: "main: I",
        summary: (0, 0, 0, 1, "fault 1 at 0x0000000000010000 by main thread"),
        status: 9,
        ..ROW
    },
    Row {
        program: "main: jalr x0,0(x0)",
        summary: (0, 0, 0, 1, "fault 2 at 0x0000000000000000 by main thread"),
        status: 9,
        ..ROW
    },
    Row {
        program: "main: jal x0,+2",
        summary: (0, 0, 0, 1, "fault 5 at 0x0000000000010000 by main thread"),
        status: 9,
        ..ROW
    },
    Row {
        program: "main: addi x17,x0,7 ecall",
        summary: (0, 0, 0, 1, "fault 7 at 0x0000000000010004 by main thread"),
        status: 9,
        ..ROW
    },
    Row {
        program: "main: X(3)",
        summary: (0, 0, 0, 1, "exit 3"),
        status: 1,
        ..ROW
    },
    Row {
        program: "main: X(0)",
        form: Form::Plain { room: 4_194_304 },
        summary: (0, 0, 0, 1, "exit 0"),
        status: 0,
        ..ROW
    },
    // Leaving a function on an empty stack does nothing.
    Row {
        program: "main: E(func_exit,0) X(0)",
        summary: (0, 0, 0, 1, "exit 0"),
        status: 0,
        ..ROW
    },
    Row {
        program: "main: X(256)",
        summary: (0, 0, 0, 1, "exit 0"),
        status: 0,
        ..ROW
    },
    Row {
        program: "main: T",
        summary: (0, 0, 0, 1, "all ended"),
        status: 0,
        ..ROW
    },
    Row {
        program: "main: auipc x10,0 lui x11,0x10 beq x10,x11,m I m: X(0)",
        summary: (0, 0, 0, 1, "exit 0"),
        status: 0,
        ..ROW
    },
    Row {
        program: "main: addi x8,x0,3 m: addi x8,x8,-1 bne x8,x0,m add x8,x8,x8 X(5)",
        summary: (0, 0, 0, 1, "exit 5"),
        status: 1,
        ..ROW
    },
    Row {
        program: "main: jal x1,m X(1) m: jalr x0,0(x1)",
        summary: (0, 0, 0, 1, "exit 1"),
        status: 1,
        ..ROW
    },
    Row {
        program: "main: ld x10,0(x0)",
        summary: (0, 0, 0, 1, "fault 3 at 0x0000000000010000 by main thread"),
        status: 9,
        ..ROW
    },
    Row {
        program: "main: lui x8,0x10 sd x0,0(x8)",
        summary: (0, 0, 0, 1, "fault 4 at 0x0000000000010004 by main thread"),
        status: 9,
        ..ROW
    },
    Row {
        program: "main: lui x8,0x1000 lw x9,2(x8)",
        summary: (0, 0, 0, 1, "fault 5 at 0x0000000000010004 by main thread"),
        status: 9,
        ..ROW
    },
    Row {
        program: "main: ebreak",
        summary: (0, 0, 0, 1, "fault 6 at 0x0000000000010000 by main thread"),
        status: 9,
        ..ROW
    },
    Row {
        program: "main: addi x10,x0,65 Q Q X(0)",
        out: b"A\0",
        summary: (0, 0, 0, 1, "exit 0"),
        status: 0,
        ..ROW
    },
    Row {
        program: "main: lui x8,0x1000 addi x9,x0,3 amoadd.d x0,x9,(x8) ld x10,0(x8) Q X(0)",
        out: b"\x03",
        summary: (0, 0, 0, 1, "exit 0"),
        status: 0,
        ..ROW
    },
    Row {
        program: "main: lui x8,0x1000 addi x9,x0,7 lr.d x0,(x8) sc.d x10,x9,(x8) ld x9,0(x8) add x10,x10,x9 Q X(0)",
        out: b"\x07",
        summary: (0, 0, 0, 1, "exit 0"),
        status: 0,
        ..ROW
    },
];

#[test]
fn runs_end(rt: HostRuntime) -> Result<(), Fail> {
    for row in ENDINGS.iter() {
        check_both(&rt, rt.alloc(), row)?;
    }
    Ok(())
}

#[test]
fn a_budget_is_spent(rt: HostRuntime) -> Result<(), Fail> {
    let row = Row {
        program: "main: L",
        summary: (0, 0, 0, 1, "budget spent"),
        status: 8,
        ..ROW
    };
    check_both(&rt, rt.alloc(), &row)
}

#[test]
fn the_history_is_kept(rt: HostRuntime) -> Result<(), Fail> {
    let alloc = rt.alloc();
    let file = assemble(alloc, "main: X(3)", &Form::PLAIN)?;
    let answer = call(alloc, &["step", "p"], &file)?;
    assert_eq!(rt; answer.ended.end, End::Done);
    let Some(kept) = &answer.ended.kept else {
        panic!(rt; "nothing is kept");
    };
    let entries = kept.history.entries.to_vec(alloc)?;
    let [attached, made] = entries.as_slice() else {
        panic!(rt; "there aren't two entries");
    };
    let label = Label {
        sid: 0,
        epoch: 1,
        era: 0,
    };
    assert_eq!(rt; attached.note, DeskNote::Attach(label));
    assert_eq!(rt; attached.stamp, 1);
    assert_eq!(rt; attached.steps, 0);
    assert!(rt; attached.events.is_empty());
    assert_eq!(rt; made.note, DeskNote::Nothing);
    assert_eq!(rt; made.stamp, 2);
    assert_eq!(rt; made.steps, 3);
    assert_eq!(rt;
        made.events.as_slice(),
        [Event::Begin, Event::End].as_slice()
    );
    Ok(())
}
