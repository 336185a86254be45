// All racing pairs of a recorded run, by the command `audit`.
use super::*;
use tsanrun_cli::End;

/// A program, the options of `audit p`, what it puts on the output, and its status.
#[derive(Clone, Copy)]
struct Audit<'a> {
    program: &'a str,
    options: &'a [&'a str],
    out: &'a [u8],
    status: u8,
}

static AUDITS: [Audit<'static>; 4] = [
    // One pair, which `step` tells too.
    Audit {
        program: "main: N(a) E(write8,0) T; a: E(write8,0) T",
        options: &[],
        out: b"race: ?? ??:0 (0x0000000000010028) / ?? ??:0 (0x0000000000010054)\naudit: 1 pairs\n",
        status: 66,
    },
    // Of the first pair `step` tells nothing: an era ends between its accesses.
    Audit {
        program: "main: N(a) E(write8,0) E(release,8) E(write8,24) T; a: E(release,16) E(release,16) E(write8,0) E(write8,24) T",
        options: &["--harts=2", "--slots=2", "--epochs=2", "--plan=0:22,1:100"],
        out: b"race: ?? ??:0 (0x0000000000010028) / ?? ??:0 (0x00000000000100e4)\nrace: ?? ??:0 (0x0000000000010070) / ?? ??:0 (0x0000000000010108)\naudit: 2 pairs\n",
        status: 66,
    },
    // `step` tells nothing: the second thread has the slot that the first one left.
    Audit {
        program: "main: N(a) N(b) T; a: E(write8,0) T; b: E(write8,0) T",
        options: &["--harts=2", "--slots=2", "--plan=0:4,1:11,0:6"],
        out: b"race: ?? ??:0 (0x0000000000010040) / ?? ??:0 (0x000000000001006c)\naudit: 1 pairs\n",
        status: 66,
    },
    // The write happens before the thread that reads.
    Audit {
        program: "main: E(write8,0) N(a) T; a: E(read8,0) T",
        options: &[],
        out: b"audit: 0 pairs\n",
        status: 0,
    },
];

#[test]
fn racing_pairs_are_told(rt: HostRuntime) -> Result<(), Fail> {
    let alloc = rt.alloc();
    for audit in AUDITS.iter() {
        let file = assemble(alloc, audit.program, &Form::PLAIN)?;
        let mut words = vec![in alloc; "audit", "p"]?;
        words.extend_from_slice(audit.options)?;
        let answer = call(alloc, &words, &file)?;
        check(&rt, alloc, &answer, audit.out, "", audit.status)?;
        assert_eq!(rt; answer.ended.end, End::Done);
    }
    Ok(())
}

// Places have names, files and lines where the executable's tables tell them.
#[test]
fn racing_pairs_are_told_by_name(rt: HostRuntime) -> Result<(), Fail> {
    let alloc = rt.alloc();
    let program = "main: N(a) E(write8,0) T; a: E(write8,0) T";
    let file = assemble(alloc, program, &Form::NAMED)?;
    let answer = call(alloc, &["audit", "p"], &file)?;
    let out =
        b"race: main ??:0 (0x0000000000010028) / a ??:0 (0x0000000000010054)\naudit: 1 pairs\n";
    check(&rt, alloc, &answer, out, "", 66)
}
