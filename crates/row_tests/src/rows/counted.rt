// How often a call reads and puts, and what it answers where its words can't be read.
use super::reports::RACING_PROGRAM;
use super::*;
use std::io::ErrorKind;
use tool_ports::{Files, Sink};
use tsanrun_cli::{End, UsageFault, refuse_words};

/// A call over a program, or over an empty file where the program is empty, whose answer has that status. The reads and
/// puts of these numbers would fail: they are the first ones that the call doesn't make.
#[derive(Clone, Copy)]
struct Counted<'a> {
    words: &'a [&'a str],
    program: &'a str,
    next_read: u32,
    next_put_on_out: u32,
    next_put_on_err: u32,
    status: u8,
}

static COUNTED: [Counted<'static>; 7] = [
    // The executable alone is read, and the last line is one piece.
    Counted {
        words: &["step", "p"],
        program: "main: X(0)",
        next_read: 2,
        next_put_on_out: 1,
        next_put_on_err: 2,
        status: 0,
    },
    // So is the output.
    Counted {
        words: &["step", "p"],
        program: "main: addi x10,x0,65 Q Q X(0)",
        next_read: 2,
        next_put_on_out: 2,
        next_put_on_err: 2,
        status: 0,
    },
    // So is a report.
    Counted {
        words: &["step", "p"],
        program: RACING_PROGRAM,
        next_read: 2,
        next_put_on_out: 1,
        next_put_on_err: 3,
        status: 66,
    },
    // The rules are read after the executable, where they are named,
    Counted {
        words: &["step", "p", "--suppressions=rules"],
        program: "main: X(0)",
        next_read: 3,
        next_put_on_out: 1,
        next_put_on_err: 2,
        status: 0,
    },
    // and not behind one that is refused, whose line is one piece.
    Counted {
        words: &["step", "p", "--suppressions=rules"],
        program: "",
        next_read: 2,
        next_put_on_out: 1,
        next_put_on_err: 2,
        status: 3,
    },
    // Words that are refused name no file.
    Counted {
        words: &["step"],
        program: "",
        next_read: 1,
        next_put_on_out: 1,
        next_put_on_err: 2,
        status: 2,
    },
    // A made program is run without a file.
    Counted {
        words: &["gen", "--size=0", "--suppressions=rules"],
        program: "",
        next_read: 1,
        next_put_on_out: 3,
        next_put_on_err: 1,
        status: 0,
    },
];

fn file_of(alloc: Global, program: &str) -> Result<Vec<u8>, AssemblyError> {
    if program.is_empty() {
        return Ok(Vec::new(alloc));
    }
    assemble(alloc, program, &Form::PLAIN)
}

fn check_counted<R: Abort>(rt: &R, alloc: Global, counted: &Counted<'_>) -> Result<(), Fail> {
    let mut words = Vec::new(alloc);
    for word in counted.words {
        words.push(String::from_str(alloc, word)?)?;
    }
    let mut files = MemoryFiles::new(alloc, &[counted.next_read])?;
    let file = file_of(alloc, counted.program)?;
    files.add("p", &file)?;
    files.add("rules", b"race:foo")?;
    let mut out = MemorySink::new(alloc, ROOM, &[(counted.next_put_on_out, 0)])?;
    let mut err = MemorySink::new(alloc, ROOM, &[(counted.next_put_on_err, 0)])?;
    let ended = tool_step(alloc, &words, &mut files, &mut out, &mut err);
    assert_eq!(rt; ended.status, counted.status);
    assert_eq!(rt; files.faults(), 0);
    assert_eq!(rt; out.faults(), 0);
    assert_eq!(rt; err.faults(), 0);
    Ok(())
}

#[test]
fn nothing_more_is_read_or_put(rt: HostRuntime) -> Result<(), Fail> {
    for counted in COUNTED.iter() {
        check_counted(&rt, rt.alloc(), counted)?;
    }
    Ok(())
}

/// A word that isn't UTF-8 is a faulty command line.
#[test]
fn unread_words_are_refused(rt: HostRuntime) -> Result<(), Fail> {
    let alloc = rt.alloc();
    let mut err = MemorySink::new(alloc, ROOM, &[])?;
    let faulty = refuse_words(alloc, ErrorKind::InvalidData, &mut err);
    assert_eq!(rt; faulty.end, End::Usage(UsageFault::Words));
    assert_eq!(rt; faulty.status, 2);
    let usage = b"usage: tsanrun run|step FILE [options] or tsanrun gen [options]\n";
    assert_eq!(rt; err.bytes(), usage.as_slice());
    let mut other = MemorySink::new(alloc, ROOM, &[])?;
    let want = refuse_words(alloc, ErrorKind::OutOfMemory, &mut other);
    assert_eq!(rt; want.status, 7);
    assert_eq!(rt; other.bytes(), b"tsanrun: out of memory\n".as_slice());
    Ok(())
}
