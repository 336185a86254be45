// Random small programs under small limits, whose reports are compared with a plain closure.
ghost use Rattle.std.specs.Prelude.{◌<◌};

use super::closure::check_races;
use super::*;
use run_record::Finished;

/// Numbers by a linear congruence, of which the upper bits are taken.
#[derive(Drop)]
struct Draws {
    state: u32,
}

impl Draws {
    fn next(&mut self) -> u32 {
        self.state = self.state.wrapping_mul(1_103_515_245).wrapping_add(12_345) & 0x7fff_ffff;
        self.state >> 16
    }

    /// A number below the end.
    fn below(&mut self, end: u32) -> u32
        requires { 0 < end }
        ensures { result < end }
    {
        self.next() % end
    }
}

static ACCESSES: [&str; 12] = [
    "read1",
    "read4",
    "read8",
    "read16",
    "write1",
    "write2",
    "write4",
    "write8",
    "write16",
    "unaligned_read8",
    "unaligned_write4",
    "unaligned_write8",
];

/// An announced access of some of 32 bytes.
fn add_access(text: &mut String, draws: &mut Draws) -> Result<(), AllocError> {
    let name = ACCESSES[draws.below(12) as usize];
    let offset = draws.below(16);
    write!(text, " E({name},{offset})")
}

static ATOMICS: [&str; 4] = ["store", "exchange", "fetch_add", "fetch_xor"];

fn add_atomic(text: &mut String, draws: &mut Draws) -> Result<(), AllocError> {
    let offset = 8 * draws.below(3);
    let order = draws.below(6);
    if draws.below(3) == 0 {
        return write!(text, " E(atomic64_load,{offset},{order})");
    }
    let name = ATOMICS[draws.below(4) as usize];
    write!(text, " E(atomic64_{name},{offset},1,{order})")
}

static CALLS: [&str; 11] = [
    "acquire,64",
    "release,64",
    "post_lock,72",
    "pre_unlock,72",
    "post_lock,72,8",
    "pre_unlock,72,8",
    "destroy,64",
    "atomic64_store,64,1,0",
    "atomic64_store,72,1,0",
    "func_entry,260",
    "func_exit,0",
];

fn add_operation(text: &mut String, draws: &mut Draws) -> Result<(), AllocError> {
    match draws.below(12) {
        0..=4 => add_access(text, draws),
        5..=6 => add_atomic(text, draws),
        7 => {
            let thread = draws.below(5);
            write!(text, " J({thread})")
        }
        8 => {
            let offset = draws.below(16);
            let size = draws.below(20);
            write!(text, " E(write_range,{offset},{size})")
        }
        _ => {
            let name = CALLS[draws.below(11) as usize];
            write!(text, " E({name})")
        }
    }
}

fn add_operations(text: &mut String, draws: &mut Draws, most: u32) -> Result<(), AllocError>
    requires { 0 < most }
{
    for _ in 0..draws.below(most) {
        add_operation(text, draws)?;
    }
    Ok(())
}

/// A main thread that makes up to four others, and what these do.
fn program(alloc: Global, draws: &mut Draws) -> Result<String, AllocError> {
    let mut text = String::from_str(alloc, "main: N(t1)")?;
    for created in ["N(t2)", "N(t3)", "N(t1)"].iter() {
        add_operations(&mut text, draws, 4)?;
        if draws.below(3) > 0 {
            write!(text, " {created}")?;
        }
    }
    add_operations(&mut text, draws, 6)?;
    text.push_str(" T;")?;
    for label in ["t1", "t2", "t3"].iter() {
        write!(text, " {label}:")?;
        add_operations(&mut text, draws, 9)?;
        text.push_str(" T;")?;
    }
    Ok(text)
}

/// Small limits.
fn add_limits(alloc: Global, words: &mut Vec<String>, draws: &mut Draws) -> Result<(), AllocError> {
    let harts = 2 + draws.below(3);
    let slots = harts + draws.below(2);
    let quantum = 1 + draws.below(7);
    words.push(format!(in alloc; "--harts={harts}")?)?;
    words.push(format!(in alloc; "--slots={slots}")?)?;
    words.push(format!(in alloc; "--quantum={quantum}")?)?;
    for word in [
        "--epochs=2",
        "--steps=20000",
        "--parts=2",
        "--part-words=64",
    ]
    .iter()
    {
        words.push(String::from_str(alloc, word)?)?;
    }
    Ok(())
}

/// A plan of up to eleven turns, or none.
fn add_plan(alloc: Global, words: &mut Vec<String>, draws: &mut Draws) -> Result<(), AllocError> {
    let mut plan = String::from_str(alloc, "--plan=")?;
    let turns = draws.below(12);
    for turn in 0..turns {
        let tid = draws.below(5);
        let steps = 1 + draws.below(40);
        let before = if turn == 0 { "" } else { "," };
        write!(plan, "{before}{tid}:{steps}")?;
    }
    if turns > 0 {
        words.push(plan)?;
    }
    Ok(())
}

/// The words of a call under such limits, with a plan where the command has one.
fn words_of(
    alloc: Global,
    command: &str,
    planned: bool,
    draws: &mut Draws,
) -> Result<Vec<String>, AllocError> {
    let mut words = Vec::new(alloc);
    words.push(String::from_str(alloc, command)?)?;
    words.push(String::from_str(alloc, "p")?)?;
    add_limits(alloc, &mut words, draws)?;
    if planned {
        add_plan(alloc, &mut words, draws)?;
    }
    Ok(words)
}

fn ports_over(file: &[u8]) -> Ports<'_> {
    Ports {
        file,
        rules: b"",
        failing_reads: &[],
        failing_puts: &[],
    }
}

/// What a call keeps.
fn kept_by<R: Abort>(rt: &R, answer: Answer) -> Finished {
    let Answer {
        out: _out,
        err: _err,
        ended,
    } = answer;
    let Ended {
        status: _status,
        end: _end,
        kept,
    } = ended;
    match kept {
        Some(finished) => finished,
        None => panic!(rt; "nothing is kept"),
    }
}

/// The run of a program under such limits, one thread at a time.
fn run<R: Abort>(
    rt: &R,
    alloc: Global,
    program: &str,
    draws: &mut Draws,
) -> Result<Finished, Fail> {
    let file = assemble(alloc, program, &Form::PLAIN)?;
    let words = words_of(alloc, "step", true, draws)?;
    let answer = call_words(alloc, &words, &ports_over(&file))?;
    Ok(kept_by(rt, answer))
}

/// The run of a program under such limits, its threads at once.
fn run_at_once<R: Abort + Threads + Wait + Sync>(
    rt: &R,
    alloc: Global,
    program: &str,
    draws: &mut Draws,
) -> Result<Finished, Fail> {
    let file = assemble(alloc, program, &Form::PLAIN)?;
    let words = words_of(alloc, "run", false, draws)?;
    let answer = call_whole(rt, alloc, &words, &ports_over(&file))?;
    Ok(kept_by(rt, answer))
}

#[test]
fn reports_are_those_of_a_plain_closure(rt: HostRuntime) -> Result<(), Fail> {
    let alloc = rt.alloc();
    let mut draws = Draws { state: 1 };
    let mut races = 0usize;
    for _ in 0..300 {
        let text = program(alloc, &mut draws)?;
        let finished = run(&rt, alloc, text.as_str(), &mut draws)?;
        let found = check_races(&rt, alloc, &finished, text.as_str())?;
        races = races.saturating_add(found);
    }
    assert!(rt; races > 1_000);
    Ok(())
}

// Which races there are depends on the host; that there are many doesn't.
#[test]
fn reports_at_once_are_those_of_a_plain_closure(rt: HostRuntime) -> Result<(), Fail> {
    let alloc = rt.alloc();
    let mut draws = Draws { state: 2 };
    let mut races = 0usize;
    for _ in 0..500 {
        let text = program(alloc, &mut draws)?;
        let finished = run_at_once(&rt, alloc, text.as_str(), &mut draws)?;
        let found = check_races(&rt, alloc, &finished, text.as_str())?;
        races = races.saturating_add(found);
    }
    assert!(rt; races > 500);
    Ok(())
}
