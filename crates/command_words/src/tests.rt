// Command lines and their answers. A line is cut into words at its spaces.
ghost use Rattle.std.specs.Prelude.{◌≡◌, IfOk};

use crate::{Refusal, Request, Search, Task, UsageFault, read_words};
use run_record::{Limits, NoMemory, Turn};
use std::alloc::Global;
use std::test::Fail;

static REFUSED: [(&str, UsageFault); 44] = [
    ("", UsageFault::Command),
    ("--help", UsageFault::Words),
    ("-h", UsageFault::Words),
    ("step a --help", UsageFault::Words),
    ("--harts=4", UsageFault::Words),
    ("step a b", UsageFault::Words),
    ("step a --slot=4", UsageFault::Words),
    ("step a -q", UsageFault::Words),
    ("step a --plan", UsageFault::Words),
    ("step a --harts --slots", UsageFault::Words),
    ("gen --harts=1 --harts=1", UsageFault::Words),
    ("gen --slots=1 --slots 1", UsageFault::Words),
    ("gen --epochs=2 --epochs=2", UsageFault::Words),
    ("gen --steps=1 --steps=1", UsageFault::Words),
    ("gen --quantum=1 --quantum=1", UsageFault::Words),
    ("gen --parts=2 --parts=2", UsageFault::Words),
    ("gen --part-words=64 --part-words=64", UsageFault::Words),
    ("gen --plan=0:1 --plan=0:1", UsageFault::Words),
    ("gen --suppressions=a --suppressions=a", UsageFault::Words),
    ("gen --seed=1 --seed=1", UsageFault::Words),
    ("gen --size=1 --size=1", UsageFault::Words),
    ("stop a", UsageFault::Command),
    ("Step a", UsageFault::Command),
    ("step", UsageFault::File),
    ("run --harts=0", UsageFault::File),
    ("gen a", UsageFault::File),
    ("locks", UsageFault::File),
    ("lock a", UsageFault::Command),
    ("audit", UsageFault::File),
    ("pairs a", UsageFault::Command),
    ("gen --harts=", UsageFault::Number),
    ("gen --harts=+4", UsageFault::Number),
    ("gen --harts=0", UsageFault::Number),
    ("gen --harts=65", UsageFault::Number),
    ("gen --seed=4294967296", UsageFault::Number),
    ("gen --seed=9999999999", UsageFault::Number),
    ("gen --seed=00000000001", UsageFault::Number),
    ("gen --plan=", UsageFault::Plan),
    ("gen --plan=0:1,", UsageFault::Plan),
    ("gen --plan=1024:1", UsageFault::Plan),
    ("gen --plan=0:0", UsageFault::Plan),
    ("gen --plan=00000:1", UsageFault::Plan),
    ("gen --plan=0:1:1", UsageFault::Plan),
    ("gen --harts=3 --slots=2", UsageFault::FewSlots),
];

static ACCEPTED: [&str; 10] = [
    "gen",
    "run a",
    "locks a",
    "audit a",
    "step a --harts 64 --slots 64",
    "step --seed=0000000001 -- -a",
    "gen --seed=4294967295 --size=0",
    "gen --plan=1023:8000000,0000:00000001",
    "gen --plan 0:1",
    "step a --suppressions=",
];

static SEARCHES: [(&str, Search); 2] = [("locks a", Search::Locks), ("audit a", Search::Pairs)];

fn words_of(alloc: Global, line: &str) -> Result<Vec<String>, NoMemory> {
    let mut words = Vec::new(alloc);
    for word in line.split(' ') {
        words.push(String::from_str(alloc, word)?)?;
    }
    Ok(words)
}

fn fault_of(answer: Result<Request, Refusal>) -> Option<UsageFault> {
    match answer {
        Err(Refusal::Usage(fault)) => Some(fault),
        Ok(_) | Err(Refusal::NoMemory) => None,
    }
}

#[test]
fn refused_lines(rt: HostRuntime) -> Result<(), Fail> {
    for (line, fault) in REFUSED.iter() {
        let words = words_of(rt.alloc(), line)?;
        let answer = read_words(rt.alloc(), words.as_slice());
        assert_eq!(rt; fault_of(answer), Some(*fault), "{line}");
    }
    Ok(())
}

#[test]
fn accepted_lines(rt: HostRuntime) -> Result<(), Fail> {
    for line in ACCEPTED.iter() {
        let words = words_of(rt.alloc(), line)?;
        assert!(rt; read_words(rt.alloc(), words.as_slice()).is_ok(), "{line}");
    }
    Ok(())
}

#[test]
fn what_is_looked_for(rt: HostRuntime) -> Result<(), Fail> {
    for (line, search) in SEARCHES.iter() {
        let words = words_of(rt.alloc(), line)?;
        let request = read_words(rt.alloc(), words.as_slice()).expect(&rt, "a request");
        let task = Task::Search {
            search: *search,
            file: "a",
        };
        assert!(rt; request.task == task, "{line}");
    }
    Ok(())
}

#[test]
fn no_words(rt: HostRuntime) {
    let answer = read_words(rt.alloc(), &[]);
    assert_eq!(rt; fault_of(answer), Some(UsageFault::Words));
}

#[test]
fn each_option_is_read(rt: HostRuntime) -> Result<(), Fail> {
    let line =
        "step --harts 2 --slots=3 --epochs=4 --steps=5 --quantum=6 --parts=7 --part-words=64 --plan=1:2,0:3 --suppressions=rules -- -file";
    let words = words_of(rt.alloc(), line)?;
    let request = read_words(rt.alloc(), words.as_slice()).expect(&rt, "a request");
    let limits = Limits {
        harts: 2,
        slots: 3,
        epochs: 4,
        steps: 5,
        quantum: 6,
        parts: 7,
        part_words: 64,
    };
    let turns = [Turn { tid: 1, steps: 2 }, Turn { tid: 0, steps: 3 }];
    assert!(rt; request.task == Task::Step { file: "-file" });
    assert_eq!(rt; request.limits, limits);
    assert_eq!(rt; request.plan.as_slice(), turns.as_slice());
    assert!(rt; request.suppressions == Some("rules"));
    Ok(())
}

#[test]
fn defaults(rt: HostRuntime) -> Result<(), Fail> {
    let words = words_of(rt.alloc(), "gen")?;
    let request = read_words(rt.alloc(), words.as_slice()).expect(&rt, "a request");
    let limits = Limits {
        harts: 4,
        slots: 255,
        epochs: 16_383,
        steps: 1_000_000,
        quantum: 1_000,
        parts: 8,
        part_words: 512,
    };
    assert!(rt;
        request.task
            == Task::Generate {
                seed: 1,
                size: 1_000
            }
    );
    assert_eq!(rt; request.limits, limits);
    assert!(rt; request.plan.is_empty());
    assert!(rt; request.suppressions.is_none());
    Ok(())
}

// A plan of so many turns, and one more.
fn plan_words(alloc: Global, more: usize) -> Result<Vec<String>, NoMemory> {
    let mut plan = String::from_str(alloc, "--plan=1023:8000000")?;
    for _ in 0..more {
        plan.push_str(",1023:8000000")?;
    }
    let mut words = words_of(alloc, "gen")?;
    words.push(plan)?;
    Ok(words)
}

#[test]
fn longest_plan(rt: HostRuntime) -> Result<(), Fail> {
    let words = plan_words(rt.alloc(), 4_095)?;
    let request = read_words(rt.alloc(), words.as_slice()).expect(&rt, "a request");
    assert_eq!(rt; request.plan.len(), 4_096);
    let words = plan_words(rt.alloc(), 4_096)?;
    let answer = read_words(rt.alloc(), words.as_slice());
    assert_eq!(rt; fault_of(answer), Some(UsageFault::Plan));
    Ok(())
}
