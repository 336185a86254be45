// Texts as they are printed, and what becomes of offered races.
ghost use Rattle.std.specs.Prelude.{◌≡◌};
ghost use Rattle.report_text.specs.Offers.{offers};

use crate::{
    Hybrid, Offered, Pair, Reporter, Suppressions, Unsuppressed, hybrid_text, pair_text, status_of,
    summary, text_of,
};
use run_record::{
    Bytes, Entries, Finished, GuestEnd, KeptLock, LastState, Locks, NoMemory, Places, Record,
    Report, Reports, Side,
};
use std::alloc::{AllocError, Global};
use std::cell::Cell;
use std::test::Fail;
use symbol_lines::{FileText, Frame, Frames, Unnamed};

fn places(alloc: Global, stack: &[u64]) -> Result<Places, AllocError> {
    let mut places = Places::new(alloc);
    places.extend_from_slice(stack)?;
    Ok(places)
}

// A write of eight bytes at 0x1000000 without locks.
fn write_of(alloc: Global, tid: u32, stack: &[u64]) -> Result<Side, AllocError> {
    Ok(Side {
        tid,
        read: false,
        atomic: false,
        addr: 0x1000000,
        size: 8,
        stack: Some(places(alloc, stack)?),
        locks: Locks::new(alloc),
    })
}

// A write of eight bytes by the main thread whose stack is lost.
fn lost_write(alloc: Global) -> Side {
    Side {
        tid: 0,
        read: false,
        atomic: false,
        addr: 0x1000000,
        size: 8,
        stack: None,
        locks: Locks::new(alloc),
    }
}

// Knows the addresses below 0x10050.
#[derive(Clone, Copy)]
struct FewNames;

impl Frames for FewNames {
    ghost use Rattle.std.specs.Prelude.{nat_lt, if◌then◌else◌, codes, []};

    ghost frame_of = { λ _ place. if nat_lt place 0x10050 then record { name = codes "main"; file = codes "src/a.c"; line = 18446744073709551615 } else (if nat_lt place 0x10060 then record { name = codes "a"; file = []; line = 7 } else record { name = []; file = codes "b.c"; line = 0 }) };

    fn frame(&self, place: u64) -> Frame<'_> {
        if place < 0x10050 {
            Frame {
                name: "main",
                file: FileText {
                    directory: Some("src"),
                    name: "a.c",
                },
                line: u64::MAX,
            }
        } else if place < 0x10060 {
            Frame {
                name: "a",
                file: FileText::of_name(""),
                line: 7,
            }
        } else {
            Frame {
                name: "",
                file: FileText::of_name("b.c"),
                line: 0,
            }
        }
    }
}

#[test]
fn two_writes_without_names(rt: HostRuntime) -> Result<(), Fail> {
    let alloc = rt.alloc();
    let report = Report {
        mine: write_of(alloc, 1, &[0x10054])?,
        previous: write_of(alloc, 0, &[0x10028])?,
    };
    let text = text_of(alloc, &report, &Unnamed)?;
    let wanted = b"==================
WARNING: ThreadSanitizer: data race
  Write of size 8 at 0x0000000001000000 by thread T1:
    #0 ?? ??:0 (0x0000000000010054)
  Previous write of size 8 at 0x0000000001000000 by main thread:
    #0 ?? ??:0 (0x0000000000010028)
==================
";
    assert!(rt; text.as_slice() == wanted.as_slice());
    Ok(())
}

// A read of three frames by thread 1023 under two locks.
fn locked_read(alloc: Global) -> Result<Side, AllocError> {
    let first = KeptLock {
        addr: 0x1000008,
        read: false,
    };
    let second = KeptLock {
        addr: 0x1000010,
        read: true,
    };
    let mut side = write_of(alloc, 1023, &[0x1004c, 0x10050, 0x10060])?;
    side.read = true;
    side.addr = 0xfedc_ba98_7654_3210;
    side.size = 65536;
    side.locks.extend_from_slice(&[first, second])?;
    Ok(side)
}

#[test]
fn kinds_locks_names_and_a_lost_stack(rt: HostRuntime) -> Result<(), Fail> {
    let alloc = rt.alloc();
    let mine = locked_read(alloc)?;
    let mut previous = lost_write(alloc);
    previous.atomic = true;
    let text = text_of(alloc, &Report { mine, previous }, &FewNames)?;
    let wanted = b"==================
WARNING: ThreadSanitizer: data race
  Read of size 65536 at 0xfedcba9876543210 by thread T1023 (mutexes: write 0x0000000001000008, read 0x0000000001000010):
    #0 main src/a.c:18446744073709551615 (0x000000000001004c)
    #1 a ??:0 (0x0000000000010050)
    #2 ?? b.c:0 (0x0000000000010060)
  Previous atomic write of size 8 at 0x0000000001000000 by main thread:
    [failed to restore the stack]
==================
";
    assert!(rt; text.as_slice() == wanted.as_slice());
    Ok(())
}

#[test]
fn a_pair_by_its_places(rt: HostRuntime) -> Result<(), Fail> {
    let alloc = rt.alloc();
    let pair = Pair {
        low: 0x1004c,
        high: 0x10050,
    };
    let text = pair_text(alloc, &pair, &FewNames)?;
    let wanted =
        b"race: main src/a.c:18446744073709551615 (0x000000000001004c) / a ??:0 (0x0000000000010050)\n";
    assert!(rt; text.as_slice() == wanted.as_slice());
    let one = Pair {
        low: 0xfedc_ba98_7654_3210,
        high: 0xfedc_ba98_7654_3210,
    };
    let text = pair_text(alloc, &one, &Unnamed)?;
    let wanted = b"race: ?? ??:0 (0xfedcba9876543210) / ?? ??:0 (0xfedcba9876543210)\n";
    assert!(rt; text.as_slice() == wanted.as_slice());
    Ok(())
}

#[test]
fn a_pair_that_only_locks_had_ordered(rt: HostRuntime) -> Result<(), Fail> {
    let alloc = rt.alloc();
    let pair = Pair {
        low: 0x10028,
        high: 0x1004c,
    };
    let later = locked_read(alloc)?;
    let mut earlier = write_of(alloc, 0, &[0x10028])?;
    earlier.atomic = true;
    let hybrid = Hybrid {
        pair,
        later,
        earlier,
    };
    let text = hybrid_text(alloc, &hybrid, &FewNames)?;
    let wanted = b"==================
WARNING: tsanrun: unordered without locks
  Read of size 65536 at 0xfedcba9876543210 by thread T1023 (mutexes: write 0x0000000001000008, read 0x0000000001000010):
    #0 main src/a.c:18446744073709551615 (0x000000000001004c)
    #1 a ??:0 (0x0000000000010050)
    #2 ?? b.c:0 (0x0000000000010060)
  Previous atomic write of size 8 at 0x0000000001000000 by main thread:
    #0 main src/a.c:18446744073709551615 (0x0000000000010028)
==================
";
    assert!(rt; text.as_slice() == wanted.as_slice());
    Ok(())
}

// A run without entries that ended so.
fn run_of(alloc: Global, reports: Reports, end: GuestEnd) -> Finished {
    Finished {
        history: Record {
            entries: Entries::new(alloc),
        },
        reports,
        suppressed: 20,
        equal: 300,
        output: Bytes::new(alloc),
        last: LastState {
            threads: 4,
            rounds: 5,
            era: 6,
            end,
        },
    }
}

const ENDS: [(GuestEnd, &str, u8); 5] = [
    (GuestEnd::Exit(0), "exit 0", 0),
    (GuestEnd::Exit(255), "exit 255", 1),
    (GuestEnd::AllEnded, "all ended", 0),
    (GuestEnd::Budget, "budget spent", 8),
    (
        GuestEnd::Fault {
            fault: 3,
            pc: 0x100ab,
            tid: 2,
        },
        "fault 3 at 0x00000000000100ab by thread T2",
        9,
    ),
];

#[test]
fn ends_of_runs(rt: HostRuntime) -> Result<(), Fail> {
    let alloc = rt.alloc();
    for (end, wanted, status) in ENDS {
        let run = run_of(alloc, Reports::new(alloc), end);
        let text = summary(alloc, &run)?;
        let line = format!(in alloc;
            "tsanrun: 0 reports, 20 suppressed, 300 equal, 4 threads, {wanted}\n"
        )?;
        assert!(rt; text.as_slice() == line.as_bytes());
        assert!(rt; status_of(&run) == status);
    }
    Ok(())
}

#[test]
fn status_with_a_report(rt: HostRuntime) -> Result<(), Fail> {
    let alloc = rt.alloc();
    let mut reports = Reports::new(alloc);
    reports.push(Report {
        mine: lost_write(alloc),
        previous: lost_write(alloc),
    })?;
    let run = run_of(alloc, reports, GuestEnd::Budget);
    assert!(rt; status_of(&run) == 66);
    Ok(())
}

// A stack by its number; none stands for a lost one.
fn stack_of(number: u8) -> Option<&'static [u64]> {
    match number {
        0 => None,
        1 => Some(&[8, 4]),
        2 => Some(&[12]),
        _ => Some(&[8]),
    }
}

fn side_of(alloc: Global, number: u8) -> Result<Side, AllocError> {
    match stack_of(number) {
        None => Ok(lost_write(alloc)),
        Some(stack) => write_of(alloc, 0, stack),
    }
}

fn race_of(alloc: Global, mine: u8, previous: u8) -> Result<Report, AllocError> {
    let mine = side_of(alloc, mine)?;
    let previous = side_of(alloc, previous)?;
    Ok(Report { mine, previous })
}

// The stacks of a race, and what becomes of it.
const RACES: [(u8, u8, Offered); 6] = [
    (1, 2, Offered::Reported(1)),
    (1, 0, Offered::Reported(2)),
    (2, 1, Offered::Equal(1)),
    (3, 2, Offered::Reported(3)),
    (0, 1, Offered::Equal(2)),
    (1, 1, Offered::Reported(4)),
];

// Whether each race becomes what is wanted.
fn offer_all(alloc: Global, reporter: &mut Reporter<'_, Unsuppressed>) -> Result<bool, NoMemory>
    requires { offers reporter.old.kept ≡ 0 }
{
    let mut as_wanted = true;
    for (mine, previous, wanted) in RACES {
        let Report { mine, previous } = race_of(alloc, mine, previous)?;
        let answer = reporter.offer(mine, previous)?;
        as_wanted = as_wanted && answer == wanted;
    }
    Ok(as_wanted)
}

#[test]
fn what_becomes_of_races(rt: HostRuntime) -> Result<(), Fail> {
    let mut reporter = Reporter::new(rt.alloc(), &Unsuppressed);
    let as_wanted = offer_all(rt.alloc(), &mut reporter)?;
    assert!(rt; as_wanted);
    assert!(rt; reporter.suppressed() == 0 && reporter.equal() == 2);
    assert!(rt; reporter.reports().len() == 4);
    assert!(rt; reporter.into_reports().len() == 4);
    Ok(())
}

// Rules of which the seventh is met by all stacks. They count how often they are asked.
#[derive(Drop)]
struct Counting {
    times: Cell<u32>,
}

impl Suppressions for Counting {
    ghost use Rattle.std.specs.Prelude.{Some, refl};

    ghost rule_met = { λ _ _ _. Some 7 };

    fn rule_met(&self, _mine: &Option<Places>, _previous: &Option<Places>) -> Option<usize> {
        self.times.set(self.times.get().wrapping_add(1));
        Some(7)
    }

    ghost unordered = { λ _ _ _. refl };
}

// The stacks of a race, and how often the rules were asked up to it.
const ASKED: [(u8, u8, u32); 8] = [
    (1, 2, 1),
    (1, 2, 1),
    (2, 1, 1),
    (0, 1, 2),
    (1, 0, 2),
    (1, 1, 3),
    (2, 1, 3),
    (0, 0, 4),
];

// Whether each race is suppressed, and the rules were asked as often as is wanted.
fn suppress_all(
    alloc: Global,
    rules: &Counting,
    reporter: &mut Reporter<'_, Counting>,
) -> Result<bool, NoMemory>
    requires { offers reporter.old.kept ≡ 0 }
{
    let mut as_wanted = true;
    for (mine, previous, times) in ASKED {
        let Report { mine, previous } = race_of(alloc, mine, previous)?;
        let answer = reporter.offer(mine, previous)?;
        as_wanted = as_wanted && answer == Offered::Suppressed(7) && rules.times.get() == times;
    }
    Ok(as_wanted)
}

#[test]
fn rules_are_asked_once_about_each_pair(rt: HostRuntime) -> Result<(), Fail> {
    let rules = Counting {
        times: Cell::new(0),
    };
    let mut reporter = Reporter::new(rt.alloc(), &rules);
    let as_wanted = suppress_all(rt.alloc(), &rules, &mut reporter)?;
    assert!(rt; as_wanted);
    assert!(rt; reporter.suppressed() == 8 && reporter.reports().is_empty());
    Ok(())
}
