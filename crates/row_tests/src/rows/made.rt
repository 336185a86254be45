// Runs of programs that are made from a number.
use super::*;
use run_record::{Entry, Event, Finished, NoMemory, Part};

fn check_made<R: Abort>(rt: &R, alloc: Global, words: &[&str], out: &str) -> Result<(), Fail> {
    let answer = call(alloc, words, b"")?;
    check(rt, alloc, &answer, out.as_bytes(), "", 0)
}

#[test]
fn small_programs_are_made_and_run(rt: HostRuntime) -> Result<(), Fail> {
    let alloc = rt.alloc();
    let none =
        "gen: seed 1, size 0, file 256 bytes\ntsanrun: 0 reports, 0 suppressed, 0 equal, 4 threads, all ended\n";
    check_made(&rt, alloc, &["gen", "--seed=1", "--size=0"], none)?;
    let one =
        "gen: seed 1, size 1, file 400 bytes\ntsanrun: 0 reports, 0 suppressed, 0 equal, 4 threads, all ended\n";
    check_made(&rt, alloc, &["gen", "--seed=1", "--size=1"], one)
}

/// Of the two lines a part is put where a put fails.
#[test]
fn failed_puts_end_a_made_run(rt: HostRuntime) -> Result<(), Fail> {
    let alloc = rt.alloc();
    let mut words = Vec::new(alloc);
    for word in ["gen", "--size=0"].iter() {
        words.push(String::from_str(alloc, word)?)?;
    }
    let mut files = MemoryFiles::new(alloc, &[])?;
    let mut out = MemorySink::new(alloc, ROOM, &[(2, 3)])?;
    let mut err = MemorySink::new(alloc, ROOM, &[])?;
    let ended = tool_step(alloc, &words, &mut files, &mut out, &mut err);
    assert_eq!(rt; ended.status, 6);
    assert_eq!(rt;
        out.bytes(),
        b"gen: seed 1, size 0, file 256 bytes\ntsa".as_slice()
    );
    assert!(rt; err.bytes().is_empty());
    Ok(())
}

/// How many threads a made program has.
const THREADS: usize = 4;

/// Of each thread the greatest epoch that is known.
type Clock = [u32; THREADS];

/// What each thread knows, and what was left at addresses and by ended threads. In these programs the
/// slot of a thread is its number.
#[derive(Drop)]
struct Known {
    threads: [Clock; THREADS],
    created: [Clock; THREADS],
    channels: Vec<((u64, Part), Clock)>,
}

fn join(clock: &mut Clock, other: &Clock) {
    for (mine, its) in clock.iter_mut().zip(other.iter()) {
        *mine = (*mine).max(*its);
    }
}

impl Known {
    fn clock(&self, tid: u32) -> Clock {
        match self.threads.get(tid as usize) {
            Some(clock) => *clock,
            None => [0; THREADS],
        }
    }

    fn set_clock(&mut self, tid: u32, clock: Clock) {
        if let Some(there) = self.threads.get_mut(tid as usize) {
            *there = clock;
        }
    }

    fn channel(&self, channel: (u64, Part)) -> Clock {
        match self.channels.iter().find(|one| one.0 == channel) {
            Some(one) => one.1,
            None => [0; THREADS],
        }
    }

    /// The thread takes in a clock.
    fn take_in(&mut self, tid: u32, other: Clock) {
        let mut clock = self.clock(tid);
        join(&mut clock, &other);
        self.set_clock(tid, clock);
    }

    /// The thread's own epoch rises.
    fn raise(&mut self, tid: u32) {
        let mut clock = self.clock(tid);
        if let Some(own) = clock.get_mut(tid as usize) {
            *own = own.saturating_add(1);
        }
        self.set_clock(tid, clock);
    }

    fn release(
        &mut self,
        tid: u32,
        channel: (u64, Part),
        replaces: bool,
    ) -> Result<(), AllocError> {
        let mut left = self.clock(tid);
        if !replaces {
            join(&mut left, &self.channel(channel));
        }
        if let Some(one) = self.channels.iter_mut().find(|one| one.0 == channel) {
            one.1 = left;
        } else {
            self.channels.push((channel, left))?;
        }
        self.raise(tid);
        Ok(())
    }

    fn hear(&mut self, tid: u32, event: Event) -> Result<(), AllocError> {
        match event {
            Event::Begin => {
                let left = match self.created.get(tid as usize) {
                    Some(clock) => *clock,
                    None => [0; THREADS],
                };
                self.take_in(tid, left);
                self.raise(tid);
            }
            Event::Create(child) => {
                let left = self.clock(tid);
                if let Some(there) = self.created.get_mut(child as usize) {
                    *there = left;
                }
                self.raise(tid);
            }
            Event::Acquire { addr, part } => self.take_in(tid, self.channel((addr, part))),
            Event::Release {
                addr,
                part,
                replaces,
            } => self.release(tid, (addr, part), replaces)?,
            _ => {}
        }
        Ok(())
    }

    /// Whether a word tells of an access that the thread doesn't know, and that races with its own.
    fn races(&self, tid: u32, mine: u64, other: u64) -> bool {
        let slot = (other >> 8) & 0xff;
        let epoch = (other >> 16) & 0x3fff;
        let known = match self.clock(tid).get(slot as usize) {
            Some(known) => *known as u64,
            None => 0,
        };
        other != 0
            && slot != (mine >> 8) & 0xff
            && other & mine & 0xff != 0
            && (other & mine) >> 30 & 3 == 0
            && epoch > known
    }
}

/// Whether the access at that place of the entry loads a word that races.
fn finds_race(known: &Known, entry: &Entry, place: usize) -> bool {
    let mut found = false;
    for check in entry.checks.as_slice() {
        if check.event as usize == place {
            for word in check.cells.iter() {
                found = found || known.races(entry.tid, check.word, *word);
            }
        }
    }
    found
}

/// How many accesses of a run load a word that races.
fn races_in(alloc: Global, finished: &Finished) -> Result<u64, NoMemory> {
    let mut known = Known {
        threads: [[0; THREADS]; THREADS],
        created: [[0; THREADS]; THREADS],
        channels: Vec::new(alloc),
    };
    let mut races = 0u64;
    for entry in finished.history.entries.to_vec(alloc)?.as_slice() {
        for (place, event) in entry.events.as_slice().iter().enumerate() {
            if finds_race(&known, entry, place) {
                races = races.saturating_add(1);
            }
            known.hear(entry.tid, *event)?;
        }
    }
    Ok(races)
}

/// The largest program: twice the same bytes, and its races are those that clocks find which are kept apart from the
/// detector's.
#[test]
fn the_largest_program_runs_alike_twice(rt: HostRuntime) -> Result<(), Fail> {
    let alloc = rt.alloc();
    let first = call(alloc, &["gen", "--size=10000"], b"")?;
    let second = call(alloc, &["gen", "--size=10000"], b"")?;
    assert_eq!(rt; first.out.bytes(), second.out.bytes());
    assert_eq!(rt; first.ended.status, 66);
    let Some(finished) = &first.ended.kept else {
        panic!(rt; "nothing is kept");
    };
    let told = finished.reports.len() as u64;
    let races = races_in(alloc, finished)?;
    assert!(rt; told > 0);
    assert_eq!(rt; told.saturating_add(finished.equal as u64), races);
    Ok(())
}

/// A thread reads over and over what another wrote before it was created.
#[test]
fn many_checks_end_in_time(rt: HostRuntime) -> Result<(), Fail> {
    let row = Row {
        program: "main: E(write8,0) N(a) T; a: E(read8,0) jal x0,a",
        options: &["--steps=8000000"],
        summary: (0, 0, 0, 2, "budget spent"),
        status: 8,
        ..ROW
    };
    check_both(&rt, rt.alloc(), &row)
}
