// Rounds of workers over a table.
ghost use Rattle.std.specs.Prelude.{◌≡◌, ℕ, ◌+◌, ◌-◌, ◌<◌, ◌≤◌, ◌++◌, [], length, map, vec_len, vec_capacity, All, IfOk, OnOk, OnErr};
ghost use Rattle.shared_table.specs.Layouts.{SharedTable};
ghost use Rattle.shared_table.specs.Past.{Log};
ghost use Rattle.shared_table.specs.Steps.{Told};
ghost use Rattle.shared_table.specs.Seats.{IsSeatOf, IsFree, IsOpener};
ghost use Rattle.shared_table.specs.Rounds.{splits_from, joins_from, worker_of, IsReady, Did, AreOpened, AreReady, Ran, AreBack, Grown, HasLogs, HasRound};

use crate::plays::SharedSeat;
use crate::shared::Shared;
use run_record::NoMemory;
use std::alloc::Global;
use std::sync::Wait;
use std::thread;
use std::thread::Threads;

/// Something that works on a table with a seat of its own.
pub trait Worker {
    /// Where it may work on a table.
    ghost can_work: { SharedTable → Self → Type 0 };

    /// What its work makes: of the table, the worker before, the log of its steps, and the worker after.
    ghost works: { SharedTable → Self → Log → Self → Type 0 };

    /// The worker's part of a round. Its seat is new.
    fn work<R: Wait>(&mut self, rt: &R, shared: &Shared, seat: &mut SharedSeat)
        requires own { IsSeatOf shared.now seat.old }
        requires free { IsFree seat.old.me }
        requires new { seat.old.me.0.log ≡ [] }
        requires can { can_work shared.now self.old }
        ensures own { IsSeatOf shared.now seat.new }
        ensures free { IsFree seat.new.me }
        ensures number { seat.new.me.0.number ≡ seat.old.me.0.number }
        ensures works { works shared.now self.old seat.new.me.0.log self.new };
}

/// A worker and its seat.
#[derive(Drop)]
pub struct Part<W> {
    pub seat: SharedSeat,
    pub worker: W,
}

fn work_part<R: Wait, W: Worker>(rt: &R, shared: &Shared, part: &mut Part<W>)
    requires { IsReady W.can_work shared.now part.old }
    ensures { Did W.works shared.now part.old part.new }
{
    part.worker.work(rt, shared, &mut part.seat);
}

// A seat for each worker.
fn open<W: Drop>(
    shared: &Shared,
    seat: &mut SharedSeat,
    workers: Vec<W>,
    mut parts: Vec<Part<W>>,
) -> Vec<Part<W>>
    requires opener { IsOpener shared.now seat.old }
    requires room { (vec_len parts ≡ 0) × (vec_len workers ≤ vec_capacity parts) }
    ensures opener { IsOpener shared.now seat.new }
    ensures logs { Grown (vec_len workers) seat.old.me.0 seat.new.me.0 }
    ensures own { seat.new.me.0.log ≡ seat.old.me.0.log ++ splits_from (length seat.old.me.0.logs) (vec_len workers) }
    ensures parts { AreOpened shared.now (length seat.old.me.0.logs) workers.items result.items }
{
    for worker in workers {
        let new = shared.split(seat);
        parts.push_reserved(Part { seat: new, worker });
    }
    parts
}

// All parts, on so many threads of the host at most.
fn run<R: Threads + Wait + Sync, W: Worker + Send>(
    rt: &R,
    shared: &Shared,
    mut parts: Vec<Part<W>>,
    threads: usize,
) -> Vec<Part<W>>
    requires threads { 0 < threads }
    requires ready { AreReady W.can_work shared.now parts.items }
    ensures len { vec_len result ≡ vec_len parts }
    ensures ran { Ran W.works shared.now parts.items result.items }
{
    thread::for_each_mut(
        rt,
        parts.as_mut_slice(),
        threads,
        &|_, part: &mut Part<W>|
            requires { IsReady W.can_work shared.now part.now }
            ensures { Did W.works shared.entry.now part.entry.now part.exit.now }
        { work_part(rt, shared, part) },
    );
    parts
}

// The opening seat takes all logs, and the workers come back.
fn join_all<W: Drop>(
    shared: &Shared,
    seat: &mut SharedSeat,
    parts: Vec<Part<W>>,
    mut workers: Vec<W>,
) -> Vec<W>
    requires opener { IsOpener shared.now seat.old }
    requires room { (vec_len workers ≡ 0) × (vec_len parts ≤ vec_capacity workers) }
    requires parts { (vec_len parts ≤ length seat.old.me.0.logs) × AreBack shared.now (length seat.old.me.0.logs - vec_len parts) parts.items }
    ensures opener { IsOpener shared.now seat.new }
    ensures workers { result.items ≡ map worker_of parts.items }
    ensures own { seat.new.me.0.log ≡ seat.old.me.0.log
        ++ joins_from (length seat.old.me.0.logs - vec_len parts) (vec_len parts) }
    ensures logs { HasLogs (length seat.old.me.0.logs - vec_len parts) parts.items seat.old.me.0 seat.new.me.0 }
{
    for part in parts {
        let Part {
            seat: other,
            worker,
        } = part;
        shared.join(seat, other);
        workers.push_reserved(worker);
    }
    workers
}

/// How many threads of the host a round may well have: one for each processor, and two where there is one.
/// It asks the host, so a run asks once.
pub fn useful_threads<R: Threads>(rt: &R) -> usize
    ensures { 2 ≤ result }
{
    match thread::available_parallelism(rt) {
        Ok(count) => count.get().max(2),
        Err(_) => 2,
    }
}

/// A round: each worker does its part with a new seat, on so many threads of the host at most. Parts of one
/// thread follow one another; so do all where no thread can be started. The opening seat makes all seats, and then joins them
/// in the same order; it has all logs afterwards. After an error nothing was made, and the workers are lost.
pub fn round<R: Threads + Wait + Sync, W: Worker + Send + Drop>(
    rt: &R,
    alloc: Global,
    shared: &Shared,
    seat: &mut SharedSeat,
    workers: Vec<W>,
    threads: usize,
) -> Result<Vec<W>, NoMemory>
    requires threads { 0 < threads }
    requires opener { IsOpener shared.now seat.old }
    requires can { All (W.can_work shared.now) workers.items }
    ensures opener { IsOpener shared.now seat.new }
    ensures err { OnErr result (seat.new.me ≡ seat.old.me) }
    ensures round { IfOk result (λ after. HasRound W.works shared.now seat.old.me.0 seat.new.me.0 workers.items after.items) }
    ensures own { OnOk result (seat.new.me.0.log ≡ seat.old.me.0.log ++ (splits_from (length seat.old.me.0.logs) (length workers.items)
        ++ joins_from (length seat.old.me.0.logs) (length workers.items))) }
    ensures told { OnOk result (Told seat.new.me.0) }
{
    let count = workers.len();
    let parts = Vec::with_capacity(alloc, count)?;
    let room = Vec::with_capacity(alloc, count)?;
    let opened = open(shared, seat, workers, parts);
    let done = run(rt, shared, opened, threads.min(count.max(1)));
    let after = join_all(shared, seat, done, room);
    shared.learn(seat);
    Ok(after)
}
