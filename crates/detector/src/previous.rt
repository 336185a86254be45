// The reports of a round, each with the access that came before.
ghost use Rattle.std.specs.Prelude.{◌≡◌, ◌≢◌, ℕ, ◌+◌, ◌-◌, ◌^◌, ◌<◌, ◌≤◌, List, [], Option, None, length, count_ones, IfOk, OnOk};
ghost use Rattle.std.specs.Int.{w8, trailing_zeros};
ghost use Rattle.run_record.specs.declared.limits.Limits.{Limits};
ghost use Rattle.run_laws.specs.Moments.{Moment};
ghost use Rattle.report_text.specs.Offers.{is_met, offers};
ghost use Rattle.detector.specs.Detected.{Detected};
ghost use Rattle.detector.specs.Stands.{Stands, awaited};
ghost use Rattle.detector.specs.Told.{IsOwnedBy, HasOwnerAt, CanBeSought, side_in};
ghost use Rattle.detector.specs.Told.{CanBeTold, TellsPrevious, CanTellAll, TellsAll};

use crate::Detector;
use elf_image::Image;
use race_core::Candidate;
use report_text::{Reporter, Suppressions};
use run_record::{Label, Locks, NoMemory, Side};
use shadow_word::{Cell, unpack};
use slot_desk::Desk;
use std::alloc::Global;
use trace_parts::{Restored, Trace};

/// What a cell of a granule tells of the access that left it, whose stack is lost.
fn lost_side(alloc: Global, address: u64, tid: u32, cell: Cell) -> Side
    requires some_byte { cell.mask ≢ 0 }
    requires room { address ≤ 2 ^ 64 - 8 }
    ensures { result ≡ record { tid = tid; read = cell.read; atomic = cell.atomic; addr = address + trailing_zeros w8 cell.mask; size = count_ones cell.mask; stack = None; locks = [] } }
{
    Side {
        tid,
        read: cell.read,
        atomic: cell.atomic,
        addr: address + cell.mask.trailing_zeros() as u64,
        size: cell.mask.count_ones(),
        stack: None,
        locks: Locks::new(alloc),
    }
}

/// Where none waits any more at the end of a history, the next round begins there.
pub fn round_law()
    ensures { (granules : ℕ) (limits : Limits) (from : ℕ) (leaving : Option ℕ) (h : List Moment) (d : Detected) →
        Stands granules limits from leaving h d → Stands granules limits (length h) leaving h (record d { waiting = [] }) }
{}

/// The thread whose label the candidate's word has, by the desk's journals.
pub fn find_owner(desk: &Desk, candidate: &Candidate) -> u32
    requires { HasOwnerAt desk.now candidate.now.word }
    ensures { IsOwnedBy desk.now candidate.now.word result }
{
    let Some(cell) = unpack(candidate.word) else {
        unreachable!()
    };
    let Some(owner) = desk.owner_of(cell.sid, cell.epoch) else {
        unreachable!()
    };
    owner
}

/// The access that left the candidate's word, as the trace of the word's owner tells it, or as far as
/// the word does where the trace holds it no more. `NoMemory` comes only where memory runs out.
pub fn tell_previous(
    alloc: Global,
    image: &Image<'_>,
    owner: u32,
    trace: &Trace,
    candidate: &Candidate,
) -> Result<Side, NoMemory>
    requires { CanBeSought image.now trace.now candidate.now.granule candidate.now.word }
    ensures { IfOk result (λ side. side
        ≡ side_in image.now trace.now candidate.now.granule candidate.now.word owner) }
{
    image.accepted();
    let Some(cell) = unpack(candidate.word) else {
        unreachable!()
    };
    let label = Label {
        sid: cell.sid,
        epoch: cell.epoch,
        era: cell.era,
    };
    let address = image.granule_address(candidate.granule);
    match trace.restore(label, address, candidate.word)? {
        Restored::Found {
            place: _,
            addr,
            size,
            stack,
            locks,
        } => Ok(Side {
            tid: owner,
            read: cell.read,
            atomic: cell.atomic,
            addr,
            size,
            stack: Some(stack),
            locks,
        }),
        Restored::Lost => Ok(lost_side(alloc, address, owner, cell)),
    }
}

impl Detector {
    /// The access that left the candidate's word, as its thread's trace tells it, or as far as the
    /// word does where the trace holds it no more.
    pub fn previous(
        &self,
        alloc: Global,
        image: &Image<'_>,
        candidate: &Candidate,
    ) -> Result<Side, NoMemory>
        requires { CanBeTold image.now self.now (awaited candidate.now) }
        ensures { IfOk result (TellsPrevious image.now self.now (awaited candidate.now)) }
    {
        let owner = find_owner(&self.desk, candidate);
        let trace = self.watcher(owner).trace();
        let side = tell_previous(alloc, image, owner, trace, candidate)?;
        Ok(side)
    }

    // The accesses that wait, in order. None waits afterwards.
    fn take_waiting(&mut self, alloc: Global) -> Vec<Candidate>
        ensures taken { result.items ≡ self.old.waiting }
        ensures left { self.new ≡ record self.old { waiting = [] } }
    {
        std::mem::replace(&mut self.waiting, Vec::new(alloc))
    }

    /// Offers the reports of the accesses that wait, in order. None waits afterwards.
    pub fn tell<S: Suppressions>(
        &mut self,
        alloc: Global,
        image: &Image<'_>,
        reporter: &mut Reporter<'_, S>,
    ) -> Result<(), NoMemory>
        requires can { CanTellAll image.now self.old }
        requires room { offers reporter.old.kept + length self.old.waiting < 2 ^ 32 - 1 }
        ensures told { OnOk result (TellsAll (is_met (S.rule_met reporter.old.rules)) image.now self.old self.new reporter.old.kept reporter.new.kept) }
        ensures rules { reporter.new.rules ≡ reporter.old.rules }
    {
        let waiting = self.take_waiting(alloc);
        for candidate in waiting {
            let previous = self.previous(alloc, image, &candidate)?;
            reporter.offer(candidate.mine, previous)?;
        }
        Ok(())
    }
}
