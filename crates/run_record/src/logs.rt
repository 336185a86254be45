// The logs of several threads as one history.
ghost use Rattle.std.specs.Prelude.{◌≡◌, ◌++◌, ◌∷◌, [], IfOk, OnOk, All, IsPermutation};
ghost use Rattle.run_record.specs.Flat.{entry_of};
ghost use Rattle.run_record.specs.Order.{AreOrdered, AreDistinct, entries_in};

use crate::{Entries, Entry, NoMemory, Record};
use std::alloc::Global;

/// The entries of all logs, which may have any order, in the order of their stamps, and of
/// threads where stamps are equal. After an error the logs are lost.
pub fn merge(alloc: Global, logs: Vec<Entries>) -> Result<Record, NoMemory>
    requires { AreDistinct (entries_in logs.items) }
    ensures same { IfOk result (λ r. IsPermutation (entries_in logs.items) r.entries) }
    ensures ordered { IfOk result (λ r. AreOrdered r.entries) }
{
    let mut entries = Vec::new(alloc);
    for log in logs {
        log.copy_to(alloc, &mut entries)?;
    }
    entries.sort_by_key(|entry| (entry.stamp, entry.tid))?;
    Ok(Record {
        entries: joined(alloc, &entries)?,
    })
}

/// The entries, one after another.
fn joined(alloc: Global, entries: &[Entry]) -> Result<Entries, NoMemory>
    ensures { IfOk result (λ joined. joined ≡ entries.now) }
{
    let mut joined = Entries::new(alloc);
    for entry in entries {
        joined.push_entry(entry)?;
    }
    Ok(joined)
}

#[cfg(test)]
mod tests {
    use super::*;
    use crate::{Check, DeskNote, Event, Head, Label};
    use std::test::Fail;

    const CHECK: Check = Check {
        event: 0,
        granule: 7,
        word: 5,
        turn: 3,
        cells: [1, 2, 3, 4],
        stored: Some((2, 6)),
    };

    // The check, where it stored that word.
    fn storing(word: u64) -> Check {
        Check {
            stored: Some((2, word)),
            ..CHECK
        }
    }

    fn put(
        log: &mut Entries,
        stamp: u64,
        tid: u32,
        note: DeskNote,
        event: Event,
        check: Check,
    ) -> Result<(), NoMemory>
        ensures { OnOk result (log.new ≡ log.old ++ entry_of
            (record { round = 0; era = 0; stamp = stamp; tid = tid; steps = 1 })
            note (event ∷ []) (check ∷ []) ∷ []) }
    {
        let head = Head {
            round: 0,
            era: 0,
            stamp,
            tid,
            steps: 1,
        };
        log.push(head, note, &[event], &[check])
    }

    const LABEL: Label = Label {
        sid: 1,
        epoch: 2,
        era: 0,
    };

    // Two entries have the stamp 2, and one entry belongs between two of another log.
    fn logs(alloc: Global) -> Result<Vec<Entries>, NoMemory>
        ensures ordered { IfOk result (λ logs. All AreOrdered logs.items) }
        ensures distinct { IfOk result (λ logs. AreDistinct (entries_in logs.items)) }
    {
        let nothing = DeskNote::Nothing;
        let attach = DeskNote::Attach(LABEL);
        let mut main = Entries::new(alloc);
        put(&mut main, 1, 0, nothing, Event::Begin, storing(6))?;
        put(&mut main, 3, 0, nothing, Event::End, storing(7))?;
        let mut first = Entries::new(alloc);
        put(&mut first, 2, 1, attach, Event::Leave, storing(8))?;
        let mut second = Entries::new(alloc);
        put(&mut second, 2, 2, nothing, Event::Begin, storing(9))?;
        Ok(vec![in alloc; second, main, first]?)
    }

    // Stamp, thread, event, note and check of an entry.
    type Seen = (u64, u32, Option<Event>, DeskNote, Option<Check>);

    fn seen(alloc: Global, entries: &Entries) -> Result<Vec<Seen>, NoMemory> {
        let mut seen = Vec::new(alloc);
        for entry in entries.to_vec(alloc)?.as_slice() {
            seen.push((
                entry.stamp,
                entry.tid,
                entry.events.as_slice().first().copied(),
                entry.note,
                entry.checks.as_slice().first().copied(),
            ))?;
        }
        Ok(seen)
    }

    fn want() -> [Seen; 4] {
        let nothing = DeskNote::Nothing;
        let attach = DeskNote::Attach(LABEL);
        [
            (1, 0, Some(Event::Begin), nothing, Some(storing(6))),
            (2, 1, Some(Event::Leave), attach, Some(storing(8))),
            (2, 2, Some(Event::Begin), nothing, Some(storing(9))),
            (3, 0, Some(Event::End), nothing, Some(storing(7))),
        ]
    }

    #[test]
    fn three_logs(rt: HostRuntime) -> Result<(), Fail> {
        let alloc = rt.alloc();
        let merged = merge(alloc, logs(alloc)?)?;
        assert_eq!(rt; seen(alloc, &merged.entries)?.as_slice(), want().as_slice());
        Ok(())
    }

    // Twice, and the second time is cut off again.
    #[test]
    fn appended(rt: HostRuntime) -> Result<(), Fail> {
        let alloc = rt.alloc();
        let three = logs(alloc)?;
        let mut history = Entries::new(alloc);
        history.append_merged(alloc, &three)?;
        assert_eq!(rt; seen(alloc, &history)?.as_slice(), want().as_slice());
        history.append_merged(alloc, &three)?;
        let mut walked = Vec::new(alloc);
        for entry in history.walk(alloc)?.as_slice() {
            walked.push((entry.tid, entry.events.first().copied()))?;
        }
        let twice = [
            (0, Some(Event::Begin)),
            (1, Some(Event::Leave)),
            (2, Some(Event::Begin)),
            (0, Some(Event::End)),
            (0, Some(Event::Begin)),
            (1, Some(Event::Leave)),
            (2, Some(Event::Begin)),
            (0, Some(Event::End)),
        ];
        assert_eq!(rt; walked.as_slice(), twice.as_slice());
        assert_eq!(rt; history.head(5).is_some(), true);
        assert_eq!(rt; history.head(8).is_some(), false);
        history.truncate(4);
        assert_eq!(rt; seen(alloc, &history)?.as_slice(), want().as_slice());
        Ok(())
    }

    #[test]
    fn no_logs(rt: HostRuntime) -> Result<(), Fail> {
        let merged = merge(rt.alloc(), Vec::new(rt.alloc()))?;
        assert_eq!(rt; merged.entries.len(), 0);
        Ok(())
    }
}
