// The accesses of a round that wait for its end.
ghost use Rattle.std.specs.Prelude.{◌≡◌, ◌++◌, [], map, OnOk};
ghost use Rattle.part_races.specs.Sorting.{AreSorted};
ghost use Rattle.part_workers.specs.Parts.{keyed_in};

use part_workers::Waiting;
use run_record::NoMemory;
use std::alloc::Global;
use std::marker::Model;

/// An access that waits, with the thread that made it.
#[derive(Drop)]
pub struct Pending {
    pub tid: u32,
    pub waiting: Waiting,
}

/// The accesses that wait. Contracts see them by the stamps and threads of their entries.
#[derive(Drop)]
pub struct PendingList {
    pub(crate) items: Vec<Pending>,
}

impl Model for PendingList {
    ghost use Rattle.std.specs.Prelude.{List, map};
    ghost use Rattle.part_races.specs.Sorting.{Keyed};
    ghost use Rattle.hart_workers.specs.Tells.{keyed_of_pending};

    ghost Value = { List Keyed };

    ghost view = { λ p. map keyed_of_pending p.items.items };
}

impl PendingList {
    /// None waits.
    pub fn new(alloc: Global) -> PendingList
        ensures { result ≡ [] }
    {
        PendingList {
            items: Vec::new(alloc),
        }
    }

    /// These accesses of the thread wait too.
    pub fn add(&mut self, tid: u32, waiting: Vec<Waiting>) -> Result<(), NoMemory>
        ensures { OnOk result (self.new ≡ self.old ++ map (keyed_in tid) waiting.items) }
    {
        for one in waiting {
            self.items.push(Pending { tid, waiting: one })?;
        }
        Ok(())
    }

    /// Sorts them by the stamps of their entries, and by threads where these are equal. Those of one entry stay in their order.
    pub fn sort(&mut self) -> Result<(), NoMemory>
        ensures { OnOk result (AreSorted self.old self.new) }
    {
        self.items
            .sort_by_key(|pending| (pending.waiting.stamp, pending.tid))?;
        Ok(())
    }
}

#[cfg(test)]
mod tests {
    use super::*;
    use race_core::Candidate;
    use run_record::{Locks, Side};
    use std::test::Fail;

    // It has nothing but its stamp and its word.
    fn waiting(alloc: Global, stamp: u64, word: u64) -> Waiting {
        let mine = Side {
            tid: 0,
            read: false,
            atomic: false,
            addr: 0,
            size: 1,
            stack: None,
            locks: Locks::new(alloc),
        };
        let candidate = Candidate {
            mine,
            granule: 0,
            word,
        };
        Waiting { stamp, candidate }
    }

    // Two of one entry stay in their order, wherever others of the same stamp come from.
    #[test]
    fn equal_keys(rt: HostRuntime) -> Result<(), Fail> {
        let alloc = rt.alloc();
        let mut list = PendingList::new(alloc);
        let second = vec![in alloc;
            waiting(alloc, 7, 12),
            waiting(alloc, 7, 11),
            waiting(alloc, 5, 10),
        ]?;
        let first = vec![in alloc; waiting(alloc, 7, 22), waiting(alloc, 7, 21)]?;
        let third = vec![in alloc; waiting(alloc, 3, 30)]?;
        list.add(2, second)?;
        list.add(1, first)?;
        list.add(3, third)?;
        list.sort()?;
        let mut seen = Vec::new(alloc);
        for one in list.items.as_slice() {
            seen.push((one.waiting.stamp, one.tid, one.waiting.candidate.word))?;
        }
        let want = [
            (3, 3, 30),
            (5, 2, 10),
            (7, 1, 22),
            (7, 1, 21),
            (7, 2, 12),
            (7, 2, 11),
        ];
        assert_eq!(rt; seen.as_slice(), want.as_slice());
        Ok(())
    }
}
