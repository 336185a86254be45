// A vector clock.
ghost use Rattle.std.specs.Prelude.{◌≡◌, ℕ, ◌<◌, ◌≤◌, length, max, slice_index, slice_set, replicate, IfOk};
ghost use Rattle.vector_clock.specs.Clocks.{joined};

use run_record::NoMemory;
use std::alloc::Global;
use std::marker::Model;

/// An epoch of each slot.
#[derive(Drop)]
pub struct Clock {
    epochs: Vec<u16>,
}

impl Model for Clock {
    ghost use Rattle.std.specs.Prelude.{List, ℕ};

    ghost Value = { List ℕ };

    ghost view = { λ clock. clock.epochs.items };
}

impl Clock {
    /// The clock of 1 to 255 slots that knows nothing.
    pub fn new(alloc: Global, slots: u32) -> Result<Clock, NoMemory>
        requires { (1 ≤ slots) × (slots ≤ 255) }
        ensures { IfOk result (λ clock. clock ≡ replicate slots 0) }
    {
        Ok(Clock {
            epochs: vec![in alloc; 0; slots as usize]?,
        })
    }

    /// How many slots it is of.
    pub fn slots(&self) -> usize
        ensures { result ≡ length self.now }
    {
        self.epochs.len()
    }

    pub fn get(&self, sid: u8) -> u16
        requires { sid < length self.now }
        ensures { result ≡ slice_index self.now sid }
    {
        self.epochs[sid as usize]
    }

    pub fn set(&mut self, sid: u8, epoch: u16)
        requires { sid < length self.old }
        ensures { self.new ≡ slice_set self.old sid epoch }
    {
        self.epochs[sid as usize] = epoch;
    }

    /// Takes in what another clock of as many slots knows.
    pub fn join(&mut self, other: &Clock)
        requires { length self.old ≡ length other.now }
        ensures each { (sid : ℕ) → slice_index self.new sid ≡ max (slice_index self.old sid) (slice_index other.now sid) }
        ensures whole { self.new ≡ joined self.old other.now }
    {
        join_epochs(self.epochs.as_mut_slice(), other.epochs.as_slice());
    }

    /// Becomes another clock of as many slots.
    pub fn copy_from(&mut self, other: &Clock)
        requires { length self.old ≡ length other.now }
        ensures { self.new ≡ other.now }
    {
        let mine = self.epochs.as_mut_slice();
        mine.copy_from_slice(other.epochs.as_slice());
    }

    /// Forgets all that it knows.
    pub fn clear(&mut self)
        ensures { self.new ≡ replicate (length self.old) 0 }
    {
        self.epochs.as_mut_slice().fill(0);
    }
}

// Over slices, so that the loop is compiled to operations on many epochs at once.
fn join_epochs(mine: &mut [u16], other: &[u16])
    requires { length mine.old ≡ length other.now }
    ensures { mine.new ≡ joined mine.old other.now }
{
    for (sid, epoch) in other.iter().enumerate() {
        mine[sid] = mine[sid].max(*epoch);
    }
}

#[cfg(test)]
mod tests {
    use super::*;
    use std::test::Fail;

    #[test]
    fn keeps_the_greater_epochs(rt: HostRuntime) -> Result<(), Fail> {
        let mut clock = Clock::new(rt.alloc(), 3)?;
        let mut other = Clock::new(rt.alloc(), 3)?;
        assert_eq!(rt; (clock.slots(), clock.get(0), clock.get(2)), (3, 0, 0));
        clock.set(0, 5);
        clock.set(1, 2);
        other.set(1, 7);
        other.set(2, 1);
        clock.join(&other);
        assert_eq!(rt; (clock.get(0), clock.get(1), clock.get(2)), (5, 7, 1));
        clock.copy_from(&other);
        assert_eq!(rt; (clock.get(0), clock.get(1), clock.get(2)), (0, 7, 1));
        clock.clear();
        assert_eq!(rt; (clock.get(0), clock.get(1), clock.get(2)), (0, 0, 0));
        Ok(())
    }
}
