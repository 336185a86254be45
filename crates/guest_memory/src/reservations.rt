// Which thread has reserved which granule.
ghost use Rattle.std.specs.Prelude.{◌≡◌, ◌≤◌, [], OnOk, OnErr, vec_len, vec_capacity};
ghost use Rattle.guest_memory.specs.Reservations as reserved;

use std::alloc::{AllocError, Global};
use std::marker::Model;

/// A granule that a thread has reserved.
#[derive(Clone, Copy)]
pub struct Reservation {
    pub tid: u32,
    pub granule: u32,
}

/// The reservations that stand: at most one a thread, in a short list, so that a write finds at
/// once whether there is any. Contracts see them as that list.
#[derive(Drop)]
pub struct Reservations {
    items: Vec<Reservation>,
}

impl Model for Reservations {
    ghost use Rattle.std.specs.Prelude.{List};
    ghost use Rattle.guest_memory.specs.declared.reservations.Reservation.{Reservation};

    ghost Value = { List Reservation };

    ghost view = { λ r. r.items.items };
}

fn keep_other_granules(items: &mut Vec<Reservation>, granule: u32)
    ensures { items.new.items ≡ reserved.without_granule items.old.items granule }
{
    items.retain(|held| held.granule != granule);
}

fn keep_other_threads(items: &mut Vec<Reservation>, tid: u32)
    ensures kept { items.new.items ≡ reserved.without_thread items.old.items tid }
    ensures bound { vec_len items.new ≤ vec_len items.old }
    ensures capacity { vec_capacity items.new ≡ vec_capacity items.old }
{
    items.retain(|held| held.tid != tid);
}

impl Reservations {
    pub fn new(alloc: Global) -> Reservations
        ensures { result ≡ [] }
    {
        Reservations {
            items: Vec::new(alloc),
        }
    }

    /// Whether the thread's reservation of the granule stands.
    pub fn stands(&self, tid: u32, granule: u32) -> bool
        ensures { result ≡ reserved.stands self.now tid granule }
    {
        self.items
            .iter()
            .any(|held| held.tid == tid && held.granule == granule)
    }

    /// Ends all reservations of a granule.
    pub fn end_granule(&mut self, granule: u32)
        ensures { self.new ≡ reserved.without_granule self.old granule }
    {
        keep_other_granules(&mut self.items, granule);
    }

    /// Ends the reservation of a thread.
    pub fn end_thread(&mut self, tid: u32)
        ensures { self.new ≡ reserved.without_thread self.old tid }
    {
        keep_other_threads(&mut self.items, tid);
    }

    /// Reserves a granule for a thread, in place of the one that it had; after an error nothing
    /// has changed.
    pub fn reserve(&mut self, tid: u32, granule: u32) -> Result<(), AllocError>
        ensures ok { OnOk result (self.new ≡ reserved.with_reservation self.old tid granule) }
        ensures err { OnErr result (self.new ≡ self.old) }
    {
        self.items.reserve(1)?;
        keep_other_threads(&mut self.items, tid);
        self.items.push(Reservation { tid, granule })?;
        Ok(())
    }
}

#[cfg(test)]
mod tests {
    use super::*;
    use std::test::Fail;

    #[test]
    fn a_thread_has_one(rt: HostRuntime) -> Result<(), Fail> {
        let mut held = Reservations::new(rt.alloc());
        held.reserve(0, 5)?;
        held.reserve(1, 5)?;
        held.reserve(0, 6)?;
        assert!(rt; !held.stands(0, 5) && held.stands(1, 5) && held.stands(0, 6));
        held.end_granule(5);
        assert!(rt; !held.stands(1, 5) && held.stands(0, 6));
        Ok(())
    }
}
