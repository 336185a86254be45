// A sink in memory, of which some puts fail.
ghost use Rattle.std.specs.Prelude.{◌≡◌, [], IfOk, OnOk, OnErr, is_err, Some};
ghost use Rattle.tool_ports.specs.Ports.{Appends, AppendsPart, HasCause};
ghost use Rattle.tool_ports.specs.Memory.{cut_at, fails_next, put_once};

use crate::{Sink, SinkFailed};
use std::alloc::{AllocError, Global};
use std::marker::Model;

/// A sink in memory, with room for so many bytes. The puts are numbered from 1, and those of a
/// list fail after so many bytes; a put fails, too, where its bytes don't fit.
#[derive(Drop)]
pub struct MemorySink {
    bytes: Vec<u8>,
    room: usize,
    fails: Vec<(u32, u32)>,
    puts: u64,
    faults: u64,
}

impl Model for MemorySink {
    ghost use Rattle.std.specs.Prelude.{◌≤◌, vec_len, vec_capacity};
    ghost use Rattle.tool_ports.specs.Memory.{SinkInMemory};

    ghost Value = { SinkInMemory };

    ghost view = { λ m. record { bytes = m.bytes.items; room = m.room; fails = m.fails.items; puts = m.puts; faults = m.faults } };

    ghost invariant = { λ m. (vec_len m.bytes ≤ m.room) × (m.room ≤ vec_capacity m.bytes) };
}

impl MemorySink {
    /// An empty sink. A pair (c, n) in `fails` says that put number c takes the first n bytes of
    /// its piece, as far as they are there and fit, and fails; of pairs with one number the first
    /// counts.
    pub fn new(alloc: Global, room: usize, fails: &[(u32, u32)]) -> Result<MemorySink, AllocError>
        ensures { IfOk result (λ m. m ≡ record { bytes = []; room = room; fails = fails.now; puts = 0; faults = 0 }) }
    {
        Ok(MemorySink {
            bytes: Vec::with_capacity(alloc, room)?,
            room,
            fails: Vec::from_slice(alloc, fails)?,
            puts: 0,
            faults: 0,
        })
    }

    /// All that was put.
    pub fn bytes(&self) -> &[u8]
        ensures { result.now ≡ self.now.bytes }
    {
        self.bytes.as_slice()
    }
}

// How many bytes the put of that number takes at most, where it is listed.
fn cut_of(fails: &[(u32, u32)], number: u64) -> Option<u32>
    ensures { result ≡ cut_at number fails.now }
{
    for fail in fails {
        if fail.0 as u64 == number {
            return Some(fail.1);
        }
    }
    None
}

impl Sink for MemorySink {
    ghost use Rattle.std.specs.Prelude.{Some};

    ghost contents = { λ m. Some m.bytes };

    ghost faults = { λ m. m.faults };

    fn faults(&self) -> u64 {
        self.faults
    }

    /// Takes no memory.
    fn put(&mut self, bytes: &[u8]) -> Result<(), SinkFailed>
        ensures ok { OnOk result (Appends (Some self.old.bytes) (Some self.new.bytes) bytes.now) }
        ensures err { OnErr result (AppendsPart (Some self.old.bytes) (Some self.new.bytes) bytes.now) }
        ensures cause { HasCause self.old.faults self.new.faults result }
        ensures fails { is_err result ≡ fails_next self.old bytes.now }
        ensures left { self.new ≡ put_once self.old bytes.now }
    {
        self.puts = self.puts.saturating_add(1);
        let left = self.room - self.bytes.len();
        let cut = cut_of(&self.fails, self.puts);
        let most = match cut {
            Some(taken) => (taken as usize).min(left),
            None => left,
        };
        let taken = most.min(bytes.len());
        let whole = cut.is_none() && bytes.len() <= left;
        if self.bytes.extend_from_slice(&bytes[..taken]).is_err() || !whole {
            self.faults = self.faults.saturating_add(1);
            return Err(SinkFailed);
        }
        Ok(())
    }
}

#[cfg(test)]
mod tests {
    use super::*;
    use std::test::Fail;

    #[test]
    fn puts_fail_by_number_and_for_want_of_room(rt: HostRuntime) -> Result<(), Fail> {
        let mut sink = MemorySink::new(rt.alloc(), 8, &[(2, 1), (2, 3)])?;
        assert_eq!(rt; sink.put(b"abcd"), Ok(()));
        assert_eq!(rt; sink.put(b"efg"), Err(SinkFailed));
        assert_eq!(rt; sink.bytes(), b"abcde".as_slice());
        assert_eq!(rt; sink.put(b"fghi"), Err(SinkFailed));
        assert_eq!(rt; sink.bytes(), b"abcdefgh".as_slice());
        assert_eq!(rt; sink.faults(), 2);
        Ok(())
    }
}
