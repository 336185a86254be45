// Files by name.
ghost use Rattle.std.specs.Prelude.{◌≡◌, ℕ, List, Option};
ghost use Rattle.tool_ports.specs.Ports.{ReadsFrom, ReadCause};

/// Why a file wasn't read.
#[derive(Clone, Copy, Debug, PartialEq, Eq)]
pub enum FileFault {
    /// It is missing, or reading it failed.
    Failed,
    /// It has more bytes than the limit.
    TooLong,
    NoMemory,
}

/// Files that are read whole.
pub trait Files {
    /// The pairs of name and bytes that it holds, if it tells them. Of pairs with one name the
    /// first counts.
    ghost contents: { Self → Option (List (List ℕ × List ℕ)) };

    /// How many reads have failed.
    ghost faults: { Self → ℕ };

    /// The name of the last read that failed.
    ghost failed: { Self → List ℕ };

    fn faults(&self) -> u64
        ensures { result ≡ faults self.now };

    /// The name of the last read that answered `Failed`, empty before the first.
    fn failed(&self) -> &str
        ensures { result.now ≡ failed self.now };

    /// All the bytes of a file, if it has no more than `limit`.
    fn read_all(&mut self, name: &str, limit: usize) -> Result<Vec<u8>, FileFault>
        ensures same { contents self.new ≡ contents self.old }
        ensures bytes { ReadsFrom (contents self.old) name.now limit result }
        ensures cause { ReadCause name.now (faults self.old) (faults self.new) (failed self.old) (failed self.new) result };
}
