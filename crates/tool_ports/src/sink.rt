// Where bytes are put.
ghost use Rattle.std.specs.Prelude.{◌≡◌, ℕ, List, Option, OnOk, OnErr};
ghost use Rattle.tool_ports.specs.Ports.{Appends, AppendsPart, HasCause};

/// A put took only the first of its bytes, or none.
#[derive(Clone, Copy, Debug, PartialEq, Eq)]
pub struct SinkFailed;

/// Something that takes bytes, one piece after another.
pub trait Sink {
    /// The bytes that were put, if it tells them.
    ghost contents: { Self → Option (List ℕ) };

    /// How many puts have failed.
    ghost faults: { Self → ℕ };

    fn faults(&self) -> u64
        ensures { result ≡ faults self.now };

    /// Appends all bytes, or fails and appends the first of them.
    fn put(&mut self, bytes: &[u8]) -> Result<(), SinkFailed>
        ensures ok { OnOk result (Appends (contents self.old) (contents self.new) bytes.now) }
        ensures err { OnErr result (AppendsPart (contents self.old) (contents self.new) bytes.now) }
        ensures cause { HasCause (faults self.old) (faults self.new) result };
}
