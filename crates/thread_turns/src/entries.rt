// The entries of a turn.
ghost use Rattle.std.specs.Prelude.{◌≡◌, ◌<◌, ◌^◌, ◌++◌, length, OnOk, OnErr};
ghost use Rattle.turn_laws.specs.Turns.{entries_of};
ghost use Rattle.thread_turns.specs.Pushed.{made_turn};

use crate::Part;
use run_record::{Entries, Head, NoMemory};

/// Appends the label that was taken, the instructions, and the label that was left; or nothing, where
/// there is no room for all of them.
pub(crate) fn push_turn(
    entries: &mut Entries,
    round: u32,
    era: u32,
    tid: u32,
    part: &Part,
) -> Result<(), NoMemory>
    requires { length entries.old < 2 ^ 32 }
    ensures ok { OnOk result (entries.new
        ≡ entries.old ++ entries_of (length entries.old) (made_turn round era tid part.now)) }
    ensures err { OnErr result (entries.new ≡ entries.old) }
{
    let head = Head {
        round,
        era,
        stamp: entries.len() as u64 + 1,
        tid,
        steps: part.steps,
    };
    entries.push_between(
        head,
        part.attached,
        part.events.as_slice(),
        part.checks.as_slice(),
        part.spent,
    )
}
