//! What the bare machine has at the desk: the threads as they were made, the output, and the run's first exit or fault.
//!
//! It stands on the bare machine's threads (`bare_machine`) and on the lists of the record (`run_record`). Which threads live is
//! kept beside it. `shared_table` keeps it under the desk's lock, and `hart_steps` serves the requests that use it; both use the
//! clause of `new`, which says how it begins, and of `is_full`, which says when no more threads can be made.
#![tactic(auto)]

ghost use Rattle.std.specs.Prelude.{◌≡◌, ◌<◌, ◌≤◌, false, length, IfOk};
ghost use Rattle.machine_desk.specs.Desks as desks;
ghost use Rattle.machine_desk.specs.Desks.{first_desk};

use bare_machine::{Thread, new_thread};
use run_record::{Bytes, GuestEnd, Items, NoMemory};
use std::alloc::Global;

/// What the machine has at the desk: the threads by number as they were made, the bytes that were put, and the first
/// exit or fault. Which threads live is kept by the layer above.
#[derive(Drop)]
pub struct MachineDesk {
    pub made: Items<Thread>,
    pub output: Bytes,
    pub ended: Option<GuestEnd>,
}

impl MachineDesk {
    /// The main thread, which begins at `entry`, and no output.
    pub fn new(alloc: Global, entry: u64) -> Result<MachineDesk, NoMemory>
        ensures { IfOk result (λ desk. desk ≡ first_desk entry) }
    {
        let mut made = Items::new(alloc);
        made.push(new_thread(entry, 0, 0x8000_0000))?;
        Ok(MachineDesk {
            made,
            output: Items::new(alloc),
            ended: None,
        })
    }

    /// Whether no more threads can be made where so many live: as many as may at once, or 1,024 were made.
    pub fn is_full(&self, harts: u32, living: u32) -> bool
        requires { length self.now.made ≤ 1024 }
        ensures value { result ≡ desks.is_full harts living self.now.made }
        ensures room { result ≡ false → length self.now.made < 1024 }
    {
        living >= harts || self.made.len() == 1024
    }
}
