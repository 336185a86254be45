// One thread of the guest.
ghost use Rattle.std.specs.Prelude.{◌≡◌, ◌≤◌, ℕ, Some, slice_get, slice_set};
ghost use Rattle.bare_machine.specs.World as worlds;
ghost use Rattle.bare_machine.specs.World.{World};
ghost use Rattle.bare_machine.specs.Locals.{AreLocalSteps, MakesLocals};

use guest_code::Code;
use rv_exec::Regs;

/// A thread: its registers, and how far it is.
#[derive(Clone, Copy)]
pub struct Thread {
    pub regs: Regs,
    pub lives: bool,
    /// Whether it has made an instruction.
    pub began: bool,
    /// How many functions it has entered and not left: at most 4,096.
    pub depth: u32,
}

/// A thread before its first instruction: its argument is in x10, its stack's end in x2.
pub fn new_thread(pc: u64, argument: u64, stack: u64) -> Thread
    ensures { result ≡ worlds.new_thread pc argument stack }
{
    let mut regs = Regs::new(pc);
    regs.set(2, stack);
    regs.set(10, argument);
    Thread {
        regs,
        lives: true,
        began: false,
        depth: 0,
    }
}

impl Thread {
    /// Makes instructions while they touch the thread's registers alone, at most so many, from its second instruction on. It
    /// tells how many it made: in a world that has the thread, each is a step without events and objects.
    pub fn run_locals(&mut self, code: &Code<'_>, most: u32) -> u32
        ensures made { MakesLocals code.now self.old result self.new }
        ensures steps { (tid : ℕ) (w : World) → slice_get w.threads tid ≡ Some self.old → AreLocalSteps code.now tid w result (record w { threads = slice_set w.threads tid self.new }) }
        ensures few { result ≤ most }
    {
        if !self.began {
            return 0;
        }
        code.run_locals(&mut self.regs, most)
    }
}
