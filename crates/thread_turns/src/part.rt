// What a turn has come to.
ghost use Rattle.std.specs.Prelude.{◌≡◌, [], None, false};

use run_record::{CheckList, EventList, Label};
use std::alloc::Global;

/// The instructions that a thread has made in its turn. It serves one turn after another, so that
/// its lists keep their memory.
#[derive(Drop)]
pub struct Part {
    // The label that was taken before them.
    pub(crate) attached: Option<Label>,
    pub(crate) steps: u32,
    pub(crate) events: EventList,
    pub(crate) checks: CheckList,
    // The label that they spent.
    pub(crate) spent: Option<Label>,
    // Whether the last one used an object.
    pub(crate) used: bool,
}

impl Part {
    /// No instructions. It takes no memory.
    pub fn new(alloc: Global) -> Part
        ensures { result ≡ record { attached = None; steps = 0; events = []; checks = []; spent = None; used = false } }
    {
        Part {
            attached: None,
            steps: 0,
            events: EventList::new(alloc),
            checks: CheckList::new(alloc),
            spent: None,
            used: false,
        }
    }

    // No instructions of another turn.
    pub(crate) fn clear(&mut self)
        ensures { self.new ≡ record { attached = None; steps = 0; events = []; checks = []; spent = None; used = false } }
    {
        self.attached = None;
        self.steps = 0;
        self.events.clear();
        self.checks.clear();
        self.spent = None;
        self.used = false;
    }
}
