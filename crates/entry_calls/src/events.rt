// The events of one instruction.
ghost use Rattle.std.specs.Prelude.{◌≡◌, ◌+◌, ◌<◌, ◌≤◌, [], ◌∷◌, ◌++◌, length};

use run_record::Event;
use std::marker::Model;

/// At most four events, which contracts see as a list.
#[derive(Drop)]
pub struct CallEvents {
    events: [Event; 4],
    count: usize,
}

impl Model for CallEvents {
    ghost use Rattle.std.specs.Prelude.{List, take, ◌≤◌};
    ghost use Rattle.run_record.specs.declared.event.Event.{Event};

    ghost Value = { List Event };

    ghost view = { λ e. take e.count e.events };

    ghost invariant = { λ e. e.count ≤ 4 };
}

impl CallEvents {
    pub fn new() -> CallEvents
        ensures { result ≡ [] }
    {
        CallEvents {
            events: [Event::Begin; 4],
            count: 0,
        }
    }

    /// Appends an event.
    pub fn push(&mut self, event: Event)
        requires { length self.old < 4 }
        ensures { self.new ≡ self.old ++ event ∷ [] }
    {
        self.events[self.count] = event;
        self.count += 1;
    }

    /// Appends the events of another list.
    pub fn append(&mut self, more: &CallEvents)
        requires { length self.old + length more.now ≤ 4 }
        ensures { self.new ≡ self.old ++ more.now }
    {
        for event in more.as_slice() {
            self.push(*event);
        }
    }

    pub fn as_slice(&self) -> &[Event]
        ensures { result.now ≡ self.now }
    {
        &self.events[..self.count]
    }
}
