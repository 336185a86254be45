// One synchronisation object.
ghost use Rattle.std.specs.Prelude.{◌≡◌, length, Some, is_some, if◌then◌else◌};
ghost use Rattle.sync_slab.specs.Inside.{released_into};

use vector_clock::Clock;

/// The clock that was left at an object, and the era in which it was left.
#[derive(Drop)]
pub struct Object {
    pub era: u32,
    pub clock: Clock,
}

// Puts a clock in place of the object's.
pub fn replace(object: &mut Object, era: u32, clock: &Clock)
    requires { length object.old.clock ≡ length clock.now }
    ensures { object.new ≡ record { era = era; clock = clock.now } }
{
    object.era = era;
    object.clock.copy_from(clock);
}

// Joins a clock with the object's of the same era; a clock of another era is replaced.
pub fn join(object: &mut Object, era: u32, clock: &Clock)
    requires { length object.old.clock ≡ length clock.now }
    ensures { object.new ≡ released_into object.old era clock.now }
{
    if object.era == era {
        object.clock.join(clock);
    } else {
        replace(object, era, clock);
    }
}

// Keeps the clock for later where none is kept.
pub fn keep(kept: &mut Option<Clock>, clock: Clock)
    ensures { kept.new ≡ (if is_some kept.old then kept.old else Some clock) }
{
    if kept.is_none() {
        *kept = Some(clock);
    }
}
