// Which events a thread may tell when it begins.
ghost use Rattle.std.specs.Prelude.{◌≡◌, true, All};
ghost use Rattle.part_workers.specs.Begin.{is_begin, IsLater, BeginsFirst};

use run_record::Event;

fn is_begin(event: &Event) -> bool
    ensures { result ≡ is_begin event.now }
{
    match *event {
        Event::Begin => true,
        _ => false,
    }
}

// Whether none of the events begins a thread.
fn none_begins(events: &[Event]) -> bool
    ensures { result ≡ true → All IsLater events.now }
{
    for event in events {
        if is_begin(event) {
            return false;
        }
    }
    true
}

// Whether the thread begins with the first of the events, where it hadn't begun, and with none of the others.
pub(crate) fn begins_first(began: bool, events: &[Event]) -> bool
    ensures { result ≡ true → BeginsFirst began events.now }
{
    if began {
        return none_begins(events);
    }
    match events {
        [first, rest @ ..] => is_begin(first) && none_begins(rest),
        [] => false,
    }
}
