// Requests that are served at the desk.
ghost use Rattle.std.specs.Prelude.{◌≡◌, [], OnOk, OnErr};
ghost use Rattle.bare_machine.specs.Asked.{IsSound};
ghost use Rattle.shared_table.specs.Past.{HasThreads};
ghost use Rattle.slot_desk.specs.Desks.{lives_of};
ghost use Rattle.hart_steps.specs.Asked.{UsesDesk};
ghost use Rattle.hart_steps.specs.Desks.{IsJoinedOf};
ghost use Rattle.hart_turns.specs.Serves.{ServedAtDesk};

use bare_machine::Request;
use entry_calls::CallEvents;
use hart_steps::Hart;
use run_record::NoMemory;
use shared_table::DeskState;
use slot_desk::Desk;

// Whether the thread that is to be joined lives, if it was made.
fn joined_at(desk: &Desk, request: &Request) -> Option<bool>
    ensures { IsJoinedOf request.now (lives_of desk.now) result }
{
    match request {
        Request::Join { of } => desk.lives_if_made(*of),
        _ => None,
    }
}

/// Serves what the thread asked for at the desk, where `harts` threads may live at once. Which threads live then is told by the
/// events, which the desk's slots are yet to hear.
pub fn serve_at_desk(
    desk: &mut DeskState,
    harts: u32,
    tid: u32,
    hart: &mut Hart,
    request: &Request,
    events: &mut CallEvents,
) -> Result<(), NoMemory>
    requires uses { UsesDesk request.now }
    requires threads { HasThreads desk.old }
    requires sound { IsSound request.now }
    requires empty { events.old ≡ [] }
    ensures served { OnOk result (ServedAtDesk harts tid request.now hart.old hart.new desk.old desk.new events.new) }
    ensures err { OnErr result (desk.new ≡ desk.old) }
{
    let living = desk.desk.living();
    let joined = joined_at(&desk.desk, request);
    hart.serve_at_desk(
        tid,
        harts,
        request,
        living,
        joined,
        &mut desk.machine,
        events,
    )
}
