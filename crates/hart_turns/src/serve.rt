// Requests that are served at a stripe.
ghost use Rattle.std.specs.Prelude.{◌≡◌, ◌<◌, [], true, length, slice_index, OnOk, IfOk};
ghost use Rattle.bare_machine.specs.Asked.{IsSound, IsShallow, IsWithin};
ghost use Rattle.shared_table.specs.Layouts.{IsTableOf};
ghost use Rattle.shared_table.specs.Past.{IsSoundSlot};
ghost use Rattle.hart_turns.specs.Serves.{UsesStripe, granule_used, HasAsked, ServedAt, ServedIn};

use bare_machine::Request;
use elf_image::Image;
use entry_calls::CallEvents;
use hart_steps::Hart;
use run_record::NoMemory;
use shared_table::{Object, Shared, Stripe};

// The granule that the request uses, if any.
fn used_granule(request: &Request) -> Option<u32>
    ensures { result ≡ granule_used request.now }
{
    match request {
        Request::Touch(touch) => Some(touch.granule),
        Request::Operate(operation) => Some(operation.granule),
        _ => None,
    }
}

// Serves what the thread asked for at the stripe of that number, which is the one that it uses.
fn serve_at(
    shared: &Shared,
    image: &Image<'_>,
    tid: u32,
    hart: &mut Hart,
    request: &Request,
    stripe: &mut Stripe,
    number: u32,
    events: &mut CallEvents,
) -> Result<(), NoMemory>
    requires table { IsTableOf image.now shared.now.layout.limits shared.now }
    requires number { number < 64 }
    requires size { length stripe.old.words ≡ slice_index shared.now.layout.sizes number }
    requires uses { UsesStripe number request.now }
    requires asked { HasAsked image.now tid hart.old request.now }
    requires sound { IsSound request.now }
    requires shallow { IsShallow request.now hart.old.thread.depth }
    requires within { IsWithin image.now request.now }
    requires empty { events.old ≡ [] }
    ensures served { OnOk result (ServedAt image.now number tid request.now hart.old hart.new stripe.old stripe.new events.new) }
    ensures size { length stripe.new.words ≡ length stripe.old.words }
    ensures sync { stripe.new.sync ≡ stripe.old.sync }
{
    image.accepted();
    let Some(granule) = used_granule(request) else {
        hart.serve_alone(request, events);
        return Ok(());
    };
    let index = shared.word_index(granule);
    hart.serve_at_stripe(
        tid,
        request,
        &mut stripe.words,
        &mut stripe.reserved,
        index,
        events,
    )
}

// Serves it at the object of that number, which the thread has taken, if that is a stripe.
pub(crate) fn serve_at_place(
    shared: &Shared,
    image: &Image<'_>,
    tid: u32,
    hart: &mut Hart,
    request: &Request,
    place: &mut Option<Object>,
    number: u32,
    events: &mut CallEvents,
) -> Result<bool, NoMemory>
    requires table { IsTableOf image.now shared.now.layout.limits shared.now }
    requires place { IsSoundSlot shared.now.layout number place.old }
    requires uses { UsesStripe number request.now }
    requires asked { HasAsked image.now tid hart.old request.now }
    requires sound { IsSound request.now }
    requires shallow { IsShallow request.now hart.old.thread.depth }
    requires within { IsWithin image.now request.now }
    requires empty { events.old ≡ [] }
    ensures served { IfOk result (λ served. served ≡ true →
        ServedIn image.now number tid request.now hart.old hart.new place.old place.new events.new) }
    ensures sound { IsSoundSlot shared.now.layout number place.new }
{
    match place {
        Some(Object::Stripe(stripe)) => {
            serve_at(shared, image, tid, hart, request, stripe, number, events)?;
            Ok(true)
        }
        _ => Ok(false),
    }
}
