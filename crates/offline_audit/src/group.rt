// The accesses of a history in groups.
ghost use Rattle.std.specs.Prelude.{◌≡◌, ◌↔◌, ℕ, ◌++◌, ◌∷◌, [], List, Contains, IfOk, OnOk};
ghost use Rattle.std.specs.Bool.{OnTrue};
ghost use Rattle.std.specs.List.Sorted.{IsNonDecreasing, IsNonDecreasingBy};
ghost use Rattle.run_record.specs.declared.entry.Entry.{Entry};
ghost use Rattle.run_laws.specs.Moments.{Item};
ghost use Rattle.offline_audit.specs.declared.access.Made.{Made};
ghost use Rattle.offline_audit.specs.declared.group.Group.{Group};
ghost use Rattle.offline_audit.specs.Orders.{TellsOrder};
ghost use Rattle.offline_audit.specs.Kinds.{IsMade};
ghost use Rattle.offline_audit.specs.Chains.{IsEvent, IsChain};
ghost use Rattle.offline_audit.specs.Groups.{IsIn, AreChains, AreWithOne, addresses};

use crate::access::{Kind, Made};
use crate::order::{EventName, Order};
use crate::sweep::precedes;
use run_record::{Items, NoMemory};
use std::alloc::Global;

/// Accesses of one kind, each of which happens before the next.
#[derive(Drop)]
pub(crate) struct Group {
    pub(crate) kind: Kind,
    pub(crate) names: Items<EventName>,
}

/// Whether the access goes on the group: it is of its kind and comes after the group's last one.
fn goes_on(order: &Order, group: &Group, made: &Made) -> bool
    ensures kind { OnTrue result (group.now.kind ≡ made.now.kind) }
    ensures chain { OnTrue result ((h : ℕ → Item) (entries : List Entry) → TellsOrder h entries order.now
        → IsEvent h entries made.now.name → IsChain h entries group.now.names
        → IsChain h entries (group.now.names ++ made.now.name ∷ [])) }
{
    if group.kind != made.kind {
        return false;
    }
    match group.names.as_slice().last() {
        Some(last) => precedes(order, *last, made.name),
        None => true,
    }
}

/// One more group, with one access.
fn add_group(alloc: Global, groups: &mut Vec<Group>, made: &Made) -> Result<(), NoMemory>
    ensures { OnOk result (groups.new.items
        ≡ groups.old.items ++ record { kind = made.now.kind; names = made.now.name ∷ [] } ∷ []) }
{
    let mut names = Items::new(alloc);
    names.push(made.name)?;
    groups.push(Group {
        kind: made.kind,
        names,
    })?;
    Ok(())
}

/// One more access, in the last group where it goes on that one, and else in a group of its own.
fn add_access(
    alloc: Global,
    order: &Order,
    groups: &mut Vec<Group>,
    made: &Made,
) -> Result<(), NoMemory>
    ensures { OnOk result (AreWithOne order.now made.now groups.old.items groups.new.items) }
{
    match groups.pop() {
        Some(mut group) => {
            if goes_on(order, &group, made) {
                group.names.push(made.name)?;
                groups.push(group)?;
                Ok(())
            } else {
                groups.push(group)?;
                add_group(alloc, groups, made)
            }
        }
        None => add_group(alloc, groups, made),
    }
}

/// The accesses in groups, by rising address.
pub(crate) fn grouped(alloc: Global, order: &Order, made: &[Made]) -> Result<Vec<Group>, NoMemory>
    requires { IsNonDecreasingBy (λ m. m.kind.addr) made.now }
    ensures all { IfOk result (λ groups. (m : Made) → IsIn groups.items m ↔ Contains made.now m) }
    ensures chains { IfOk result (λ groups. (h : ℕ → Item) (entries : List Entry) → TellsOrder h entries order.now
        → ((m : Made) → Contains made.now m → IsEvent h entries m.name) → AreChains h entries groups.items) }
    ensures rising { IfOk result (λ groups. IsNonDecreasing (addresses groups.items)) }
{
    let mut groups = Vec::new(alloc);
    for one in made {
        add_access(alloc, order, &mut groups, one)?;
    }
    Ok(groups)
}
