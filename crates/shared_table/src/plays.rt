// The rule of the table, and what its steps tell.
ghost use Rattle.std.specs.Prelude.{ℕ};

use crate::object::Slot;
use crate::view::View;
use atomic_table::{Join, Play, Seat, Split, TableRule};
use run_record::Limits;
use std::snapshot::Snapshot;

/// What the rule is told when the table is made: the layout.
#[derive(Drop)]
pub struct Plan {
    pub firsts: Snapshot<Vec<Slot>>,
    pub sizes: Snapshot<Vec<u32>>,
    pub granules: u32,
    pub limits: Limits,
}

/// What a thread steps with: what it knows, and what it holds. It has no bytes.
pub type SharedSeat = Seat<Slot, View>;

/// There is one past of all steps that seats made, from which the words, the values at home and what
/// the seats know follow.
pub struct Lawful;

impl TableRule<Slot, View, Plan> for Lawful {
    ghost use Rattle.shared_table.specs.Rule.{Kept, opener};
    ghost use Rattle.shared_table.specs.Plans.{layout_of};

    ghost holds = { λ plan s. Kept (layout_of plan) s };

    ghost first = { λ plan. opener (layout_of plan) };
}

pub struct Takes;

impl Play<Slot, View> for Takes {
    ghost use Rattle.shared_table.specs.Steps.{taken};

    ghost then = { taken };
}

pub struct Gives;

impl Play<Slot, View> for Gives {
    ghost use Rattle.shared_table.specs.Steps.{given};

    ghost then = { given };
}

pub struct Loads;

impl Play<Slot, View> for Loads {
    ghost use Rattle.shared_table.specs.Steps.{load_told};

    ghost then = { load_told };
}

pub struct Stores;

impl Play<Slot, View> for Stores {
    ghost use Rattle.shared_table.specs.Steps.{store_told};

    ghost then = { store_told };
}

pub struct Learns;

impl Play<Slot, View> for Learns {
    ghost use Rattle.shared_table.specs.Steps.{learned};

    ghost then = { learned };
}

pub struct Opens;

impl Split<View> for Opens {
    ghost use Rattle.shared_table.specs.Steps.{parted, new_seat};

    ghost left = { parted };

    ghost right = { new_seat };
}

pub struct Closes;

impl Join<View> for Closes {
    ghost use Rattle.shared_table.specs.Steps.{joined, spent};

    ghost both = { joined };

    ghost spent = { spent };
}
