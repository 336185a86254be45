// The names of synchronisation objects.
use run_record::Part;
use std::hash::{Hash, Hasher};

/// The address and the part of an object.
#[derive(Clone, Copy)]
pub struct ObjectId {
    pub addr: u64,
    pub part: Part,
}

impl PartialEq for ObjectId {
    ghost use Rattle.std.specs.Cmp.{partial_equiv_from_equiv};
    ghost use Rattle.sync_slab.specs.Ids.{same_id, same_id_equiv};

    ghost eq = { same_id };

    ghost laws = { partial_equiv_from_equiv same_id_equiv };

    fn eq(&self, other: &ObjectId) -> bool {
        self.addr == other.addr && self.part == other.part
    }
}

impl Eq for ObjectId {
    ghost use Rattle.sync_slab.specs.Ids.{same_id_equiv};

    ghost laws = { same_id_equiv };
}

impl Hash for ObjectId {
    ghost use Rattle.std.specs.Prelude.{◌++◌};
    ghost use Rattle.std.proofs.Common.{ap};
    ghost use Rattle.std.specs.Hash as fed;
    ghost use Rattle.sync_slab.specs.Ids.{is_readers, same_id-true};

    ghost hash_input = { λ id. fed.u64 id.addr ++ fed.bool (is_readers id.part) };

    ghost respects_eq = { λ x y same. ap (λ id. fed.u64 id.addr ++ fed.bool (is_readers id.part)) (same_id-true x y same) };

    fn hash<H: Hasher>(&self, state: &mut H) {
        self.addr.hash(state);
        matches!(self.part, Part::Readers).hash(state);
    }
}
