// Where each object stands.
ghost use Rattle.std.specs.Prelude.{◌≡◌, ℕ, ◌+◌, ◌<◌, ◌≤◌, if◌then◌else◌, is_some, Some, None};
ghost use Rattle.indexmap.specs.IndexMap.{IsUnique, spare, index_map_len};
ghost use Rattle.sync_slab.specs.declared.id.ObjectId.{ObjectId as Id};
ghost use Rattle.sync_slab.specs.Ids.{same_id};
ghost use Rattle.sync_slab.specs.Inside.{place_of};

use crate::id::ObjectId;
use indexmap::IndexMap;

pub type Index = IndexMap<ObjectId, usize>;

pub fn find(index: &Index, id: ObjectId) -> Option<usize>
    ensures { result ≡ place_of index.now id }
{
    index.get(&id).copied()
}

// Enters a new object, for which there is room.
pub fn add(index: &mut Index, id: ObjectId, at: usize)
    requires room { 0 < spare index.old }
    requires absent { place_of index.old id ≡ None }
    ensures there { (other : Id) → place_of index.new other ≡ (if same_id id other then Some at else place_of index.old other) }
    ensures len { index_map_len index.new ≡ index_map_len index.old + 1 }
    ensures unique { IsUnique same_id index.new }
{
    index.insert(id, at).unwrap();
}

// Takes an object out.
pub fn remove(index: &mut Index, id: ObjectId) -> Option<usize>
    ensures place { result ≡ place_of index.old id }
    ensures gone { (other : Id) → place_of index.new other ≡ (if same_id id other then None else place_of index.old other) }
    ensures len { index_map_len index.new + (if is_some result then 1 else 0) ≡ index_map_len index.old }
    ensures room { spare index.old ≤ spare index.new }
    ensures unique { IsUnique same_id index.new }
{
    index.swap_remove(&id)
}
