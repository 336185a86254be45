// What callers may know of an accepted file's memory. Each law is the contract of a function without a body; a proof
// above cites it from `proofs/MemoryLaws.antt`.
ghost use Rattle.std.specs.Prelude.{◌≡◌, ℕ, List, ◌<◌, ◌≤◌, ◌||◌, Contains, Some, None, Ok, true, is_some};
ghost use Rattle.elf_image.specs.Headers.{region, stack};
ghost use Rattle.elf_image.specs.Regions.{block, RisesFrom};
ghost use Rattle.elf_image.specs.File.{image_of, entry, is_code, is_mapped, is_writable_at, regions_of, granule_of, granules_of, granule_address, constant_word};

/// The regions rise, each apart from the next, and the stack is one of them. The entry can be fetched.
pub fn regions_law()
    ensures rise { (file : List ℕ) → image_of file ≡ Ok file → RisesFrom 0 (regions_of file) }
    ensures stack { (file : List ℕ) → Contains (regions_of file) (region stack) }
    ensures entry { (file : List ℕ) → image_of file ≡ Ok file → is_code file (entry file) ≡ true }
{}

/// Granules are numbered from 0 by rising address, and each has one number.
pub fn granule_law()
    ensures few { (file : List ℕ) → image_of file ≡ Ok file → granules_of file ≤ 532480 }
    ensures number { (file : List ℕ) (g : ℕ) → image_of file ≡ Ok file → g < granules_of file → granule_of file (granule_address file g) ≡ Some g }
    ensures below { (file : List ℕ) (a g : ℕ) → image_of file ≡ Ok file → granule_of file a ≡ Some g → g < granules_of file }
    ensures address { (file : List ℕ) (a g : ℕ) → image_of file ≡ Ok file → granule_of file a ≡ Some g → granule_address file g ≡ block a }
    ensures rise { (file : List ℕ) (g h : ℕ) → image_of file ≡ Ok file → g < h → h < granules_of file → granule_address file g < granule_address file h }
{}

/// A granule is one block of eight bytes: all its addresses have its number, and no others.
pub fn block_law()
    ensures same { (file : List ℕ) (a : ℕ) → image_of file ≡ Ok file → granule_of file (block a) ≡ granule_of file a }
    ensures one { (file : List ℕ) (a b g : ℕ) → image_of file ≡ Ok file → granule_of file a ≡ Some g → granule_of file b ≡ Some g → block a ≡ block b }
{}

/// An address of a region has a granule where it may be written, and else a constant word.
pub fn memory_law()
    ensures writable { (file : List ℕ) (a : ℕ) → image_of file ≡ Ok file → is_some (granule_of file a) ≡ is_writable_at file a }
    ensures parts { (file : List ℕ) (a : ℕ) → image_of file ≡ Ok file → is_mapped file a ≡ (is_some (granule_of file a) || is_some (constant_word file a)) }
    ensures apart { (file : List ℕ) (a w : ℕ) → image_of file ≡ Ok file → constant_word file a ≡ Some w → granule_of file a ≡ None }
{}
