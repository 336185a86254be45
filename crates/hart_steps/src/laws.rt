// What a stripe's list of words is to the whole memory.
ghost use Rattle.std.specs.Prelude.{◌≡◌, ℕ, ◌<◌, List, [], length};
ghost use Rattle.elf_image.specs.File.{granules_of};
ghost use Rattle.place_turns.specs.Wholes.{first_stripe};
ghost use Rattle.place_turns.specs.Places.{of_stripe};
ghost use Rattle.hart_steps.specs.Stripes.{IsIndexOf, AreFirst, stripe_value};

/// The word of a granule is among those of its stripe. A stripe with the file's words is that of the first state.
pub fn stripe_law()
    ensures inside { (file words : List ℕ) (n index : ℕ) → n < granules_of file → IsIndexOf file n words index → index < length words }
    ensures first { (file words : List ℕ) (k : ℕ) → AreFirst file k words → stripe_value file k words [] ≡ of_stripe (first_stripe file) }
{}
