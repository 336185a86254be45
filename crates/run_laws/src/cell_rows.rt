// Small histories of full granules, written out in specs/CellRows.antt: each is that of a lawful run, and has no reports.

ghost use Rattle.std.specs.Prelude.{[]};
ghost use Rattle.run_laws.specs.Faithful.{OneByOne};
ghost use Rattle.run_laws.specs.Rows.{Shows, no_rules, nothing, usual};
ghost use Rattle.run_laws.specs.CellRows.{five_bytes, five_bytes_scripts, own_words, own_words_scripts};

/// A fifth word takes the cell of its turn: the race with the word that stood there isn't seen any more.
pub fn fifth_word_takes_the_cell_of_its_turn()
    ensures { Shows OneByOne usual [] five_bytes_scripts five_bytes no_rules nothing }
{}

/// In a full granule a write takes the cell of its thread's read of those bytes. A read leaves a write there, and an atomic
/// access one that isn't.
pub fn own_word_gives_way_to_a_stronger_one()
    ensures { Shows OneByOne usual [] own_words_scripts own_words no_rules nothing }
{}
