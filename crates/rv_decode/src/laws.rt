// What the instruction table says as a whole.
ghost use Rattle.std.specs.Prelude.{◌≡◌, ℕ, true, ◌↔◌, Some, Any, AllPairs};
ghost use Rattle.rv_decode.specs.declared.instr.Instr.{Instr};
ghost use Rattle.rv_decode.specs.Table.{table, matches, made_by, instr_of};

/// A word is an instruction exactly where a row of the table matches it, and then it is that row's
/// instruction. No two rows match one word.
pub fn one_row()
    ensures exactly { (w : ℕ) (i : Instr) → (instr_of w ≡ Some i) ↔ Any (λ row. (matches w row ≡ true) × (made_by w row ≡ i)) table }
    ensures alone { (w : ℕ) → AllPairs (λ one other. matches w one ≡ true → matches w other ≡ true → ⊥) table }
{}
