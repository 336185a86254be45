// What the words of the code are.
ghost use Rattle.std.specs.Prelude.{◌≡◌, ℕ, ◌<◌, ◌≤◌, ◌^◌, ◌*◌, Some, All, IsSome, length, slice_index, pos, ◌+ℤ◌};
ghost use Rattle.elf_image.specs.File.{word_at};
ghost use Rattle.rv_decode.specs.declared.instr.Op.TheVariants.{Lui, Addi, Jal, Ecall};
ghost use Rattle.rv_decode.specs.Fields.{signed, bare};
ghost use Rattle.rv_decode.specs.Table.{instr_of};
ghost use Rattle.gen_program.specs.Program.{address, code, program};
ghost use Rattle.gen_program.specs.Words.{lui, addi, jal_next, ecall, high, low};

/// Each word is the instruction that it is named for.
pub fn word_law()
    ensures lui { (rd upper : ℕ) → rd < 32 → upper < 2 ^ 20 → instr_of (lui rd upper) ≡ Some (record { op = Lui; rd = rd; rs1 = 0; rs2 = 0; imm = signed 32 (upper * 2 ^ 12) }) }
    ensures addi { (rd rs1 immediate : ℕ) → rd < 32 → rs1 < 32 → immediate < 2 ^ 12 → instr_of (addi rd rs1 immediate) ≡ Some (record { op = Addi; rd = rd; rs1 = rs1; rs2 = 0; imm = signed 12 immediate }) }
    ensures jal { instr_of jal_next ≡ Some (record { op = Jal; rd = 1; rs1 = 0; rs2 = 0; imm = pos 4 }) }
    ensures ecall { instr_of ecall ≡ Some (bare Ecall) }
{}

/// A `lui` and an `addi` with the two parts of an address give the address.
pub fn address_law()
    ensures { (address : ℕ) → address < 0x7ffff800 → signed 32 (high address * 2 ^ 12) +ℤ signed 12 (low address) ≡ pos address }
{}

/// Code has no word that isn't an instruction.
pub fn code_law()
    ensures { (seed size : ℕ) → size ≤ 10000 → All (λ w. IsSome (instr_of w)) (code seed size) }
{}

/// The words of the code are fetched one after another, each at its address.
pub fn fetch_law()
    ensures { (seed size k : ℕ) → size ≤ 10000 → k < length (code seed size) → word_at (program seed size) (address k) ≡ Some (slice_index (code seed size) k) }
{}
