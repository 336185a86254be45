// Decoded instructions.

/// The instructions of RV64I, M and A, under the manual's names.
#[derive(Clone, Copy)]
pub enum Op {
    // Integer computations with a constant of 20 bits in the upper place, and jumps.
    Lui,
    Auipc,
    Jal,
    Jalr,
    // Branches.
    Beq,
    Bne,
    Blt,
    Bge,
    Bltu,
    Bgeu,
    // Loads.
    Lb,
    Lh,
    Lw,
    Ld,
    Lbu,
    Lhu,
    Lwu,
    // Stores.
    Sb,
    Sh,
    Sw,
    Sd,
    // Computations with an immediate.
    Addi,
    Slti,
    Sltiu,
    Xori,
    Ori,
    Andi,
    Slli,
    Srli,
    Srai,
    // The same on 32 bits.
    Addiw,
    Slliw,
    Srliw,
    Sraiw,
    // Computations with two registers.
    Add,
    Sub,
    Sll,
    Slt,
    Sltu,
    Xor,
    Srl,
    Sra,
    Or,
    And,
    // Multiplication and division.
    Mul,
    Mulh,
    Mulhsu,
    Mulhu,
    Div,
    Divu,
    Rem,
    Remu,
    // Computations with two registers on 32 bits.
    Addw,
    Subw,
    Sllw,
    Srlw,
    Sraw,
    // Multiplication and division on 32 bits.
    Mulw,
    Divw,
    Divuw,
    Remw,
    Remuw,
    // Fence, call and breakpoint.
    Fence,
    Ecall,
    Ebreak,
    // Atomic memory operations on 4 bytes.
    LrW,
    ScW,
    AmoswapW,
    AmoaddW,
    AmoxorW,
    AmoandW,
    AmoorW,
    AmominW,
    AmomaxW,
    AmominuW,
    AmomaxuW,
    // Atomic memory operations on 8 bytes.
    LrD,
    ScD,
    AmoswapD,
    AmoaddD,
    AmoxorD,
    AmoandD,
    AmoorD,
    AmominD,
    AmomaxD,
    AmominuD,
    AmomaxuD,
}

/// An instruction and its fields. A field that the instruction lacks is 0.
#[derive(Clone, Copy)]
pub struct Instr {
    pub op: Op,
    /// The register that is written.
    pub rd: u8,
    /// The registers that are read.
    pub rs1: u8,
    pub rs2: u8,
    /// The immediate, sign-extended; of a shift, the amount.
    pub imm: i64,
}
