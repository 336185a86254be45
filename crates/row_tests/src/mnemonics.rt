// The instructions that can be written by their names.

/// What stands behind a mnemonic, and where it goes.
#[derive(Clone, Copy)]
pub enum Shape {
    /// Nothing.
    Bare,
    /// `rd,rs1,rs2`
    Registers,
    /// `rd,rs1,immediate`
    Immediate,
    /// `rd,rs1,amount`
    Shift,
    /// `rd,immediate(rs1)`
    Load,
    /// `rs2,immediate(rs1)`
    Store,
    /// `rs1,rs2,target`
    Branch,
    /// `rd,immediate`, of the upper twenty bits
    Upper,
    /// `rd,target`
    Jump,
    /// `rd,(rs1)`
    Reserve,
    /// `rd,rs2,(rs1)`
    Atomic,
}

#[derive(Clone, Copy)]
pub struct Mnemonic {
    pub shape: Shape,
    pub head: u32,
}

/// The name, the shape and the head of each instruction.
static INSTRUCTIONS: [(&str, Shape, u32); 87] = [
    ("lui", Shape::Upper, 0x37),
    ("auipc", Shape::Upper, 0x17),
    ("jal", Shape::Jump, 0x6f),
    ("jalr", Shape::Load, 0x67),
    ("beq", Shape::Branch, 0x63),
    ("bne", Shape::Branch, 0x1063),
    ("blt", Shape::Branch, 0x4063),
    ("bge", Shape::Branch, 0x5063),
    ("bltu", Shape::Branch, 0x6063),
    ("bgeu", Shape::Branch, 0x7063),
    ("lb", Shape::Load, 0x03),
    ("lh", Shape::Load, 0x1003),
    ("lw", Shape::Load, 0x2003),
    ("ld", Shape::Load, 0x3003),
    ("lbu", Shape::Load, 0x4003),
    ("lhu", Shape::Load, 0x5003),
    ("lwu", Shape::Load, 0x6003),
    ("sb", Shape::Store, 0x23),
    ("sh", Shape::Store, 0x1023),
    ("sw", Shape::Store, 0x2023),
    ("sd", Shape::Store, 0x3023),
    ("addi", Shape::Immediate, 0x13),
    ("slti", Shape::Immediate, 0x2013),
    ("sltiu", Shape::Immediate, 0x3013),
    ("xori", Shape::Immediate, 0x4013),
    ("ori", Shape::Immediate, 0x6013),
    ("andi", Shape::Immediate, 0x7013),
    ("slli", Shape::Shift, 0x1013),
    ("srli", Shape::Shift, 0x5013),
    ("srai", Shape::Shift, 0x4000_5013),
    ("addiw", Shape::Immediate, 0x1b),
    ("add", Shape::Registers, 0x33),
    ("sll", Shape::Registers, 0x1033),
    ("slt", Shape::Registers, 0x2033),
    ("sltu", Shape::Registers, 0x3033),
    ("xor", Shape::Registers, 0x4033),
    ("srl", Shape::Registers, 0x5033),
    ("or", Shape::Registers, 0x6033),
    ("and", Shape::Registers, 0x7033),
    ("sub", Shape::Registers, 0x4000_0033),
    ("sra", Shape::Registers, 0x4000_5033),
    ("mul", Shape::Registers, 0x0200_0033),
    ("mulh", Shape::Registers, 0x0200_1033),
    ("mulhsu", Shape::Registers, 0x0200_2033),
    ("mulhu", Shape::Registers, 0x0200_3033),
    ("div", Shape::Registers, 0x0200_4033),
    ("divu", Shape::Registers, 0x0200_5033),
    ("rem", Shape::Registers, 0x0200_6033),
    ("remu", Shape::Registers, 0x0200_7033),
    ("addw", Shape::Registers, 0x3b),
    ("sllw", Shape::Registers, 0x103b),
    ("srlw", Shape::Registers, 0x503b),
    ("subw", Shape::Registers, 0x4000_003b),
    ("sraw", Shape::Registers, 0x4000_503b),
    ("mulw", Shape::Registers, 0x0200_003b),
    ("divw", Shape::Registers, 0x0200_403b),
    ("divuw", Shape::Registers, 0x0200_503b),
    ("remw", Shape::Registers, 0x0200_603b),
    ("remuw", Shape::Registers, 0x0200_703b),
    ("fence", Shape::Bare, 0x0f),
    ("ecall", Shape::Bare, 0x73),
    ("ebreak", Shape::Bare, 0x0010_0073),
    ("lr.w", Shape::Reserve, 0x1000_202f),
    ("lr.d", Shape::Reserve, 0x1000_302f),
    ("sc.w", Shape::Atomic, 0x1800_202f),
    ("sc.d", Shape::Atomic, 0x1800_302f),
    ("amoswap.w", Shape::Atomic, 0x0800_202f),
    ("amoswap.d", Shape::Atomic, 0x0800_302f),
    ("amoadd.w", Shape::Atomic, 0x0000_202f),
    ("amoadd.d", Shape::Atomic, 0x0000_302f),
    ("amoxor.w", Shape::Atomic, 0x2000_202f),
    ("amoxor.d", Shape::Atomic, 0x2000_302f),
    ("amoand.w", Shape::Atomic, 0x6000_202f),
    ("amoand.d", Shape::Atomic, 0x6000_302f),
    ("amoor.w", Shape::Atomic, 0x4000_202f),
    ("amoor.d", Shape::Atomic, 0x4000_302f),
    ("amomin.w", Shape::Atomic, 0x8000_202f),
    ("amomin.d", Shape::Atomic, 0x8000_302f),
    ("amomax.w", Shape::Atomic, 0xa000_202f),
    ("amomax.d", Shape::Atomic, 0xa000_302f),
    ("amominu.w", Shape::Atomic, 0xc000_202f),
    ("amominu.d", Shape::Atomic, 0xc000_302f),
    ("amomaxu.w", Shape::Atomic, 0xe000_202f),
    ("amomaxu.d", Shape::Atomic, 0xe000_302f),
    ("slliw", Shape::Shift, 0x101b),
    ("srliw", Shape::Shift, 0x501b),
    ("sraiw", Shape::Shift, 0x4000_501b),
];

/// The instruction of a name.
pub fn mnemonic_of(name: &str) -> Option<Mnemonic> {
    for (known, shape, head) in INSTRUCTIONS.iter() {
        if *known == name {
            return Some(Mnemonic {
                shape: *shape,
                head: *head,
            });
        }
    }
    None
}
