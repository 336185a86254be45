// Instruction words, by the formats of the RISC-V unprivileged manual.
ghost use Rattle.std.specs.Prelude.{◌≡◌, ◌<◌, ◌^◌};
ghost use Rattle.gen_program.specs.Words as words;

/// `jal x1, +4`
pub const JAL_NEXT: u32 = 0x0040_00ef;

pub const ECALL: u32 = 0x73;

#[tactic(auto, unfolding(crate::specs::Words::lui))]
pub fn lui(rd: u32, upper: u32) -> u32
    requires rd { rd < 32 }
    requires upper { upper < 2 ^ 20 }
    ensures { result ≡ words.lui rd upper }
{
    0x37 + rd * 0x80 + upper * 0x1000
}

#[tactic(auto, unfolding(crate::specs::Words::addi))]
pub fn addi(rd: u32, rs1: u32, immediate: u32) -> u32
    requires rd { rd < 32 }
    requires rs1 { rs1 < 32 }
    requires immediate { immediate < 2 ^ 12 }
    ensures { result ≡ words.addi rd rs1 immediate }
{
    0x13 + rd * 0x80 + rs1 * 0x8000 + immediate * 0x10_0000
}
