// The registers of a thread.
ghost use Rattle.std.specs.Prelude.{◌≡◌, ◌<◌};
ghost use Rattle.rv_exec.specs.Registers.{value, put, at_pc, fresh};

use std::marker::Model;

/// The address of the next instruction, and 32 words. Register 0 reads 0, and writing it does
/// nothing.
#[derive(Clone, Copy, Debug, PartialEq, Eq)]
pub struct Regs {
    pc: u64,
    x: [u64; 32],
}

impl Model for Regs {
    ghost use Rattle.std.specs.Prelude.{};
    ghost use Rattle.rv_exec.specs.Registers.{Registers};

    ghost Value = { Registers };

    ghost view = { λ r. record { pc = r.pc; x = r.x } };

    ghost inverse = { λ r. record { pc = r.pc; x = r.x } };
}

impl Regs {
    /// All registers 0.
    pub fn new(pc: u64) -> Regs
        ensures { result ≡ fresh pc }
    {
        Regs { pc, x: [0; 32] }
    }

    #[inline(always)]
    pub fn get(&self, n: u8) -> u64
        requires { n < 32 }
        ensures { result ≡ value self.now n }
    {
        if n == 0 { 0 } else { self.x[n as usize] }
    }

    #[inline(always)]
    pub fn set(&mut self, n: u8, to: u64)
        requires { n < 32 }
        ensures { self.new ≡ put self.old n to }
    {
        if n != 0 {
            self.x[n as usize] = to;
        }
    }

    #[inline(always)]
    pub fn pc(&self) -> u64
        ensures { result ≡ self.now.pc }
    {
        self.pc
    }

    #[inline(always)]
    pub fn set_pc(&mut self, pc: u64)
        ensures { self.new ≡ at_pc self.old pc }
    {
        self.pc = pc;
    }
}
