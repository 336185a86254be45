// Code for one call each.
ghost use Rattle.std.specs.Prelude.{◌≡◌, ◌++◌, ◌+◌, ◌<◌, ◌≤◌, ◌^◌, OnOk, vec_len};
ghost use Rattle.gen_program.specs.Notation as notation;

use crate::encoding::{ECALL, JAL_NEXT, addi, lui};
use std::alloc::AllocError;

/// The numbers of the calls, as the machine's call table has them.
pub const THREAD_CREATE: u32 = 3;

pub const THREAD_EXIT: u32 = 4;

pub const READ8: u32 = 19;

pub const WRITE8: u32 = 24;

pub const FUNC_ENTRY: u32 = 36;

pub const FUNC_EXIT: u32 = 37;

pub const POST_LOCK: u32 = 44;

pub const PRE_UNLOCK: u32 = 45;

pub const ATOMIC64_FETCH_ADD: u32 = 115;

/// The call of an entry function on an address of the data, given as its offset, with up to two
/// further arguments.
#[tactic(auto, unfolding(crate::specs::Notation::entry_call, crate::specs::Words::jal_next, crate::specs::Words::ecall))]
pub fn entry_call(
    code: &mut Vec<u32>,
    number: u32,
    offset: u32,
    values: (u32, u32),
) -> Result<(), AllocError>
    requires number { number < 2 ^ 12 }
    requires offset { offset < 2 ^ 12 }
    requires first { values.0 < 2 ^ 12 }
    requires second { values.1 < 2 ^ 12 }
    ensures { OnOk result (code.new.items ≡ code.old.items ++ notation.entry_call number offset values.0 values.1) }
{
    let words = [
        lui(10, 0x1000),
        addi(10, 10, offset),
        addi(11, 0, values.0),
        addi(12, 0, values.1),
        addi(13, 0, 0),
        addi(14, 0, 0),
        JAL_NEXT,
        addi(17, 0, number),
        ECALL,
    ];
    code.extend_from_slice(&words)
}

/// Makes a thread that begins at the address.
#[tactic(auto, unfolding(crate::specs::Notation::create_thread, crate::specs::Words::ecall))]
pub fn create_thread(code: &mut Vec<u32>, address: u32) -> Result<(), AllocError>
    requires { address < 2 ^ 31 }
    ensures { OnOk result (code.new.items ≡ code.old.items ++ notation.create_thread address) }
{
    let words = [
        lui(10, (address + 0x800) / 0x1000),
        addi(10, 10, address % 0x1000),
        addi(17, 0, THREAD_CREATE),
        ECALL,
    ];
    code.extend_from_slice(&words)
}

/// Ends the thread.
#[tactic(auto, unfolding(crate::specs::Notation::exit_thread, crate::specs::Words::ecall))]
pub fn exit_thread(code: &mut Vec<u32>) -> Result<(), AllocError>
    ensures { OnOk result (code.new.items ≡ code.old.items ++ notation.exit_thread) }
{
    code.extend_from_slice(&[addi(17, 0, THREAD_EXIT), ECALL])
}
