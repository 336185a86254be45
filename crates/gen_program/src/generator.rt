// The program of a seed.
ghost use Rattle.std.specs.Prelude.{◌≡◌, ◌++◌, ◌+◌, ◌*◌, ◌<◌, ◌≤◌, ◌^◌, OnOk, IfOk, length, vec_len, Ok};
ghost use Rattle.elf_image.specs.File.{image_of};
ghost use Rattle.gen_program.specs.Draws as draws_of;
ghost use Rattle.gen_program.specs.Program as program;

use crate::draws::Draws;
use crate::executable::{CODE_ADDRESS, executable};
use crate::notation::{
    ATOMIC64_FETCH_ADD, FUNC_ENTRY, FUNC_EXIT, POST_LOCK, PRE_UNLOCK, READ8, WRITE8, create_thread,
    entry_call, exit_thread,
};
use run_record::NoMemory;
use std::alloc::{AllocError, Global};

/// The offset of the mutex that operations take.
const MUTEX: u32 = 2040;

/// Where the words begin that operations add to.
const COUNTERS: u32 = 1024;

/// The order acq_rel of an atomic call.
const ACQ_REL: u32 = 4;

/// How many words main has.
const MAIN_WORDS: usize = 14;

/// The operation that a first number chooses, on data that a second one chooses.
#[tactic(auto, unfolding(crate::specs::Program::operation))]
fn operation(code: &mut Vec<u32>, choice: u32, place: u32) -> Result<(), AllocError>
    ensures { OnOk result (code.new.items ≡ code.old.items ++ program.operation choice place) }
{
    let offset = 8 * (place % 64);
    match choice % 8 {
        0..=3 => entry_call(code, READ8, offset, (0, 0)),
        4 => entry_call(code, WRITE8, offset, (0, 0)),
        5 => entry_call(code, ATOMIC64_FETCH_ADD, COUNTERS + offset, (1, ACQ_REL)),
        6 => {
            entry_call(code, FUNC_ENTRY, offset, (0, 0))?;
            entry_call(code, FUNC_EXIT, 0, (0, 0))
        }
        _ => {
            entry_call(code, POST_LOCK, MUTEX, (0, 0))?;
            entry_call(code, WRITE8, offset, (0, 0))?;
            entry_call(code, PRE_UNLOCK, MUTEX, (0, 0))
        }
    }
}

/// The code of a thread of so many operations.
#[tactic(auto, unfolding(crate::specs::Program::thread))]
fn thread(code: &mut Vec<u32>, draws: &mut Draws, size: u32) -> Result<(), AllocError>
    ensures code { OnOk result (code.new.items ≡ code.old.items ++ program.thread draws.old.state size) }
    ensures draws { OnOk result (draws.new.state ≡ draws_of.after draws.old.state (2 * size)) }
{
    for _done in 0..size {
        let choice = draws.draw();
        let place = draws.draw();
        operation(code, choice, place)?;
    }
    exit_thread(code)
}

/// The address of the word behind main and so many words.
fn label(words: usize) -> u32
    requires { words < 2 ^ 28 }
    ensures { result ≡ program.address (14 + words) }
{
    CODE_ADDRESS + 4 * (MAIN_WORDS + words) as u32
}

/// The code of main, where so many words stand before the second and the third thread.
#[tactic(auto, unfolding(crate::specs::Program::main_of))]
fn main_code(alloc: Global, second: usize, third: usize) -> Result<Vec<u32>, AllocError>
    requires second { second < 2 ^ 28 }
    requires third { third < 2 ^ 28 }
    ensures { IfOk result (λ code. code.items ≡ program.main_of second third) }
{
    let mut code = Vec::new(alloc);
    create_thread(&mut code, label(0))?;
    create_thread(&mut code, label(second))?;
    create_thread(&mut code, label(third))?;
    exit_thread(&mut code)?;
    Ok(code)
}

/// The executable of a seed, with three threads of so many operations each. It has 810,020 words
/// of code at most.
pub fn make(alloc: Global, seed: u32, size: u32) -> Result<Vec<u8>, NoMemory>
    requires { size ≤ 10000 }
    ensures bytes { IfOk result (λ file. file.items ≡ program.program seed size) }
    ensures loads { IfOk result (λ file. image_of file.items ≡ Ok file.items) }
{
    let mut draws = Draws::new(seed);
    let mut threads = Vec::new(alloc);
    thread(&mut threads, &mut draws, size)?;
    let second = threads.len();
    thread(&mut threads, &mut draws, size)?;
    let third = threads.len();
    thread(&mut threads, &mut draws, size)?;
    let main = main_code(alloc, second, third)?;
    let file = executable(alloc, main.as_slice(), threads.as_slice())?;
    Ok(file)
}
