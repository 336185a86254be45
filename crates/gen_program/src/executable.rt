// Executables: an ELF header, two program headers, and the code.
ghost use Rattle.std.specs.Prelude.{◌≡◌, ◌++◌, ◌+◌, ◌*◌, ◌<◌, ◌≤◌, ◌^◌, OnOk, IfOk, length};
ghost use Rattle.std.specs.List.{flat_map};
ghost use Rattle.gen_program.specs.Executable as executable;

use std::alloc::{AllocError, Global};

/// Where the code stands in memory, and how many bytes of the file stand before it.
pub const CODE_ADDRESS: u32 = 0x1_0000;

const HEADERS_SIZE: u32 = 176;

const DATA_ADDRESS: u64 = 0x100_0000;

/// How many bytes of data the program has.
const DATA_SIZE: u64 = 2048;

const ET_EXEC: u16 = 2;

const EM_RISCV: u16 = 243;

/// Flags of a segment that may be read and executed, and of one that may be read and written.
const CODE_FLAGS: u32 = 5;

const DATA_FLAGS: u32 = 6;

fn put_halves(file: &mut Vec<u8>, numbers: &[u16]) -> Result<(), AllocError>
    ensures { OnOk result (file.new.items ≡ file.old.items ++ flat_map executable.half numbers.now) }
{
    for number in numbers {
        file.extend_from_slice(&number.to_le_bytes())?;
    }
    Ok(())
}

fn put_words(file: &mut Vec<u8>, numbers: &[u32]) -> Result<(), AllocError>
    ensures { OnOk result (file.new.items ≡ file.old.items ++ flat_map executable.word numbers.now) }
{
    for number in numbers {
        file.extend_from_slice(&number.to_le_bytes())?;
    }
    Ok(())
}

fn put_longs(file: &mut Vec<u8>, numbers: &[u64]) -> Result<(), AllocError>
    ensures { OnOk result (file.new.items ≡ file.old.items ++ flat_map executable.long numbers.now) }
{
    for number in numbers {
        file.extend_from_slice(&number.to_le_bytes())?;
    }
    Ok(())
}

fn put_elf_header(file: &mut Vec<u8>) -> Result<(), AllocError>
    ensures { OnOk result (file.new.items ≡ file.old.items ++ executable.elf_header) }
{
    file.extend_from_slice(&[0x7f, 0x45, 0x4c, 0x46, 2, 1, 1, 0, 0, 0, 0, 0, 0, 0, 0, 0])?;
    put_halves(file, &[ET_EXEC, EM_RISCV])?;
    put_words(file, &[1])?;
    put_longs(file, &[CODE_ADDRESS as u64, 64, 0])?;
    put_words(file, &[0])?;
    put_halves(file, &[64, 56, 2, 0, 0, 0])
}

/// The header of a segment at an offset of the file and at an address, with its sizes in the file
/// and in memory.
fn put_program_header(
    file: &mut Vec<u8>,
    flags: u32,
    offset: u32,
    address: u64,
    sizes: (u64, u64),
) -> Result<(), AllocError>
    ensures { OnOk result (file.new.items ≡ file.old.items ++ executable.program_header flags offset address sizes.0 sizes.1) }
{
    put_words(file, &[1, flags])?;
    put_longs(
        file,
        &[offset as u64, address, address, sizes.0, sizes.1, 8],
    )
}

#[tactic(auto, unfolding(crate::specs::Executable::headers))]
fn put_headers(file: &mut Vec<u8>, size: u32) -> Result<(), AllocError>
    requires { size < 2 ^ 31 }
    ensures { OnOk result (file.new.items ≡ file.old.items ++ executable.headers size) }
{
    let code = (size as u64, size as u64);
    put_elf_header(file)?;
    put_program_header(file, CODE_FLAGS, HEADERS_SIZE, CODE_ADDRESS as u64, code)?;
    put_program_header(
        file,
        DATA_FLAGS,
        HEADERS_SIZE + size,
        DATA_ADDRESS,
        (0, DATA_SIZE),
    )
}

/// The executable of code in two parts, which begins with its first word.
#[tactic(auto, unfolding(crate::specs::Executable::executable))]
pub fn executable(alloc: Global, first: &[u32], rest: &[u32]) -> Result<Vec<u8>, AllocError>
    requires { length first.now + length rest.now < 2 ^ 29 }
    ensures { IfOk result (λ file. file.items ≡ executable.executable (first.now ++ rest.now)) }
{
    let size = 4 * (first.len() + rest.len());
    let mut file = Vec::with_capacity(alloc, HEADERS_SIZE as usize + size)?;
    put_headers(&mut file, size as u32)?;
    put_words(&mut file, first)?;
    put_words(&mut file, rest)?;
    Ok(file)
}
