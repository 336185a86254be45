// A loop of instructions over a file of a few words.
use crate::Code;
use elf_image::load;
use rv_exec::Regs;
use std::alloc::{AllocError, Global};
use std::test::Fail;

// addi x5, x0, 1; addi x6, x5, 2; ecall
const WORDS: [u32; 3] = [0x0010_0293, 0x0022_8313, 0x73];

// The words at 0x10000, with eight more bytes of memory behind them.
fn file(alloc: Global) -> Result<Vec<u8>, AllocError> {
    let mut bytes = Vec::new(alloc);
    bytes.extend_from_slice(&[0x7f, 0x45, 0x4c, 0x46, 2, 1, 1, 0, 0, 0, 0, 0, 0, 0, 0, 0])?;
    bytes.extend_from_slice(&[2, 0, 243, 0, 1, 0, 0, 0])?;
    for field in [0x1_0000u64, 64, 0] {
        bytes.extend_from_slice(&field.to_le_bytes())?;
    }
    bytes.extend_from_slice(&[0, 0, 0, 0, 64, 0, 56, 0, 1, 0, 64, 0, 0, 0, 0, 0])?;
    bytes.extend_from_slice(&[1, 0, 0, 0, 5, 0, 0, 0])?;
    for field in [120u64, 0x1_0000, 0x1_0000, 12, 20, 4] {
        bytes.extend_from_slice(&field.to_le_bytes())?;
    }
    for word in WORDS {
        bytes.extend_from_slice(&word.to_le_bytes())?;
    }
    Ok(bytes)
}

// It stops before the call, and makes no more than it may.
#[test]
fn stops_before_a_call(rt: HostRuntime) -> Result<(), Fail> {
    let alloc = rt.alloc();
    let bytes = file(alloc)?;
    let image = load(alloc, bytes.as_slice())?;
    let code = Code::new(alloc, &image)?;
    let mut regs = Regs::new(image.entry());
    assert_eq!(rt; code.run_locals(&mut regs, 1), 1);
    assert_eq!(rt; (regs.get(5), regs.get(6), regs.pc()), (1, 0, 0x1_0004));
    assert_eq!(rt; code.run_locals(&mut regs, 9), 1);
    assert_eq!(rt; (regs.get(6), regs.pc()), (3, 0x1_0008));
    assert_eq!(rt; code.run_locals(&mut regs, 9), 0);
    Ok(())
}
