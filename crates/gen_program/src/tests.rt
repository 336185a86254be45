// The draws of a seed, and the files of a few, with words encoded by hand.
use crate::draws::Draws;
use crate::make;
use elf_image::load;
use std::alloc::{AllocError, Global};
use std::test::Fail;

/// The headers of a file of 400 bytes, as words.
static HEADERS: [u32; 44] = [
    // e_ident
    0x464c_457f,
    0x0001_0102,
    0x0,
    0x0,
    // e_type, e_machine, e_version
    0x00f3_0002,
    0x1,
    // e_entry, e_phoff, e_shoff
    0x0001_0000,
    0x0,
    0x40,
    0x0,
    0x0,
    0x0,
    // e_flags; sizes and counts of headers
    0x0,
    0x0038_0040,
    0x2,
    0x0,
    // The code: 224 bytes at 176, which are to be read and executed at 0x10000.
    0x1,
    0x5,
    0xb0,
    0x0,
    0x0001_0000,
    0x0,
    0x0001_0000,
    0x0,
    0xe0,
    0x0,
    0xe0,
    0x0,
    0x8,
    0x0,
    // The data: 2,048 bytes to be read and written at 0x1000000, none of which the file has.
    0x1,
    0x6,
    0x190,
    0x0,
    0x0100_0000,
    0x0,
    0x0100_0000,
    0x0,
    0x0,
    0x0,
    0x800,
    0x0,
    0x8,
    0x0,
];

/// The code of seed 1 and size 1.
static SEED_ONE: [u32; 56] = [
    // Main makes threads at 0x10038, 0x10088 and 0x100b4: lui x10; addi x10, x10; addi x17, x0, 3; ecall.
    0x0001_0537,
    0x0385_0513,
    0x0030_0893,
    0x73,
    0x0001_0537,
    0x0885_0513,
    0x0030_0893,
    0x73,
    0x0001_0537,
    0x0b45_0513,
    0x0030_0893,
    0x73,
    // It ends: addi x17, x0, 4; ecall.
    0x0040_0893,
    0x73,
    // The first thread enters a function at offset 496, leaves it, and ends.
    0x0100_0537,
    0x1f05_0513,
    0x593,
    0x613,
    0x693,
    0x713,
    0x0040_00ef,
    0x0240_0893,
    0x73,
    0x0100_0537,
    0x0005_0513,
    0x593,
    0x613,
    0x693,
    0x713,
    0x0040_00ef,
    0x0250_0893,
    0x73,
    0x0040_0893,
    0x73,
    // The second reads at offset 344.
    0x0100_0537,
    0x1585_0513,
    0x593,
    0x613,
    0x693,
    0x713,
    0x0040_00ef,
    0x0130_0893,
    0x73,
    0x0040_0893,
    0x73,
    // The third reads at offset 472.
    0x0100_0537,
    0x1d85_0513,
    0x593,
    0x613,
    0x693,
    0x713,
    0x0040_00ef,
    0x0130_0893,
    0x73,
    0x0040_0893,
    0x73,
];

/// The code of the threads of seed 2 and size 1.
static SEED_TWO: [u32; 51] = [
    // The first thread writes at offset 264.
    0x0100_0537,
    0x1085_0513,
    0x593,
    0x613,
    0x693,
    0x713,
    0x0040_00ef,
    0x0180_0893,
    0x73,
    0x0040_0893,
    0x73,
    // The second takes the mutex at offset 2040, writes at offset 400, and gives it back.
    0x0100_0537,
    0x7f85_0513,
    0x593,
    0x613,
    0x693,
    0x713,
    0x0040_00ef,
    0x02c0_0893,
    0x73,
    0x0100_0537,
    0x1905_0513,
    0x593,
    0x613,
    0x693,
    0x713,
    0x0040_00ef,
    0x0180_0893,
    0x73,
    0x0100_0537,
    0x7f85_0513,
    0x593,
    0x613,
    0x693,
    0x713,
    0x0040_00ef,
    0x02d0_0893,
    0x73,
    0x0040_0893,
    0x73,
    // The third adds 1 at offset 1024 + 184 with order 4.
    0x0100_0537,
    0x4b85_0513,
    0x0010_0593,
    0x0040_0613,
    0x693,
    0x713,
    0x0040_00ef,
    0x0730_0893,
    0x73,
    0x0040_0893,
    0x73,
];

fn bytes_of(alloc: Global, words: &[u32]) -> Result<Vec<u8>, AllocError> {
    let mut bytes = Vec::new(alloc);
    for word in words {
        bytes.extend_from_slice(&word.to_le_bytes())?;
    }
    Ok(bytes)
}

#[test]
fn draws_of_seed_one(rt: HostRuntime) {
    let mut draws = Draws::new(1);
    for expected in [16838, 5758, 10113, 17515, 31051, 5627] {
        assert_eq!(rt; draws.draw(), expected);
    }
}

#[test]
fn seeds_count_modulo_two_to_31(rt: HostRuntime) -> Result<(), Fail> {
    let one = make(rt.alloc(), 1, 4)?;
    let other = make(rt.alloc(), 0x8000_0001, 4)?;
    assert_eq!(rt; one.as_slice(), other.as_slice());
    Ok(())
}

#[test]
fn seed_one_size_one(rt: HostRuntime) -> Result<(), Fail> {
    let file = make(rt.alloc(), 1, 1)?;
    let mut expected = bytes_of(rt.alloc(), &HEADERS)?;
    let code = bytes_of(rt.alloc(), &SEED_ONE)?;
    expected.extend_from_slice(code.as_slice())?;
    assert_eq!(rt; (file.len(), file.as_slice()), (400, expected.as_slice()));
    Ok(())
}

#[test]
fn seed_two_size_one(rt: HostRuntime) -> Result<(), Fail> {
    let file = make(rt.alloc(), 2, 1)?;
    let expected = bytes_of(rt.alloc(), &SEED_TWO)?;
    assert_eq!(rt; file.get(232..), Some(expected.as_slice()));
    Ok(())
}

#[test]
fn no_operations(rt: HostRuntime) -> Result<(), Fail> {
    let file = make(rt.alloc(), 7, 0)?;
    assert_eq!(rt; file.len(), 256);
    Ok(())
}

#[test]
fn many_operations(rt: HostRuntime) -> Result<(), Fail> {
    let file = make(rt.alloc(), 1, 10_000)?;
    let image = load(rt.alloc(), file.as_slice())?;
    assert_eq!(rt; image.entry(), 0x1_0000);
    assert_eq!(rt; image.granules(), 8448);
    assert_eq!(rt; image.fetch(0x1_0034), Some(0x73));
    Ok(())
}
