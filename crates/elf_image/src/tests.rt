// Files made by hand, and what they load as.
use crate::{ElfFault, load};
use std::alloc::{AllocError, Global};
use std::test::Fail;

// Two threads that each announce a write of eight bytes at 0x1000000.
const CODE: [u32; 26] = [
    0x0001_0537,
    0x03c5_0513,
    0x0030_0893,
    0x0000_0073,
    0x0100_0537,
    0x0005_0513,
    0x0000_0593,
    0x0000_0613,
    0x0000_0693,
    0x0000_0713,
    0x0040_00ef,
    0x0180_0893,
    0x0000_0073,
    0x0040_0893,
    0x0000_0073,
    0x0100_0537,
    0x0005_0513,
    0x0000_0593,
    0x0000_0613,
    0x0000_0693,
    0x0000_0713,
    0x0040_00ef,
    0x0180_0893,
    0x0000_0073,
    0x0040_0893,
    0x0000_0073,
];

fn put_halves(bytes: &mut Vec<u8>, values: &[u16]) -> Result<(), AllocError> {
    for value in values {
        bytes.extend_from_slice(&value.to_le_bytes())?;
    }
    Ok(())
}

fn put_words(bytes: &mut Vec<u8>, values: &[u32]) -> Result<(), AllocError> {
    for value in values {
        bytes.extend_from_slice(&value.to_le_bytes())?;
    }
    Ok(())
}

fn put_longs(bytes: &mut Vec<u8>, values: &[u64]) -> Result<(), AllocError> {
    for value in values {
        bytes.extend_from_slice(&value.to_le_bytes())?;
    }
    Ok(())
}

fn put_header(bytes: &mut Vec<u8>, entry: u64, count: u16) -> Result<(), AllocError> {
    bytes.extend_from_slice(&[0x7f, 0x45, 0x4c, 0x46, 2, 1, 1, 0, 0, 0, 0, 0, 0, 0, 0, 0])?;
    put_halves(bytes, &[2, 243])?;
    put_words(bytes, &[1])?;
    put_longs(bytes, &[entry, 64, 0])?;
    put_words(bytes, &[0])?;
    put_halves(bytes, &[64, 56, count, 64, 0, 0])
}

// A segment's flags, and its offset, address, size in the file and size in memory.
fn put_segment(bytes: &mut Vec<u8>, flags: u32, fields: [u64; 4]) -> Result<(), AllocError> {
    let [offset, address, file_size, memory_size] = fields;
    put_words(bytes, &[1, flags])?;
    put_longs(
        bytes,
        &[offset, address, address, file_size, memory_size, 8],
    )
}

fn example(alloc: Global, data: u64) -> Result<Vec<u8>, AllocError> {
    let mut bytes = Vec::new(alloc);
    put_header(&mut bytes, 0x1_0000, 2)?;
    put_segment(&mut bytes, 5, [176, 0x1_0000, 104, 104])?;
    put_segment(&mut bytes, 6, [280, 0x100_0000, 0, data])?;
    put_words(&mut bytes, &CODE)?;
    Ok(bytes)
}

#[test]
fn loads_the_example(rt: HostRuntime) -> Result<(), Fail> {
    let bytes = example(rt.alloc(), 2048)?;
    let image = load(rt.alloc(), bytes.as_slice())?;
    assert_eq!(rt; (bytes.len(), image.entry()), (280, 0x1_0000));
    assert_eq!(rt; image.regions().len(), 3);
    assert!(rt; image.granules() == 8448);
    assert_eq!(rt;
        (image.granule_address(256), image.initial_word(8447)),
        (0x7fff_0000, 0)
    );

    // An address, its region and its granule.
    let places = [
        (0x1_0000, Some(0), None),
        (0x100_000f, Some(1), Some(1)),
        (0x100_0800, None, None),
        (0x7fff_0000, Some(2), Some(256)),
    ];
    for (address, region, granule) in places {
        let place = (image.region_of(address), image.granule_of(address));
        assert_eq!(rt; place, (region, granule), "at {address}");
    }

    let fetched = [
        (0x1_0000, Some(0x0001_0537)),
        (0x1_0064, Some(0x73)),
        (0x1_0068, None),
        (0x1_0002, None),
        (0x100_0000, None),
    ];
    for (address, word) in fetched {
        let words = (image.fetch(address), image.fetch_near(0, address));
        assert_eq!(rt; words, (word, word), "at {address}");
    }
    Ok(())
}

#[test]
fn widens_segments(rt: HostRuntime) -> Result<(), Fail> {
    let mut bytes = Vec::new(rt.alloc());
    put_header(&mut bytes, 0x1_0000, 2)?;
    put_segment(&mut bytes, 6, [176, 0x2_0006, 3, 5])?;
    put_segment(&mut bytes, 5, [176, 0x1_0000, 4, 4])?;
    put_words(&mut bytes, &[0x4433_2211])?;
    let image = load(rt.alloc(), bytes.as_slice())?;
    assert!(rt; image.granules() > 1);
    let words = (image.initial_word(0), image.initial_word(1));
    assert_eq!(rt; words, (0x2211_0000_0000_0000, 0x33));
    let ends = (image.granule_of(0x2_000f), image.granule_of(0x2_0010));
    assert_eq!(rt; ends, (Some(1), None));
    let constant = (image.constant_word(0x1_0007), image.constant_word(0x2_0000));
    assert_eq!(rt; constant, (Some(0x4433_2211), None));
    assert_eq!(rt; image.fetch(0x1_0004), Some(0));
    Ok(())
}

#[test]
fn names_faults(rt: HostRuntime) -> Result<(), Fail> {
    let changes = [
        (0, 0x7e, Some(ElfFault::NotElf)),
        (4, 1, Some(ElfFault::NotLittle64)),
        (5, 2, Some(ElfFault::NotLittle64)),
        (16, 3, Some(ElfFault::NotExecutable)),
        (18, 62, Some(ElfFault::NotRiscv)),
        (48, 1, Some(ElfFault::Compressed)),
        (48, 4, None),
        (54, 55, Some(ElfFault::BadTable)),
        (56, 0, Some(ElfFault::NoSegments)),
        (72, 177, Some(ElfFault::SegmentOutside)),
        (104, 103, Some(ElfFault::SegmentSizes)),
        (141, 1, Some(ElfFault::SegmentSizes)),
        (107, 1, Some(ElfFault::Overlap)),
        (162, 65, Some(ElfFault::TooMuchMemory)),
        (24, 2, Some(ElfFault::EntryOutside)),
        (24, 104, Some(ElfFault::EntryOutside)),
    ];
    for (offset, value, fault) in changes {
        let mut bytes = example(rt.alloc(), 2048)?;
        if let Some(byte) = bytes.get_mut(offset) {
            *byte = value;
        }
        assert_eq!(rt;
            load(rt.alloc(), bytes.as_slice()).err(),
            fault,
            "at {offset}"
        );
    }
    Ok(())
}

#[test]
fn names_limits(rt: HostRuntime) -> Result<(), Fail> {
    let cuts = [
        (0, Some(ElfFault::NotElf)),
        (63, Some(ElfFault::NotElf)),
        (175, Some(ElfFault::BadTable)),
        (279, Some(ElfFault::SegmentOutside)),
        (280, None),
    ];
    for (len, fault) in cuts {
        let mut bytes = example(rt.alloc(), 4_194_304)?;
        bytes.truncate(len);
        assert_eq!(rt; load(rt.alloc(), bytes.as_slice()).err(), fault, "at {len}");
    }
    let bytes = example(rt.alloc(), 4_194_312)?;
    let fault = load(rt.alloc(), bytes.as_slice()).err();
    assert_eq!(rt; fault, Some(ElfFault::TooMuchMemory));
    Ok(())
}

#[test]
fn takes_many_headers(rt: HostRuntime) -> Result<(), Fail> {
    let mut bytes = Vec::new(rt.alloc());
    put_header(&mut bytes, 16, 65_535)?;
    for index in 0..65_535u64 {
        put_segment(&mut bytes, 7, [0, 16 * (65_535 - index), 8, 8])?;
    }
    let image = load(rt.alloc(), bytes.as_slice())?;
    assert_eq!(rt; image.granules(), 65_535 + 8192);
    assert_eq!(rt; image.region_of(32), Some(1));
    assert_eq!(rt; image.granule_of(16 * 65_535), Some(65_534));
    assert_eq!(rt; image.fetch(16), Some(0x464c_457f));
    let mut mostly_empty = Vec::new(rt.alloc());
    put_header(&mut mostly_empty, 16, 65_535)?;
    for index in 0..65_535u64 {
        put_segment(
            &mut mostly_empty,
            5,
            [0, 16, 0, if index == 60_000 { 8 } else { 0 }],
        )?;
    }
    let image = load(rt.alloc(), mostly_empty.as_slice())?;
    assert_eq!(rt; image.regions().len(), 2);
    Ok(())
}

// Section headers: names, types, flags, offsets, sizes and links, and their bytes.
const NAMES: &[u8] = b"\0.text\0.symtab\0.strtab\0.names\0.tex";

fn put_section(
    bytes: &mut Vec<u8>,
    words: [u32; 2],
    fields: [u64; 3],
    link: u32,
) -> Result<(), AllocError> {
    let [flags, offset, size] = fields;
    put_words(bytes, &words)?;
    put_longs(bytes, &[flags, 0, offset, size])?;
    put_words(bytes, &[link, 0])?;
    put_longs(bytes, &[1, 0])
}

// The example with six sections behind it; the names stand at 280 and the headers at 320.
fn sectioned(alloc: Global) -> Result<Vec<u8>, AllocError> {
    let mut bytes = example(alloc, 2048)?;
    bytes.extend_from_slice(NAMES)?;
    bytes.extend_from_slice(&[0; 6])?;
    put_section(&mut bytes, [0, 0], [0, 0, 0], 0)?;
    put_section(&mut bytes, [1, 1], [0x800, 176, 4], 0)?;
    put_section(&mut bytes, [1, 1], [6, 180, 8], 0)?;
    put_section(&mut bytes, [7, 2], [0, 184, 24], 4)?;
    put_section(&mut bytes, [15, 3], [0, 208, 5], 0)?;
    put_section(&mut bytes, [23, 3], [0, 280, 35], 0)?;
    for (at, value) in [(40, 64), (41, 1), (58, 64), (60, 6), (62, 5)] {
        if let Some(byte) = bytes.get_mut(at) {
            *byte = value;
        }
    }
    Ok(bytes)
}

#[test]
fn finds_sections(rt: HostRuntime) -> Result<(), Fail> {
    let bytes = sectioned(rt.alloc())?;
    let image = load(rt.alloc(), bytes.as_slice())?;
    // The first of its name is compressed. A part of a name is none.
    assert_eq!(rt; image.section(".text"), bytes.get(180..188));
    assert_eq!(rt; image.section(".tex"), None);
    assert_eq!(rt; image.section(""), bytes.get(0..0));
    let tables = image.symbol_tables().ok_or("no symbols")?;
    assert_eq!(rt; Some(tables.0), bytes.get(184..208));
    assert_eq!(rt; Some(tables.1), bytes.get(208..213));

    // Where a byte is changed: the section table is malformed, or the symbols' link is no string table.
    let changes = [
        (58, 63, false, false),
        (60, 5, false, false),
        (62, 6, false, false),
        (41, 2, false, false),
        (320 + 64 * 2 + 33, 3, false, true),
        (320 + 64 * 3 + 40, 2, true, false),
        (320 + 64 * 3 + 40, 6, true, false),
        (320 + 64 * 3 + 9, 8, true, false),
        (320 + 64 * 5 + 9, 8, false, true),
    ];
    for (offset, value, has_text, has_symbols) in changes {
        let mut bytes = sectioned(rt.alloc())?;
        if let Some(byte) = bytes.get_mut(offset) {
            *byte = value;
        }
        let image = load(rt.alloc(), bytes.as_slice())?;
        let found = (
            image.section(".text").is_some(),
            image.symbol_tables().is_some(),
        );
        assert_eq!(rt; found, (has_text, has_symbols), "at {offset}");
    }
    Ok(())
}
