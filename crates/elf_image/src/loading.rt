// Loading: the faults of a file, and what is kept of one that has none.
ghost use Rattle.std.specs.Prelude.{◌≡◌, ◌⊎◌, ◌==◌, ◌&&◌, ◌%◌, ◌^◌, ◌<◌, ◌≤◌, length, All, OnOk, IfOk, IfErr, IfNone};
ghost use Rattle.std.specs.Bool.{OnFalse};
ghost use Rattle.std.specs.List.{list_any};
ghost use Rattle.elf_image.specs.Headers.{is_outside, has_bad_sizes, IsLow};
ghost use Rattle.elf_image.specs.Regions.{is_code_in};
ghost use Rattle.elf_image.specs.Accepted.{IsReady};
ghost use Rattle.elf_image.specs.File as file;
ghost use Rattle.elf_image.specs.File.{HasTable};

use crate::bytes::{u16_at, u32_at, u64_at};
use crate::header::{ProgramHeader, read_segments};
use crate::memory::{first_granules, has_touched, in_order, regions_of};
use crate::region::Region;
use crate::{ElfFault, Image};
use std::alloc::Global;

const MAGIC: u32 = 0x464c_457f;

const EM_RISCV: u16 = 243;

const EF_RISCV_RVC: u32 = 1;

const HEADER_SIZE: u16 = 56;

const WRITABLE_LIMIT: u64 = 4_194_304;

const OTHER_LIMIT: u64 = 16_777_216;

/// The first fault of the ELF header and its table of program headers.
#[tactic(auto, unfolding(crate::specs::File::header_fault))]
fn header_fault(bytes: &[u8]) -> Option<ElfFault>
    ensures value { result ≡ file.header_fault bytes.now }
    ensures table { IfNone result (HasTable bytes.now) }
{
    if bytes.len() < 64 || u32_at(bytes, 0) != MAGIC {
        return Some(ElfFault::NotElf);
    }
    if !(bytes[4] == 2 && bytes[5] == 1) {
        return Some(ElfFault::NotLittle64);
    }
    if u16_at(bytes, 16) != 2 {
        return Some(ElfFault::NotExecutable);
    }
    if u16_at(bytes, 18) != EM_RISCV {
        return Some(ElfFault::NotRiscv);
    }
    if u32_at(bytes, 48) & EF_RISCV_RVC != 0 {
        return Some(ElfFault::Compressed);
    }
    if has_bad_table(bytes) {
        return Some(ElfFault::BadTable);
    }
    None
}

/// Program headers whose size isn't 56, or that reach past the file.
#[tactic(auto, unfolding(crate::specs::File::has_bad_table))]
fn has_bad_table(bytes: &[u8]) -> bool
    requires { 64 ≤ length bytes.now }
    ensures value { result ≡ file.has_bad_table bytes.now }
    ensures table { OnFalse result (HasTable bytes.now) }
{
    let count = u16_at(bytes, 56);
    let end = u64_at(bytes, 32) as u128 + 56 * count as u128;
    count != 0 && (u16_at(bytes, 54) != HEADER_SIZE || end > bytes.len() as u128)
}

fn reach_outside(len: usize, segments: &[ProgramHeader]) -> bool
    ensures { result ≡ list_any (is_outside len) segments.now }
{
    segments.iter().any(|segment| segment.is_outside(len))
}

fn have_bad_sizes(segments: &[ProgramHeader]) -> bool
    ensures { result ≡ list_any has_bad_sizes segments.now }
{
    segments.iter().any(|segment| segment.has_bad_sizes())
}

/// The first fault of the segments one by one.
#[tactic(auto, unfolding(crate::specs::File::segment_fault))]
fn segment_fault(len: usize, segments: &[ProgramHeader]) -> Option<ElfFault>
    ensures value { result ≡ file.segment_fault len segments.now }
{
    if segments.is_empty() {
        return Some(ElfFault::NoSegments);
    }
    if reach_outside(len, segments) {
        return Some(ElfFault::SegmentOutside);
    }
    if have_bad_sizes(segments) {
        return Some(ElfFault::SegmentSizes);
    }
    None
}

/// The widened sizes pass a limit. The stack isn't counted.
#[tactic(auto, unfolding(crate::specs::Headers::region))]
fn needs_too_much(segments: &[ProgramHeader]) -> bool
    requires low { All IsLow segments.now }
    requires few { length segments.now < 2 ^ 16 }
    ensures { result ≡ file.needs_too_much segments.now }
{
    let mut writable = 0;
    let mut other = 0;
    for segment in segments {
        let region = segment.region();
        if region.writable {
            writable += region.size();
        } else {
            other += region.size();
        }
    }
    writable > WRITABLE_LIMIT || other > OTHER_LIMIT
}

/// An instruction can stand there: a multiple of 4 with its four bytes in one executable region.
fn is_code(regions: &[Region], address: u64) -> bool
    ensures { result ≡ (address % 4 == 0 && is_code_in regions.now address) }
{
    address % 4 == 0 && has_code(regions, address)
}

fn has_code(regions: &[Region], address: u64) -> bool
    ensures { result ≡ is_code_in regions.now address }
{
    regions
        .iter()
        .any(|region| region.executable && region.has_word(address))
}

/// The image of a file whose segments have no fault one by one.
fn lay_out<'a>(
    alloc: Global,
    bytes: &'a [u8],
    segments: Vec<ProgramHeader>,
) -> Result<Image<'a>, ElfFault>
    requires { IsReady bytes.now segments.items }
    ensures image { IfOk result (λ image. image ≡ bytes.now) }
    ensures accepted { OnOk result (file.image_of bytes.now ≡ Ok bytes.now) }
    ensures refused { IfErr result (λ fault. (fault ≡ ElfFault.NoMemory) ⊎ (file.image_of bytes.now ≡ Err fault)) }
{
    let too_much = needs_too_much(segments.as_slice());
    let segments = in_order(segments)?;
    let regions = regions_of(alloc, segments.as_slice())?;
    if has_touched(regions.as_slice()) {
        return Err(ElfFault::Overlap);
    }
    if too_much {
        return Err(ElfFault::TooMuchMemory);
    }
    let entry = u64_at(bytes, 24);
    if !is_code(regions.as_slice(), entry) {
        return Err(ElfFault::EntryOutside);
    }
    let first_granules = first_granules(alloc, regions.as_slice())?;
    Ok(Image {
        bytes,
        entry,
        segments,
        regions,
        first_granules,
    })
}

/// The executable that a file holds, or its first fault. It takes memory for each segment.
pub fn load(alloc: Global, bytes: &[u8]) -> Result<Image<'_>, ElfFault>
    ensures image { IfOk result (λ image. image ≡ bytes.now) }
    ensures accepted { OnOk result (file.image_of bytes.now ≡ Ok bytes.now) }
    ensures refused { IfErr result (λ fault. (fault ≡ ElfFault.NoMemory) ⊎ (file.image_of bytes.now ≡ Err fault)) }
{
    if let Some(fault) = header_fault(bytes) {
        return Err(fault);
    }
    let segments = read_segments(alloc, bytes)?;
    if let Some(fault) = segment_fault(bytes.len(), segments.as_slice()) {
        return Err(fault);
    }
    lay_out(alloc, bytes, segments)
}
