// Program headers.
ghost use Rattle.std.specs.Prelude.{◌≡◌, ◌+◌, ◌*◌, ◌^◌, ◌<◌, ◌≤◌, length, vec_len, IfOk};
ghost use Rattle.elf_image.specs.Bytes.{word_of, long_of};
ghost use Rattle.elf_image.specs.File as file;
ghost use Rattle.elf_image.specs.File.{HasTable};
ghost use Rattle.elf_image.specs.Headers.{IsSound};
ghost use Rattle.elf_image.specs.Headers as headers;

use crate::bytes::{u16_at, u32_at, u64_at};
use crate::region::Region;
use std::alloc::{AllocError, Global};

/// The segment that a program header describes.
#[derive(Clone, Copy)]
pub struct ProgramHeader {
    /// `p_type`
    pub kind: u32,
    /// `p_flags`
    pub flags: u32,
    /// `p_offset`, in the file
    pub offset: u64,
    /// `p_vaddr`
    pub address: u64,
    /// `p_filesz`, in bytes
    pub file_size: u64,
    /// `p_memsz`, in bytes
    pub memory_size: u64,
}

const PT_LOAD: u32 = 1;

const PF_X: u32 = 1;

const PF_W: u32 = 2;

impl ProgramHeader {
    /// A PT_LOAD header whose segment takes memory.
    pub fn takes_memory(&self) -> bool
        ensures { result ≡ headers.takes_memory self.now }
    {
        self.kind == PT_LOAD && self.memory_size > 0
    }

    pub fn is_writable(&self) -> bool
        ensures { result ≡ headers.is_writable self.now }
    {
        self.flags & PF_W != 0
    }

    pub fn is_executable(&self) -> bool
        ensures { result ≡ headers.is_executable self.now }
    {
        self.flags & PF_X != 0
    }

    /// The segment's bytes don't lie in a file of this length.
    pub fn is_outside(&self, len: usize) -> bool
        ensures { result ≡ headers.is_outside len self.now }
    {
        self.file_size > 0 && self.offset as u128 + self.file_size as u128 > len as u128
    }

    /// More bytes in the file than in memory, or memory above 2^40.
    pub fn has_bad_sizes(&self) -> bool
        ensures { result ≡ headers.has_bad_sizes self.now }
    {
        self.file_size > self.memory_size
            || self.address as u128 + self.memory_size as u128 > 0x100_0000_0000
    }

    /// The segment's addresses, widened to multiples of eight.
    #[tactic(auto, unfolding(crate::specs::Headers::region))]
    pub fn region(&self) -> Region
        requires { self.now.address + self.now.memory_size ≤ 2 ^ 40 }
        ensures { result ≡ headers.region self.now }
    {
        Region {
            start: self.address / 8 * 8,
            end: (self.address + self.memory_size + 7) / 8 * 8,
            writable: self.is_writable(),
            executable: self.is_executable(),
        }
    }

    /// The segment's byte at an address of its region: the file's where it has one, and else zero.
    #[tactic(auto, unfolding(crate::specs::Headers::byte_of))]
    pub fn byte_of(&self, file: &[u8], address: u64) -> u8
        requires { IsSound (length file.now) self.now }
        ensures { result ≡ headers.byte_of file.now self.now address }
    {
        if self.address <= address && address < self.address + self.file_size {
            file[(self.offset + (address - self.address)) as usize]
        } else {
            0
        }
    }
}

impl ProgramHeader {
    /// The number of the four bytes from an address on, in the segment's region.
    #[tactic(auto, unfolding(crate::specs::Headers::byte_of, crate::specs::Bytes::word_of))]
    pub fn word_of(&self, file: &[u8], address: u64) -> u32
        requires sound { IsSound (length file.now) self.now }
        requires low { address < 2 ^ 41 }
        ensures { result ≡ word_of (headers.byte_of file.now self.now) address }
    {
        if self.address <= address && address + 4 <= self.address + self.file_size {
            return u32_at(file, (self.offset + (address - self.address)) as usize);
        }
        let low = self.byte_of(file, address) as u32
            + self.byte_of(file, address + 1) as u32 * 0x100;
        let high = self.byte_of(file, address + 2) as u32
            + self.byte_of(file, address + 3) as u32 * 0x100;
        low + high * 0x1_0000
    }

    /// The number of the eight bytes from an address on, in the segment's region.
    #[tactic(auto, unfolding(crate::specs::Bytes::long_of))]
    pub fn long_of(&self, file: &[u8], address: u64) -> u64
        requires sound { IsSound (length file.now) self.now }
        requires low { address < 2 ^ 40 }
        ensures { result ≡ long_of (headers.byte_of file.now self.now) address }
    {
        self.word_of(file, address) as u64 + self.word_of(file, address + 4) as u64 * 0x1_0000_0000
    }
}

/// The stack, as a segment without bytes in the file.
pub fn stack() -> ProgramHeader
    ensures { result ≡ headers.stack }
{
    ProgramHeader {
        kind: PT_LOAD,
        flags: PF_W | 4,
        offset: 0,
        address: 0x7fff_0000,
        file_size: 0,
        memory_size: 0x1_0000,
    }
}

#[tactic(auto, unfolding(crate::specs::Headers::header_at))]
fn header_at(bytes: &[u8], at: usize) -> ProgramHeader
    requires { at + 56 ≤ length bytes.now }
    ensures { result ≡ headers.header_at bytes.now at }
{
    ProgramHeader {
        kind: u32_at(bytes, at),
        flags: u32_at(bytes, at + 4),
        offset: u64_at(bytes, at + 8),
        address: u64_at(bytes, at + 16),
        file_size: u64_at(bytes, at + 32),
        memory_size: u64_at(bytes, at + 40),
    }
}

/// The headers of the segments that take memory, in the file's order.
pub fn read_segments(alloc: Global, bytes: &[u8]) -> Result<Vec<ProgramHeader>, AllocError>
    requires { HasTable bytes.now }
    ensures items { IfOk result (λ v. v.items ≡ file.segments bytes.now) }
    ensures few { IfOk result (λ v. vec_len v < 2 ^ 16) }
{
    let table = u64_at(bytes, 32);
    let count = u16_at(bytes, 56);
    let mut segments = Vec::new(alloc);
    for index in 0..count {
        let header = header_at(bytes, table as usize + 56 * index as usize);
        if header.takes_memory() {
            segments.push(header)?;
        }
    }
    Ok(segments)
}
