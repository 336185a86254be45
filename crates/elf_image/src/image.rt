// Loaded executables.
ghost use Rattle.std.specs.Prelude.{◌≡◌, ◌%◌, ◌^◌, ◌<◌, ◌≤◌, false, length, IfNone, IfSome};
ghost use Rattle.std.specs.List.{list_any};
ghost use Rattle.elf_image.specs.Bytes.{long_of};
ghost use Rattle.std.specs.Option.{option_copied, option_map};
ghost use Rattle.elf_image.specs.File as file;
ghost use Rattle.elf_image.specs.Regions.{IsAt, RisesFrom, contains};
ghost use Rattle.elf_image.specs.Sections as sections;

use crate::header::ProgramHeader;
use crate::memory::{find_region, home_of};
use crate::region::Region;
use crate::section;
use std::marker::Model;

/// An accepted file. Contracts see its bytes. No call takes memory.
#[derive(Drop)]
pub struct Image<'a> {
    pub(crate) bytes: &'a [u8],
    pub(crate) entry: u64,
    // By rising address, the stack among them; the regions are theirs.
    pub(crate) segments: Vec<ProgramHeader>,
    pub(crate) regions: Vec<Region>,
    // The number of each region's first granule, and at the end how many granules there are.
    pub(crate) first_granules: Vec<u32>,
}

impl<'a> Model for Image<'a> {
    ghost use Rattle.std.specs.Prelude.{List, ℕ};
    ghost use Rattle.elf_image.specs.Accepted.{IsAccepted};

    ghost Value = { List ℕ };

    ghost view = { λ i. i.bytes.now };

    ghost invariant = { λ i. IsAccepted i.bytes.now i.entry i.segments.items i.regions.items i.first_granules.items };
}

impl Image<'_> {
    /// What each image is: that of an accepted file.
    pub fn accepted(&self)
        ensures { file.image_of self.now ≡ Ok self.now }
    {
        let _entry = self.entry;
    }

    /// The address of the first instruction.
    pub fn entry(&self) -> u64
        ensures { result ≡ file.entry self.now }
    {
        self.entry
    }

    /// The regions by rising start, the stack region from 0x7fff0000 to 0x80000000 among them.
    pub fn regions(&self) -> &[Region]
        ensures { result.now ≡ file.regions_of self.now }
    {
        self.regions.as_slice()
    }

    /// The number of the region that has an address, in the order of `regions`.
    pub fn region_of(&self, address: u64) -> Option<u32>
        ensures { result ≡ file.region_number self.now address }
    {
        match self.find(address) {
            Some(index) => Some(index as u32),
            None => None,
        }
    }

    /// The instruction at an address, if one can stand there: a multiple of four with its four bytes in one executable
    /// region. It is read from the file, so that no store changes it.
    pub fn fetch(&self, pc: u64) -> Option<u32>
        ensures { result ≡ file.word_at self.now pc }
    {
        match self.find(pc) {
            Some(index) => self.fetch_at(index, pc),
            None => None,
        }
    }

    /// The same as `fetch`, and quicker where the region of this number has the address.
    pub fn fetch_near(&self, region: u32, pc: u64) -> Option<u32>
        ensures { result ≡ file.word_at self.now pc }
    {
        let index = region as usize;
        if index < self.regions.len() && self.regions[index].contains(pc) {
            self.fetch_at(index, pc)
        } else {
            self.fetch(pc)
        }
    }

    /// The address behind the bytes that the file has for the region of this number, in the order of `regions`; what
    /// the region has from there on is zero. Without such a region it is 0.
    pub fn file_end(&self, region: u32) -> u64
        ensures value { result ≡ file.file_end self.now region }
        ensures low { result ≤ 2 ^ 40 }
    {
        let index = region as usize;
        if index >= self.segments.len() {
            return 0;
        }
        let segment = self.segments[index];
        segment.address + segment.file_size
    }

    /// The granule of an address, if it may be written.
    pub fn granule_of(&self, address: u64) -> Option<u32>
        ensures { result ≡ file.granule_of self.now address }
    {
        let index = match self.find(address) {
            Some(index) => index,
            None => return None,
        };
        let region = self.regions[index];
        if region.writable {
            Some(self.first_granules[index] + ((address - region.start) / 8) as u32)
        } else {
            None
        }
    }

    /// How many granules there are: their numbers are those below.
    pub fn granules(&self) -> u32
        ensures { result ≡ file.granules_of self.now }
    {
        self.first_granules[self.regions.len()]
    }

    /// The address of a granule, a multiple of eight.
    pub fn granule_address(&self, granule: u32) -> u64
        requires { granule < file.granules_of self.now }
        ensures { result ≡ file.granule_address self.now granule }
    {
        let index = home_of(
            self.regions.as_slice(),
            self.first_granules.as_slice(),
            granule,
        );
        self.regions[index].start + 8 * (granule - self.first_granules[index]) as u64
    }

    /// The eight bytes that a granule has when the program starts.
    pub fn initial_word(&self, granule: u32) -> u64
        requires { granule < file.granules_of self.now }
        ensures { result ≡ file.initial_word self.now granule }
    {
        let index = home_of(
            self.regions.as_slice(),
            self.first_granules.as_slice(),
            granule,
        );
        self.long_at(index, self.granule_address(granule))
    }

    /// The eight aligned bytes round an address, if it stands in a region that can't be written.
    pub fn constant_word(&self, address: u64) -> Option<u64>
        ensures { result ≡ file.constant_word self.now address }
    {
        let index = match self.find(address) {
            Some(index) => index,
            None => return None,
        };
        if self.regions[index].writable {
            None
        } else {
            Some(self.long_at(index, address / 8 * 8))
        }
    }

    // The number of the region that has an address.
    fn find(&self, address: u64) -> Option<usize>
        ensures ordered { RisesFrom 0 (file.regions_of self.now) }
        ensures few { length (file.regions_of self.now) ≤ 2 ^ 16 }
        ensures found { IfSome result (IsAt (file.regions_of self.now) address) }
        ensures none { IfNone result (list_any (λ r. contains r address) (file.regions_of self.now) ≡ false) }
    {
        find_region(self.regions.as_slice(), address)
    }

    // The instruction at an address of this region.
    fn fetch_at(&self, index: usize, pc: u64) -> Option<u32>
        requires { IsAt (file.regions_of self.now) pc index }
        ensures { result ≡ file.word_at self.now pc }
    {
        if pc % 4 == 0 && self.regions[index].executable {
            Some(self.segments[index].word_of(self.bytes, pc))
        } else {
            None
        }
    }

    // The eight bytes from a multiple of eight on, in this region.
    fn long_at(&self, index: usize, address: u64) -> u64
        requires here { IsAt (file.regions_of self.now) address index }
        requires aligned { address % 8 ≡ 0 }
        ensures { result ≡ long_of (file.byte_at self.now) address }
    {
        self.segments[index].long_of(self.bytes, address)
    }
}

impl<'a> Image<'a> {
    /// The bytes of the first section of this name that lies in the file and isn't compressed. None where there is none
    /// such, or the section table is malformed (System V ABI, "Sections").
    pub fn section(&self, name: &str) -> Option<&'a [u8]>
        ensures { option_copied result ≡ sections.section self.now name.now }
    {
        section::section(self.bytes, name.as_bytes())
    }

    /// The bytes of the first symbol table that lies in the file and isn't compressed, and of the string table that it
    /// is linked to (System V ABI, "Symbol Table"). None where there is none such, its link names no string table that
    /// lies in the file and isn't compressed, or the section table is malformed.
    pub fn symbol_tables(&self) -> Option<(&'a [u8], &'a [u8])>
        ensures { option_map (λ t. (t.0.now, t.1.now)) result ≡ sections.symbol_tables self.now }
    {
        section::symbol_tables(self.bytes)
    }
}
