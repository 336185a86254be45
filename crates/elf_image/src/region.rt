// Ranges of memory.
ghost use Rattle.std.specs.Prelude.{◌≡◌, ◌^◌, ◌<◌, ◌≤◌};
ghost use Rattle.elf_image.specs.Regions.{IsBlocks};
ghost use Rattle.elf_image.specs.Regions as regions;

/// A range of addresses, `start` within it and `end` not. Both are multiples of eight.
#[derive(Clone, Copy)]
pub struct Region {
    pub start: u64,
    pub end: u64,
    pub writable: bool,
    pub executable: bool,
}

impl Region {
    pub fn contains(&self, address: u64) -> bool
        ensures { result ≡ regions.contains self.now address }
    {
        self.start <= address && address < self.end
    }

    /// The four bytes from an address on stand in it.
    pub fn has_word(&self, address: u64) -> bool
        ensures { result ≡ regions.has_bytes self.now address 4 }
    {
        self.start <= address && address <= self.end && self.end - address >= 4
    }

    /// How many bytes it takes.
    pub fn size(&self) -> u64
        requires { self.now.start ≤ self.now.end }
        ensures { result ≡ regions.size self.now }
    {
        self.end - self.start
    }

    /// How many granules it has: each is eight aligned bytes of a writable region.
    pub fn granules(&self) -> u32
        requires blocks { IsBlocks self.now }
        requires few { regions.granules_in self.now < 2 ^ 32 }
        ensures { result ≡ regions.granules_in self.now }
    {
        if self.writable {
            (self.size() / 8) as u32
        } else {
            0
        }
    }
}
