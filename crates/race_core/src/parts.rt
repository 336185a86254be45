// The parts of an access.
ghost use Rattle.std.specs.Prelude.{◌≡◌, ◌≢◌, ◌+◌, ◌-◌, ◌*◌, ◌/◌, ◌^◌, ◌<◌, ◌≤◌, ◌==◌, ℕ, Bool, Some, min, IsSome};
ghost use Rattle.run_laws.specs.Accesses as accesses;
ghost use Rattle.race_core.specs.Walk.{access, planned};

use elf_image::Image;

/// The parts of an access that are left, by rising granule: each granule, which is eight aligned
/// bytes of writable memory, with the mask of the access's bytes there. Bit i of a mask is the
/// granule's byte i.
#[derive(Drop)]
pub struct Parts<'a, 'b> {
    image: &'a Image<'b>,
    addr: u64,
    size: u32,
    // The next block of eight bytes, and the one behind the last.
    next: u64,
    end: u64,
    ghost blocks: { end ≤ 2 ^ 61 },
}

impl<'a, 'b> Parts<'a, 'b> {
    ghost use Rattle.race_core.specs.Parts.{left_of};

    /// All parts of the access of `size` bytes at `addr`.
    pub(crate) fn all(image: &'a Image<'b>, addr: u64, size: u32) -> Parts<'a, 'b>
        ensures { (place : ℕ) (read atomic : Bool) → left_of result ≡ planned image.now (access place addr size read atomic) }
    {
        let end = (u128::from(addr) + u128::from(size)).min(1 << 64);
        Parts {
            image,
            addr,
            size,
            next: addr / 8,
            end: ((end + 7) / 8) as u64,
        }
    }
}

impl<'a, 'b> Iterator for Parts<'a, 'b> {
    ghost use Rattle.std.specs.Iterator.{YieldsFirst, item_count};
    ghost use Rattle.race_core.specs.Parts.{left_of};

    type Item = (u32, u8);

    ghost next_gives = { YieldsFirst left_of };

    ghost remaining = { item_count left_of };

    fn next(&mut self) -> Option<(u32, u8)> {
        while self.next < self.end {
            let address = 8 * self.next;
            let mask = mask_in(self.addr, self.size, self.next);
            self.next += 1;
            if mask != 0 {
                if let Some(granule) = self.image.granule_of(address) {
                    return Some((granule, mask));
                }
            }
        }
        None
    }
}

/// The access's bytes in a block of eight, the least bit for the first.
fn mask_in(addr: u64, size: u32, block: u64) -> u8
    requires { block < 2 ^ 61 }
    ensures { (place : ℕ) (read atomic : Bool) → result ≡ accesses.mask_in (access place addr size read atomic) block }
{
    let start = 8 * block;
    let end = (u128::from(addr) + u128::from(size)).min(1 << 64);
    let behind = end.saturating_sub(u128::from(start)).min(8) as u32;
    let before = addr.saturating_sub(start).min(8) as u32;
    ((1u64 << behind) - (1 << before)) as u8
}
