// What a shadow cell holds.
ghost use Rattle.std.specs.Prelude.{◌≡◌, Some, IfSome};
ghost use Rattle.shadow_word.specs.Cells.{HasWord, word_in, cell_in};

use crate::fields::{epoch_of, era_of, is_of_atomic, mask_of, reads, sid_of};

/// An access of some bytes of a granule, by the label of its thread.
#[derive(Clone, Copy, Debug, PartialEq, Eq)]
pub struct Cell {
    /// Bit i is the granule's byte i.
    pub mask: u8,
    pub sid: u8,
    pub epoch: u16,
    pub read: bool,
    pub atomic: bool,
    pub era: u32,
}

/// The word of a cell: bits 0 to 7 are the mask, 8 to 15 the slot, 16 to 29 the epoch, 30 whether
/// it reads, 31 whether it is atomic, 32 to 63 the era.
pub fn pack(cell: Cell) -> u64
    requires { HasWord cell }
    ensures { result ≡ word_in cell }
{
    u64::from(cell.mask)
        + (u64::from(cell.sid) << 8)
        + (u64::from(cell.epoch) << 16)
        + (u64::from(cell.read) << 30)
        + (u64::from(cell.atomic) << 31)
        + (u64::from(cell.era) << 32)
}

/// The cell of a word; none where the word has no byte, the epoch 0 or the slot 255, as the empty
/// word 0.
pub fn unpack(word: u64) -> Option<Cell>
    ensures value { result ≡ cell_in word }
    ensures has_word { IfSome result HasWord }
    ensures word { IfSome result (λ cell. word_in cell ≡ word) }
{
    let cell = Cell {
        mask: mask_of(word),
        sid: sid_of(word),
        epoch: epoch_of(word),
        read: reads(word),
        atomic: is_of_atomic(word),
        era: era_of(word),
    };
    if cell.mask == 0 || cell.epoch == 0 || cell.sid == 255 {
        None
    } else {
        Some(cell)
    }
}

/// A cell is read back from its word.
pub fn word_law(cell: Cell)
    requires { HasWord cell }
    ensures { cell_in (word_in cell) ≡ Some cell }
{}

/// No two cells have one word.
pub fn distinct_law(one: Cell, other: Cell)
    requires one_has { HasWord one }
    requires other_has { HasWord other }
    ensures { word_in one ≡ word_in other → one ≡ other }
{}

#[cfg(test)]
mod tests {
    use super::*;

    #[test]
    fn packs_and_unpacks(rt: HostRuntime) {
        let cell = Cell {
            mask: 0x0f,
            sid: 3,
            epoch: 5,
            read: true,
            atomic: false,
            era: 2,
        };
        assert_eq!(rt; pack(cell), 0x0000_0002_4005_030f);
        assert_eq!(rt; unpack(0x0000_0002_4005_030f), Some(cell));
    }

    #[test]
    fn finds_no_cell(rt: HostRuntime) {
        // The empty word, no byte, the epoch 0, and the slot 255.
        for word in [
            0,
            0x0000_0002_4005_0300,
            0x0000_0002_4000_030f,
            0x0000_0002_4005_ff0f,
        ] {
            assert_eq!(rt; unpack(word), None);
        }
    }
}
