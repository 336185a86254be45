// Words by worked rows.
ghost use Rattle.std.specs.Prelude.{◌≡◌, false};
ghost use Rattle.trace_parts.specs.declared.event.TraceEvent.TheVariants as Traced;

use super::*;

fn write_of(size: u32, place: u64, addr: u64) -> TraceEvent
    ensures { result ≡ Traced.Access place addr size false false }
{
    TraceEvent::Access {
        place,
        addr,
        size,
        read: false,
        atomic: false,
    }
}

#[test]
fn spells_a_short_write(rt: HostRuntime) {
    let event = write_of(8, 0x1_0054, 0x100_0000);
    let words = encode(&event, 0);
    assert_eq!(rt; words.as_slice(), [0x0000_8000_0060_0ae1].as_slice());
    assert_eq!(rt; decode(words.as_slice(), 0), Some((event, 1)));
}

// An access takes one word where its size, its address and the distance of its place allow it.
#[test]
fn takes_one_word_or_three(rt: HostRuntime) {
    let cases = [
        (8, 131_068, 0, 0, 1),
        (8, 131_072, 0, 0, 3),
        (8, 0, 131_072, 0, 1),
        (8, 0, 131_076, 0, 3),
        (8, 2, 0, 0, 3),
        (8, 0, 0, 0x1ff_ffff_ffff, 1),
        (8, 0, 0, 0x200_0000_0000, 3),
        (1, 0, 0, 0, 1),
        (2, 0, 0, 0, 1),
        (4, 0, 0, 0, 1),
        (3, 0, 0, 0, 3),
        (16, 0, 0, 0, 3),
        (65_536, 0, 0, 0, 3),
    ];
    for (size, place, previous, addr, count) in cases {
        assert!(rt; size <= 65_536);
        let event = write_of(size, place, addr);
        let words = encode(&event, previous);
        assert_eq!(rt;
            words.count(),
            count,
            "{size} bytes at {addr}, {place} after {previous}"
        );
        assert_eq!(rt; decode(words.as_slice(), previous), Some((event, count)));
    }
}

#[test]
fn refuses_what_is_no_spelling(rt: HostRuntime) {
    // a long access where one word would do
    assert_eq!(rt; decode(&[0x802, 0x1_0054, 0x100_0000], 0), None);
    assert!(rt; decode(&[0x302, 0x1_0054, 0x100_0000], 0).is_some());
    // a size past 65,536, kind 0, and bits that aren't used
    for first in [0x100_0102, 0, 0x322, 0x0b, 0x0c, 0x15, 0x16, 0x4000_0007] {
        assert_eq!(rt; decode(&[first, 0, 0], 0), None, "{first}");
    }
    // words that are missing
    assert_eq!(rt; decode(&[], 0), None);
    assert_eq!(rt; decode(&[3], 0), None);
    assert_eq!(rt; decode(&[0x302, 0], 0), None);
}
