// Pairs of code places, in a list by rising low and then high.
ghost use Rattle.std.specs.Prelude.{◌≡◌, ◌↔◌, ◌⊎◌, IsTrue, Contains, OnOk};
ghost use Rattle.report_text.specs.declared.pair.Pair.{Pair};
ghost use Rattle.offline_audit.specs.Pairs.{AreRisingPairs, IsPlaceAmong, pair_of};

use report_text::Pair;
use run_record::NoMemory;

/// The pair of two places.
pub(crate) fn paired(first: u64, second: u64) -> Pair
    ensures { result ≡ pair_of first second }
{
    Pair {
        low: first.min(second),
        high: first.max(second),
    }
}

/// How many of the pairs stand before this one.
fn place_among(pairs: &[Pair], pair: Pair) -> usize
    requires { AreRisingPairs pairs.now }
    ensures { IsPlaceAmong pairs.now pair result }
{
    pairs.partition_point(|other| {
        other.low < pair.low || (other.low == pair.low && other.high < pair.high)
    })
}

/// Whether the pair is among these.
pub(crate) fn has(pairs: &[Pair], pair: Pair) -> bool
    requires { AreRisingPairs pairs.now }
    ensures { IsTrue result ↔ Contains pairs.now pair }
{
    let at = place_among(pairs, pair);
    at < pairs.len() && pairs[at] == pair
}

/// One more pair, which was not among them.
pub(crate) fn add(pairs: &mut Vec<Pair>, pair: Pair) -> Result<(), NoMemory>
    requires rising { AreRisingPairs pairs.old.items }
    requires new { Contains pairs.old.items pair → ⊥ }
    ensures rising { OnOk result (AreRisingPairs pairs.new.items) }
    ensures added { OnOk result ((x : Pair) → Contains pairs.new.items x
        ↔ (Contains pairs.old.items x ⊎ (x ≡ pair))) }
{
    let at = place_among(pairs.as_slice(), pair);
    pairs.insert(at, pair)?;
    Ok(())
}
