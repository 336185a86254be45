// The regions of memory by rising address, and the numbers of their granules.
ghost use Rattle.std.specs.Prelude.{◌≡◌, ◌+◌, ◌<◌, ◌≤◌, ◌^◌, ◌∷◌, false, map, length, All, IfOk, IfNone, IfSome};
ghost use Rattle.std.specs.Bool.{OnTrue, OnFalse};
ghost use Rattle.std.specs.List.{list_any};
ghost use Rattle.std.specs.List.Sorted.{IsPermutation, IsNonDecreasingBy};
ghost use Rattle.elf_image.specs.Headers.{region, stack as stack_segment, IsLow};
ghost use Rattle.elf_image.specs.Regions.{contains, granule_count, AreApart, IsAt, IsBlocks, IsTouched, RisesFrom, FirstGranules, IsHome};

use crate::header::{ProgramHeader, stack};
use crate::region::Region;
use std::alloc::{AllocError, Global};

/// The stack among the segments, by rising address.
pub fn in_order(mut segments: Vec<ProgramHeader>) -> Result<Vec<ProgramHeader>, AllocError>
    ensures moved { IfOk result (λ v. IsPermutation (stack_segment ∷ segments.items) v.items) }
    ensures rising { IfOk result (λ v. IsNonDecreasingBy (λ h. h.address) v.items) }
{
    segments.push(stack())?;
    segments.sort_unstable_by_key(|segment| segment.address);
    Ok(segments)
}

/// The regions of these segments.
pub fn regions_of(alloc: Global, segments: &[ProgramHeader]) -> Result<Vec<Region>, AllocError>
    requires { All IsLow segments.now }
    ensures { IfOk result (λ v. v.items ≡ map region segments.now) }
{
    segments
        .iter()
        .map(|segment| segment.region())
        .collect(alloc)
}

/// A region begins below the end of the one before it.
pub fn has_touched(regions: &[Region]) -> bool
    ensures touched { OnTrue result (IsTouched regions.now) }
    ensures apart { OnFalse result (AreApart regions.now) }
{
    for index in 1..regions.len() {
        if regions[index].start < regions[index - 1].end {
            return true;
        }
    }
    false
}

/// The number of each region's first granule, and at the end how many granules there are.
pub fn first_granules(alloc: Global, regions: &[Region]) -> Result<Vec<u32>, AllocError>
    requires blocks { All IsBlocks regions.now }
    requires few { granule_count regions.now < 2 ^ 32 }
    ensures { IfOk result (λ v. FirstGranules regions.now v.items) }
{
    let mut firsts = Vec::with_capacity(alloc, regions.len() + 1)?;
    let mut next = 0;
    firsts.push(next)?;
    for region in regions {
        next += region.granules();
        firsts.push(next)?;
    }
    Ok(firsts)
}

/// The number of the region that has an address.
pub fn find_region(regions: &[Region], address: u64) -> Option<usize>
    requires { RisesFrom 0 regions.now }
    ensures found { IfSome result (IsAt regions.now address) }
    ensures none { IfNone result (list_any (λ r. contains r address) regions.now ≡ false) }
{
    let index = regions.partition_point(|region| region.end <= address);
    if index < regions.len() && regions[index].contains(address) {
        Some(index)
    } else {
        None
    }
}

/// The number of the region that has a granule.
pub fn home_of(regions: &[Region], firsts: &[u32], granule: u32) -> usize
    requires numbered { FirstGranules regions.now firsts.now }
    requires below { granule < granule_count regions.now }
    ensures { IsHome regions.now granule result }
{
    firsts.partition_point(|first| *first <= granule) - 1
}
