//! An order of volumes in which neighbours are close together in time, on the ground and in height. So the
//! volumes of a chunk, which follow each other in this order, have a small bounding box.

ghost use Rattle.std.specs.Prelude.{◌≡◌, ◌+◌, ◌*◌, ◌%◌, ◌^◌, bit_and, IsPermutation};

use crate::near::PlanKey;
use crate::volume::LiveVolume;
use volume4d::Slab;

/// The key of a volume in that order: its place (`place_of`), and then its plan, so that a plan's volumes are
/// found even if many other plans have volumes at the same place.
#[derive(Clone, Copy, Debug, PartialEq, Eq, PartialOrd, Ord)]
pub(crate) struct Rank {
    pub(crate) place: u128,
    pub(crate) plan: PlanKey,
}

impl Rank {
    /// The rank of a volume of the plan `plan` at the place `place`.
    pub(crate) fn of(plan: &PlanKey, place: u128) -> Rank
        ensures place { result.place ≡ place }
        ensures plan { result.plan ≡ plan.now }
    {
        Rank { place, plan: *plan }
    }
}

/// The place of a slab in that order. Its upper 64 bits interleave the lowest 21 bits of three numbers, the
/// highest first (a Z-order curve): the start in steps of 128 s, the first leaf in steps of `2^42` leaves,
/// and the lowest altitude in decimetres. Its lower 64 bits are the first leaf. The start and the altitude
/// are counted from the least number of their types, so that they aren't negative.
pub(crate) fn place_of(slab: &Slab) -> u128
    ensures { result % 2 ^ 64 ≡ slab.now.first }
{
    let time = slab.start.abs_diff(i64::MIN) >> 7;
    let ground = slab.first >> 42;
    let height = u64::from(slab.lower.abs_diff(i32::MIN));
    let turns = (spread(time) << 2) | (spread(ground) << 1) | spread(height);
    joined(turns, slab.first)
}

// The number whose upper 64 bits are `high` and whose lower 64 bits are `low`.
fn joined(high: u64, low: u64) -> u128
    ensures { result ≡ high * 2 ^ 64 + low }
{
    (u128::from(high) << 64) | u128::from(low)
}

// Spreads the lowest 21 bits of a number: bit k becomes bit 3 * k, and all others are zero. The clause says
// only which bits are zero.
#[tactic(auto, using(crate::proofs::OrderLemmas::masked))]
fn spread(number: u64) -> u64
    ensures { bit_and result 0x1249_2492_4924_9249 ≡ result }
{
    let mut bits = number & 0x1f_ffff;
    bits = (bits | (bits << 32)) & 0x1f_0000_0000_ffff;
    bits = (bits | (bits << 16)) & 0x1f_0000_ff00_00ff;
    bits = (bits | (bits << 8)) & 0x100f_00f0_0f00_f00f;
    bits = (bits | (bits << 4)) & 0x10c3_0c30_c30c_30c3;
    (bits | (bits << 2)) & 0x1249_2492_4924_9249
}

/// Sorts volumes, ascending by rank.
pub(crate) fn put_in_order(lives: &mut [LiveVolume])
    ensures { IsPermutation lives.old lives.new }
{
    lives.sort_unstable_by_key(|live| live.rank());
}
