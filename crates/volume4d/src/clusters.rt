//! Clusters: slabs that lie close to each other along the S2 curve.

ghost use Rattle.std.specs.Prelude.{◌<◌, ◌≤◌, IsTrue, length, take, drop};
ghost use Rattle.volume4d.specs.{Slab.AreInTurn, Slab.IsCluster, Sweep.Ascend};

use crate::slab::Slab;

/// Splits slabs at the first gap of at least `gap` leaves: the slabs before it, and those after it, which may
/// be none. The slabs are one or more, and ascend by their first leaves. A gap is the run of leaves between
/// the last leaf of all slabs so far and the first leaf of the next one. No point of the second part comes
/// before one of the first. (How wide a gap has to be is a matter of speed alone.)
#[tactic(auto, using(crate::proofs::ClusterLemmas::cluster_at))]
pub fn split_cluster(slabs: &[Slab], gap: u64) -> (&[Slab], &[Slab])
    requires some { 0 < length slabs.now }
    requires order { Ascend (λ s. s) slabs.now }
    ensures { IsCluster slabs.now result.0.now result.1.now }
{
    slabs.split_at(cluster_len(slabs, gap))
}

// How many slabs stand before the first gap of at least `gap` leaves; all of them if there is none. `reach`
// is the greatest last leaf so far.
fn cluster_len(slabs: &[Slab], gap: u64) -> usize
    requires some { 0 < length slabs.now }
    requires order { Ascend (λ s. s) slabs.now }
    ensures some { 0 < result }
    ensures within { result ≤ length slabs.now }
    ensures in_turn { AreInTurn (take result slabs.now) (drop result slabs.now) }
{
    let mut reach = slabs[0].first;
    for (place, slab) in slabs.iter().enumerate() {
        if reach < slab.first && slab.first - reach > gap {
            return place;
        }
        reach = reach.max(slab.last);
    }
    slabs.len()
}
