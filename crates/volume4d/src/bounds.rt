//! The smallest slab that has all points of others.

ghost use Rattle.volume4d.specs.Slab.{slabs_have, AreFilled, IsBounds};

use crate::slab::Slab;

/// The smallest slab that has all points of `slabs`, which are one or more, each with a point.
pub fn bounds_of(slabs: &[Slab]) -> Slab
    requires { AreFilled slabs.now }
    ensures { IsBounds (slabs_have slabs.now) result }
{
    let mut bounds = slabs[0];
    for slab in slabs {
        bounds = bounds.join(slab);
    }
    bounds
}
