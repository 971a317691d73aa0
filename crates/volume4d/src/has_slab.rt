//! The trait of slabs and of what has a slab, so that one sweep serves both.

ghost use Rattle.std.specs.Prelude.{◌≡◌};

use crate::slab::{Held, Slab};

/// A slab, or a slab with a priority (`Held`).
pub(crate) trait HasSlab {
    ghost use Rattle.volume4d.specs.declared.slab.Slab.{Slab};

    /// The slab of a value, as the clauses name it.
    ghost slab_of: { Self → Slab };

    /// The slab, without a priority.
    fn slab(&self) -> &Slab
        ensures { result.now ≡ slab_of self.now };
}

impl HasSlab for Slab {
    ghost slab_of = { λ s. s };

    // The slab itself.
    fn slab(&self) -> &Slab {
        self
    }
}

impl HasSlab for Held {
    ghost slab_of = { λ h. h.slab };

    // The slab, without its priority.
    fn slab(&self) -> &Slab {
        &self.slab
    }
}
