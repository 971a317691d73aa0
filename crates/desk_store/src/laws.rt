//! Laws of the content of a store. Each is the contract of a function that changes nothing. A caller makes
//! the law known to the prover by calling the function.

ghost use Rattle.std.specs.Prelude.{ℕ, ◌*◌, ◌≤◌, List};
ghost use Rattle.volume4d.specs.VolumeLimits.{max_cover, max_volumes};
ghost use Rattle.desk_rules.specs.Limits.{max_plans};
ghost use Rattle.desk_store.specs.World.{IsContent, World, cells_beside, plans_of, spans_beside};

use volume4d::laws;

/// An operator's live plans but the one with `id` have at most 6,553,600 spans (200 plans of 32 volumes of
/// 1,024 spans), so 32 bits can count them.
pub fn spans_are_few()
    ensures { (w : World) (operator id : List ℕ) → IsContent w
        → spans_beside id (plans_of operator w) ≤ max_plans * (max_volumes * max_cover) }
{
    laws::spans_are_few();
}

/// An operator's plans but the one with `id` have at most 6,553,600 cells (200 plans of 32 volumes of 1,024
/// cells), so 32 bits can count them.
pub fn cells_are_few()
    ensures { (w : World) (operator id : List ℕ) → IsContent w
        → cells_beside id (plans_of operator w) ≤ max_plans * (max_volumes * max_cover) }
{
    laws::cells_are_few();
}
