//! Laws of the definitions. Each is the contract of a function that does nothing. A caller makes the law
//! known to the prover by calling the function. `step` is the state of the desk after an operator's call at a
//! moment (a Unix second).

ghost use Rattle.std.specs.Prelude.{◌≡◌, ℕ, ℤ, List, Some, false};
ghost use Rattle.std.specs.{List.AllZip, Ordering.is_eq};
ghost use Rattle.desk_rules.specs.declared.{call.Call.Call, call.Call.TheVariants.Delete, plan.PlanRow.PlanRow};
ghost use Rattle.desk_rules.specs.declared.words.Usage.TheVariants as usage;
ghost use Rattle.desk_run.specs.Verdicts.{DeskWorld, enrolled, side, held_in, makes_change, side_left, step};
ghost use Rattle.desk_run.specs.Calls.{HoldAlike, OwnAlike, AreCallsSameFor, TimedCall, calls_of, met_by_calls};
ghost use Rattle.desk_store.specs.World.{IsWorld, plans_of, stored_of, text_cmp};

/// A request of one operator changes no other operator's plans or ceiling, and not the desk's settings. The
/// `side` of an operator in a state is these three: its ceiling, its plans, and the desk's settings.
pub fn others_are_kept()
    ensures { (w : DeskWorld) (operator other : List ℕ) (moment : ℤ) (call : Call) →
        is_eq (text_cmp other operator) ≡ false →
        side (step w operator moment call) other ≡ side w other }
{}

/// An operator's ceiling and plans after its request depend only on its ceiling and plans before, on the
/// request and its moment, on what others hold, and on the desk's settings, which stay.
pub fn own_is_decided()
    ensures { (w : DeskWorld) (operator : List ℕ) (moment : ℤ) (call : Call) →
        side (step w operator moment call) operator
        ≡ side_left (side w operator) (held_in w operator) moment call }
{}

/// A request to delete a plan that is closed already changes nothing.
pub fn closing_a_closed_plan_changes_nothing()
    ensures { (w : DeskWorld) (operator id : List ℕ) (moment : ℤ) (row : PlanRow) → IsWorld w.content →
        stored_of id (plans_of operator w.content) ≡ Some row → row.usage ≡ usage.Closed →
        step w operator moment (Delete id) ≡ w }
{}

/// A call that makes no change leaves the state of the desk unchanged.
pub fn without_a_change_all_stays()
    ensures { (w : DeskWorld) (operator : List ℕ) (moment : ℤ) (call : Call) →
        makes_change w operator moment call ≡ false → step w operator moment call ≡ w }
{}

/// A call and an enrolment are idempotent: made twice in a row, each results in the same state as made once.
/// (The second answer may differ: a plan that is now closed can't be changed, and a clear finds no plan.)
pub fn repeated()
    ensures call { (w : DeskWorld) (operator : List ℕ) (moment : ℤ) (call : Call) →
        step (step w operator moment call) operator moment call ≡ step w operator moment call }
    ensures enrolment { (w : DeskWorld) (name : List ℕ) (ceiling : ℕ) →
        enrolled (enrolled w name ceiling) name ceiling ≡ enrolled w name ceiling }
{}

/// Noninterference. Take two runs: `calls` from the state `v`, and `others` from the state `w`. `operator`
/// makes the same calls in both, in the same order and at the same moments. Its ceiling, its plans and the
/// settings are the same in `v` and `w`. If other operators hold the same before each of its calls in both
/// runs, it is answered the same, and owns the same after each of its calls and at the end. What calls others
/// make in between doesn't matter.
pub fn two_runs()
    ensures { (operator : List ℕ) (v w : DeskWorld) (calls others : List TimedCall) →
        OwnAlike operator v w → calls_of operator calls ≡ calls_of operator others →
        AllZip (HoldAlike operator) (met_by_calls operator v calls) (met_by_calls operator w others) →
        AreCallsSameFor operator v calls w others }
{}
