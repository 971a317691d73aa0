//! The index of operators.
//!
//! The states of a plan are its usage (planned, in use or closed) and the state of its aircraft. Its sizes
//! are how many spans it has (ranges of leaves along the S2 curve; none if it is closed) and how many cells.
//! The ceiling of an operator is the maximum priority that it may use. An operator whose entry has no ceiling
//! isn't enrolled.

ghost use Rattle.std.specs.Prelude.{◌≡◌, ◌++◌, ◌∷◌, ◌<◌, ◌^◌, [], List, length, IsSome, IfOk, OnOk};
ghost use Rattle.std.specs.{List.Sorted.IsStrictlySortedBy, Option.is_some};
ghost use Rattle.desk_rules.specs.Outcome.{states_of};
ghost use Rattle.desk_store.specs.World.{Filed, Listed, World, ceiling_of, listed_cmp, cells_beside, plans_of, spans_beside, stored_of};
ghost use Rattle.desk_store.specs.Changes.{filed_by, changed_by};
ghost use Rattle.operator_index.specs.Roll as spec;
ghost use Rattle.operator_index.specs.Roll.{AreAccountsOf, HasRoomIn, IsReadyFor, IsIndexOf, account_in, accounts_of, listed_if_enrolled};

use crate::account::OperatorEntry;
use crate::listed::ListedOperator;
use desk_rules::operator::Operator;
use desk_rules::plan::{PlanRow, States};
use desk_rules::plan_id::PlanId;
use desk_store::{Change, Sizes};
use std::alloc::{AllocError, Global};
use std::collections::BTreeMap;

/// An index of a store's operators: each one's ceiling, and the ids, states and sizes of its plans.
#[derive(Drop)]
pub struct OperatorIndex {
    accounts: BTreeMap<Operator, OperatorEntry>,
}

impl OperatorIndex {
    /// The index of no operators and no plans, which takes its memory from `alloc`.
    pub fn new(alloc: Global) -> OperatorIndex
        ensures { AreAccountsOf [] [] (accounts_of result) }
    {
        OperatorIndex {
            accounts: BTreeMap::new(alloc),
        }
    }

    /// The operator's ceiling, or `None` if it is not enrolled.
    pub fn ceiling(&self, operator: &Operator) -> Option<u32>
        ensures { (w : World) → IsIndexOf w self.now → result ≡ ceiling_of operator.now w }
    {
        let account = self.accounts.get(operator)?;
        account.ceiling
    }

    /// The enrolled operators with their ceilings, ascending by name, each once. The list is allocated from
    /// `alloc`.
    ///
    /// # Errors
    ///
    /// `AllocError` if memory runs out.
    pub fn listed(&self, alloc: Global) -> Result<Vec<ListedOperator>, AllocError>
        ensures { IfOk result (λ listed. (w : World) → IsIndexOf w self.now
            → IsStrictlySortedBy listed_cmp w.operators → listed.items ≡ w.operators) }
    {
        let mut listed = Vec::new(alloc);
        for (operator, account) in &self.accounts {
            push_listed(&mut listed, operator, account.ceiling)?;
        }
        Ok(listed)
    }

    /// The states of the operator's plan with this id, or `None` if it has no such plan.
    pub fn states(&self, operator: &Operator, id: &PlanId) -> Option<States>
        ensures { (w : World) → IsIndexOf w self.now
            → result ≡ states_of (stored_of id.now (plans_of operator.now w)) }
    {
        let account = self.accounts.get(operator)?;
        account.states(id)
    }

    /// How many plans the operator has, closed ones included: 0 if it isn't known, `u32::MAX` if 32 bits
    /// can't count them.
    pub fn count(&self, operator: &Operator) -> u32
        ensures { (w : World) → IsIndexOf w self.now → length (plans_of operator.now w) < 2 ^ 32
            → result ≡ length (plans_of operator.now w) }
    {
        match self.accounts.get(operator) {
            Some(account) => u32::try_from(account.plans.len()).unwrap_or(u32::MAX),
            None => 0,
        }
    }

    /// The sizes of all the operator's plans together, without the plan with this id. A number that exceeds
    /// 32 bits becomes `u32::MAX`.
    pub fn sizes_beside(&self, operator: &Operator, id: &PlanId) -> Sizes
        ensures spans { (w : World) → IsIndexOf w self.now
            → spans_beside id.now (plans_of operator.now w) < 2 ^ 32
            → result.spans ≡ spans_beside id.now (plans_of operator.now w) }
        ensures cells { (w : World) → IsIndexOf w self.now
            → cells_beside id.now (plans_of operator.now w) < 2 ^ 32
            → result.cells ≡ cells_beside id.now (plans_of operator.now w) }
    {
        match self.accounts.get(operator) {
            Some(account) => account.sizes_beside(id),
            None => Sizes::none(),
        }
    }

    /// Reserves the memory that `update_after` needs for this change. The index stays right, even if this
    /// fails.
    ///
    /// # Errors
    ///
    /// `AllocError` if memory runs out.
    pub fn prepare(&mut self, alloc: Global, change: &Change) -> Result<(), AllocError>
        ensures kept { (w : World) → IsIndexOf w self.old → IsIndexOf w self.new }
        ensures ready { OnOk result (IsReadyFor change.now self.new) }
    {
        let operator = changed_operator(change);
        ensure_account(alloc, &mut self.accounts, operator)?;
        make_room(&mut self.accounts, operator)
    }

    /// Updates the index after the store has made `change`. `prepare` has reserved the memory for it, so this
    /// can't fail.
    pub fn update_after(&mut self, change: &Change)
        requires { IsReadyFor change.now self.old }
        ensures { (w : World) → IsIndexOf w self.old → IsIndexOf (changed_by change.now w) self.new }
    {
        if let Some(account) = self.accounts.get_mut(changed_operator(change)) {
            account.apply_change(change);
        }
    }
}

// ---- opening

impl OperatorIndex {
    /// Adds an operator with its ceiling: an opening does so for each row of operators that it reads. An
    /// operator that has a ceiling already keeps that.
    ///
    /// # Errors
    ///
    /// `AllocError` if memory runs out.
    pub fn list(
        &mut self,
        alloc: Global,
        operator: &Operator,
        ceiling: u32,
    ) -> Result<(), AllocError>
        ensures { OnOk result ((ls : List Listed) (ps : List Filed)
            → AreAccountsOf ls ps (accounts_of self.old) → AreAccountsOf
            (ls ++ record { name = operator.now; ceiling = ceiling } ∷ []) ps (accounts_of self.new)) }
    {
        ensure_account(alloc, &mut self.accounts, operator)?;
        if let Some(account) = self.accounts.get_mut(operator) {
            account.set_first_ceiling(ceiling);
        }
        Ok(())
    }

    /// Appends the plan `row` to the plans of its operator. The plans of an operator have to come in
    /// ascending order of their ids.
    ///
    /// # Errors
    ///
    /// `AllocError` if memory runs out.
    pub fn file(
        &mut self,
        alloc: Global,
        operator: &Operator,
        row: &PlanRow,
    ) -> Result<(), AllocError>
        ensures { OnOk result ((ls : List Listed) (ps : List Filed)
            → AreAccountsOf ls ps (accounts_of self.old) → AreAccountsOf ls
            (ps ++ filed_by operator.now row.now ∷ []) (accounts_of self.new)) }
    {
        ensure_account(alloc, &mut self.accounts, operator)?;
        if let Some(account) = self.accounts.get_mut(operator) {
            account.append_plan(row)?;
        }
        Ok(())
    }
}

// The entries of the operators, by name.
type Accounts = BTreeMap<Operator, OperatorEntry>;

// Appends an operator to `listed` if it has a ceiling. One without a ceiling is not enrolled and is left out.
// If memory runs out, the error is `AllocError`.
fn push_listed(
    listed: &mut Vec<ListedOperator>,
    operator: &Operator,
    ceiling: Option<u32>,
) -> Result<(), AllocError>
    ensures { OnOk result (listed.new.items ≡ listed.old.items ++ listed_if_enrolled operator.now ceiling []) }
{
    if let Some(ceiling) = ceiling {
        listed.push(ListedOperator {
            operator: *operator,
            ceiling,
        })?;
    }
    Ok(())
}

// Gives an operator an empty entry, if it has none. An empty entry has no ceiling and no plans, so the index
// stays right, even if memory runs out.
fn ensure_account(
    alloc: Global,
    accounts: &mut Accounts,
    operator: &Operator,
) -> Result<(), AllocError>
    ensures kept { (ls : List Listed) (ps : List Filed) → AreAccountsOf ls ps accounts.old.entries
        → AreAccountsOf ls ps accounts.new.entries }
    ensures has_entry { OnOk result (IsSome (account_in operator.now accounts.new.entries)) }
{
    if accounts.contains_key(operator) {
        return Ok(());
    }
    accounts.insert(
        *operator,
        OperatorEntry {
            ceiling: None,
            plans: Vec::new(alloc),
        },
    )?;
    Ok(())
}

// Reserves capacity for one more plan in an operator's entry; does nothing if it has none. The index stays
// right, even if memory runs out.
fn make_room(accounts: &mut Accounts, operator: &Operator) -> Result<(), AllocError>
    ensures kept { (ls : List Listed) (ps : List Filed) → AreAccountsOf ls ps accounts.old.entries
        → AreAccountsOf ls ps accounts.new.entries }
    ensures room { OnOk result (IsSome (account_in operator.now accounts.old.entries)
        → HasRoomIn (account_in operator.now accounts.new.entries)) }
{
    match accounts.get_mut(operator) {
        Some(account) => account.make_room(),
        None => Ok(()),
    }
}

// The operator whose ceiling or plans `change` concerns.
fn changed_operator(change: &Change) -> &Operator
    ensures { result.now ≡ spec.changed_operator change.now }
{
    match change {
        Change::Enrol { operator, .. } => operator,
        Change::Put { operator, .. } => operator,
        Change::Close { operator, .. } => operator,
        Change::Clear { operator, .. } => operator,
    }
}
