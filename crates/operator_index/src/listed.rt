//! An enrolled operator with its ceiling.

use desk_rules::operator::Operator;
use std::marker::Model;

/// An enrolled operator with its ceiling.
#[derive(Clone, Copy, Debug)]
pub struct ListedOperator {
    /// The operator's name.
    pub operator: Operator,
    /// The greatest priority that its plans may have.
    pub ceiling: u32,
}

impl Model for ListedOperator {
    ghost use Rattle.desk_store.specs.World.{Listed};

    ghost Value = { Listed };

    ghost view = { λ l. record { name = l.operator; ceiling = l.ceiling } };

    ghost inverse = { λ l. record { operator = l.name; ceiling = l.ceiling } };
}
