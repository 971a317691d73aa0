//! The values of the parameters of an SQL statement.

ghost use Rattle.std.specs.Prelude.{◌≡◌, ◌≤◌, length};
ghost use Rattle.sqlite.specs.Values.{bound};

use sqlite_value::value::ValueRef;
use std::marker::Model;

// The most parameters of a statement.
const MAX_PARAMETERS: usize = 10;

/// The values of a statement's parameters `?1`, `?2` and so on, at most 10. They are in an array, so that no
/// memory is allocated.
#[derive(Drop)]
pub struct Parameters<'a> {
    // the values of the parameters, and nulls after them
    values: [ValueRef<'a>; MAX_PARAMETERS],
    // how many parameters there are
    count: usize,
}

impl<'a> Model for Parameters<'a> {
    ghost use Rattle.std.specs.Prelude.{◌≤◌, List, take};
    ghost use Rattle.std.specs.Coded.{coded_list};
    ghost use Rattle.sqlite_value.specs.declared.value.Value.{Value as SqlValue};
    ghost use Rattle.sqlite_value.specs.contracts.value.Value.{the_row};
    ghost use Rattle.sqlite.specs.Values.{bound};

    ghost Value = { List SqlValue };

    ghost coded = { coded_list the_row.coded };

    ghost view = { λ p. bound (take p.count p.values) };

    ghost invariant = { λ p. p.count ≤ 10 };
}

impl<'a> Parameters<'a> {
    /// The parameters with the values `given`, of which there are at most 10. The first is `?1`.
    pub fn of(given: &[ValueRef<'a>]) -> Parameters<'a>
        requires { length given.now ≤ 10 }
        ensures { result ≡ bound given.now }
    {
        let mut values = [ValueRef::Null; MAX_PARAMETERS];
        values[..given.len()].copy_from_slice(given);
        Parameters {
            values,
            count: given.len(),
        }
    }

    /// The values as a slice, as SQLite's calls take them, without the nulls that fill the array.
    pub fn as_slice(&self) -> &[ValueRef<'a>]
        ensures { bound result.now ≡ self.now }
    {
        &self.values[..self.count]
    }
}
