//! The rows of `volume2`, read one at a time. The cover in each is compared with that of its volume, but not
//! kept. `AllocError` means that memory ran out. A row has the columns `operator`, `id`, `place`, `lower`,
//! `upper`, `start`, `stop`, `asked`, `canon`, counted from 0: columns 3 to 7 are the volume, and `canon` is
//! its canonical cover, the fewest S2 cells that have just the leaves of its footprint `asked`.

ghost use Rattle.std.specs.Prelude.{◌≡◌, ◌≢◌, ◌↔◌, ◌++◌, [], ◌∷◌, List, map, IsTrue, IfOk, IfErr, OnOk};
ghost use Rattle.sqlite_value.specs.declared.value.Value.TheVariants.{Blob};
ghost use Rattle.sqlite_value.specs.{Value.owned, Order.Row as Columns, Order.column};
ghost use Rattle.sqlite.specs.{State.HasCleanDisk, Held.state};
ghost use Rattle.desk_sql.specs.{Effects.IsReady, Effects.StaysOpen, Effects.OnlyReads, Rows.IsMadeTo, Rows.tables_at, Rows.ListVolumes};
ghost use Rattle.table_load.specs.Opening.{AreCompared, HasCoverOf, HasItsCover, BlamesReading};

use crate::fault::OpenFault;
use crate::spans::fault_of;
use desk_sql::{RowVisitor, TablesPresent, each_volume};
use desk_store::StoreFault;
use row_codec::canon::canon_of;
use row_codec::values::volume_in;
use sqlite::{Connection, Error, Row};
use sqlite_exec::work::FromRow;
use sqlite_trees::store::Alter;
use sqlite_value::row;
use sqlite_value::value::ValueRef;
use std::alloc::{AllocError, Global};
use volume4d::Volume;
use volume4d::laws::one_shape;

/// A visitor of all rows of `volume2`, which compares their covers and keeps the rows without these.
#[derive(Drop)]
pub struct CoverCheck {
    alloc: Global,
    pub volumes: Vec<Row>,
    /// Whether each row so far had the cover of its volume.
    pub agree: bool,
    // the values of the current row; its buffers are used again for the next
    values: row::Row,
}

impl CoverCheck {
    /// A check before the first row.
    pub fn new(alloc: Global) -> CoverCheck
        ensures { AreCompared result.volumes.items result.agree [] }
    {
        CoverCheck {
            alloc,
            volumes: Vec::new(alloc),
            agree: true,
            values: row::Row::new(alloc),
        }
    }

    // Compares the cover in `row` (column 8) with that of its volume, unless an earlier one already differed,
    // and keeps columns 0 to 7.
    fn add(&mut self, row: &Row) -> Result<(), AllocError>
        ensures { OnOk result ((rows : List Columns)
            → AreCompared self.old.volumes.items self.old.agree rows
            → AreCompared self.new.volumes.items self.new.agree (rows ++ row.now ∷ [])) }
    {
        let volume = columns_of(self.alloc, &mut self.values, row, &[0, 1, 2, 3, 4, 5, 6, 7])?;
        self.volumes.push(volume)?;
        self.agree = agree_with_next(self.alloc, self.agree, row)?;
        Ok(())
    }
}

impl RowVisitor for CoverCheck {
    ghost use Rattle.std.specs.Prelude.{◌≡◌, ⊤};
    ghost use Rattle.sqlite.specs.declared.error.{Error.TheVariants.SqliteFailure, ErrorCode.TheVariants.OutOfMemory};
    ghost use Rattle.table_load.specs.Opening.{AreCompared};

    ghost has_taken = { λ c rows. AreCompared c.volumes.items c.agree rows };

    ghost keeps = { λ first now. ⊤ };

    ghost refuses = { λ taken row e. e ≡ SqliteFailure OutOfMemory };

    // Keeps the row without its cover, and compares the cover. It fails with `OutOfMemory` alone.
    fn take(&mut self, row: &Row) -> Result<(), Error> {
        self.add(row)?;
        Ok(())
    }
}

// A row of the columns `places` of `row`, in this order. `values` is a buffer for them: what it had is lost.
fn columns_of(
    alloc: Global,
    values: &mut row::Row,
    row: &Row,
    places: &[usize],
) -> Result<Row, AllocError>
    ensures { IfOk result (λ part. part ≡ map (column row.now) places.now) }
{
    values.clear();
    for place in places {
        values.push(value_at(row, *place))?;
    }
    Row::from_row(alloc, values)
}

// The value in the column `at` of `row`, counted from 0, or NULL past the last column.
fn value_at(row: &Row, at: usize) -> ValueRef<'_>
    ensures { owned result ≡ column row.now at }
{
    row.get_ref(at).unwrap_or(ValueRef::Null)
}

// Whether `agree` is true and `row`, a row of `volume2`, also has the cover of its volume. If `agree` is
// false, no cover is computed.
fn agree_with_next(alloc: Global, agree: bool, row: &Row) -> Result<bool, AllocError>
    ensures { IfOk result (λ all. IsTrue all ↔ (IsTrue agree × HasItsCover row.now)) }
{
    if !agree {
        return Ok(false);
    }
    has_own_cover(alloc, row)
}

// Whether `row` of `volume2` has a valid volume (columns 3 to 7) and the canonical cover of that (column 8).
fn has_own_cover(alloc: Global, row: &Row) -> Result<bool, AllocError>
    ensures { IfOk result (λ is. IsTrue is ↔ HasItsCover row.now) }
{
    // A law, which changes nothing: footprints with the same bytes are the same.
    one_shape();
    match volume_in(alloc, row, 3) {
        Ok(volume) => has_cover_of(alloc, row, &volume),
        Err(StoreFault::OutOfMemory) => Err(AllocError),
        Err(StoreFault::Store) => Ok(false),
    }
}

// Whether `canon` (column 8) of `row` is the canonical cover of `volume`.
fn has_cover_of(alloc: Global, row: &Row, volume: &Volume) -> Result<bool, AllocError>
    ensures { IfOk result (λ has. IsTrue has ↔ HasCoverOf volume.now row.now) }
{
    let canon = canon_of(alloc, volume)?;
    Ok(has_bytes_at(row, 8, &canon))
}

// Whether the column `at` of `row` is a blob of just these bytes.
fn has_bytes_at(row: &Row, at: usize, bytes: &[u8]) -> bool
    ensures { IsTrue result ↔ (column row.now at ≡ Blob bytes.now) }
{
    match row.get_ref(at) {
        Ok(ValueRef::Blob(found)) => found == bytes,
        _ => false,
    }
}

/// Passes all rows of `volume2` to `check`, ordered by key. `made` says which tables the database has; if
/// `volume2` isn't one of them, there are no rows.
///
/// # Errors
///
/// `OutOfMemory` if memory runs out, or if there are 2^64 - 1 rows. `Store` if SQLite fails for another
/// cause.
pub(crate) fn take_volumes<S: Alter>(
    connection: &mut Connection<S>,
    made: TablesPresent,
    check: &mut CoverCheck,
) -> Result<(), OpenFault>
    requires ready { IsReady S.Store connection.old (IsMadeTo made) }
    requires fresh { AreCompared check.old.volumes.items check.old.agree [] }
    ensures value { HasCleanDisk (state S.Store connection.new) → OnOk result ((rows : List Columns)
        × ListVolumes (tables_at made (state S.Store connection.old).now.trees) rows
        × AreCompared check.new.volumes.items check.new.agree rows) }
    ensures live { OnOk result (StaysOpen S.Store connection.old connection.new) }
    ensures fault { IfErr result (λ e. (e ≢ OpenFault.NotADesk) × (e ≢ OpenFault.OldSchema)) }
    ensures cause { IfErr result (BlamesReading S.Store connection.old connection.new) }
    ensures reads { OnlyReads S.Store connection.old connection.new }
{
    match each_volume(connection, made, check) {
        Ok(()) => Ok(()),
        Err(e) => Err(fault_of(e)),
    }
}
