//! Opens stores of plans over connections. A state has the operators with their ceilings, and all plans; it
//! is valid if it keeps the desk's limits. Rows of schema 1, the older one, are in `volume` and `span`. A
//! packed file has all tables before the indexes, as after a VACUUM; canonical order is the one in which a
//! desk makes them.

ghost use Rattle.std.specs.Prelude.{◌≡◌, ◌-◌, ◌++◌, [], false, length, replicate, IfOk, IfErr, MatchResult, None};
ghost use Rattle.desk_sql.specs.Effects.{StaysShown};
ghost use Rattle.table_load.specs.{OpeningSteps.IsCompletedAs, OpeningSteps.IsMovedOn, OpeningSteps.LeavesShownOr, OpeningSteps.IsAdopted, OpeningSteps.IsNotAdopted, Moving.BeginsMoved, Moving.KeepsRows, Moving.ShowsNoContent, Opening.BeginsWith, Opening.ShowsNoDesk, Opening.ShowsOldRows};

use crate::store::SqliteStore;
use db_file::Ram;
use desk_sql::laws::committed_and_sound;
use desk_sql::{TablesPresent, find_tables};
use desk_store::StoreFault;
use row_codec::known::MemoryIndex;
use sqlite::{Connection, FileStore, Files, Options};
use sqlite_trees::store::Alter;
use std::alloc::{AllocError, Global};
use table_load::fault::OpenFault;
use table_load::finding::{create_tables, load_world};
use table_load::moving::load_or_migrate;

// The seed for the salts of a WAL in memory. No other program writes to it, so that any number will do.
const SEED: u64 = 1;

// How many pages of a store in memory are cached, so that not each read copies them from the file.
const CACHED_PAGES: usize = 2048;

// The page size of a store in memory: small, since a commit writes, digests and copies whole pages.
const PAGE: usize = 1024;

// The beginning of a database of one such page and without tables (the SQLite file format, sections 1.3 and
// 1.6): the header of the file, and then that of a leaf page without cells.
const BLANK: [u8; 108] = [
    83, 81, 76, 105, 116, 101, 32, 102, 111, 114, 109, 97, 116, 32, 51, 0, 4, 0, 2, 2, 0, 64, 32,
    32, 0, 0, 0, 0, 0, 0, 0, 1, 0, 0, 0, 0, 0, 0, 0, 0, 0, 0, 0, 1, 0, 0, 0, 4, 0, 0, 0, 0, 0, 0,
    0, 0, 0, 0, 0, 1, 0, 0, 0, 0, 0, 0, 0, 0, 0, 0, 0, 0, 0, 0, 0, 0, 0, 0, 0, 0, 0, 0, 0, 0, 0, 0,
    0, 0, 0, 0, 0, 0, 0, 0, 0, 0, 0, 46, 118, 136, 13, 0, 0, 0, 0, 4, 0, 0,
];

/// Why no store was opened over a connection, with the connection.
#[derive(Drop)]
pub struct AdoptFault<S: Alter> {
    /// The cause.
    pub fault: OpenFault,
    /// The connection, with the rows that it had.
    pub connection: Connection<S>,
}

impl SqliteStore<FileStore<Ram>> {
    /// A store in memory, without operators and plans.
    ///
    /// # Errors
    ///
    /// `OutOfMemory` if memory runs out: files in memory fail for no other cause.
    pub fn in_memory(alloc: Global) -> Result<SqliteStore<FileStore<Ram>>, OpenFault>
        ensures empty { IfOk result (λ store. store.world ≡ record { operators = []; plans = [] }) }
        ensures fault { IfErr result (λ e. e ≡ OpenFault.OutOfMemory) }
    {
        store_in_ram(alloc).map_err(|_| OpenFault::OutOfMemory)
    }
}

impl<S: Alter> SqliteStore<S> {
    /// Opens the store over a connection. Missing tables are made; those of a packed file are rebuilt in
    /// canonical order, in one transaction. If the disk returns what was written and the connection was open,
    /// the store has the state whose rows the tables have, which is empty if there was no table. A crash then
    /// leaves the database as it was, or with all tables and this state (`cut`). A step limit of the
    /// connection (on the rows that a statement visits) is lifted.
    ///
    /// # Errors
    ///
    /// The connection, with the rows that it had, and the first of these that applies: `OutOfMemory` if
    /// memory runs out, `Store` if SQLite fails for another cause, `OldSchema` if there are rows of schema 1,
    /// and `NotADesk` if the tables aren't a desk's, or if their rows aren't those of a valid state.
    // Long: success, a refusal and a crash have a clause each.
    pub fn adopt(
        alloc: Global,
        mut connection: Connection<S>,
    ) -> Result<SqliteStore<S>, AdoptFault<S>>
        requires settled { connection.in_transaction ≡ false }
        ensures begins { IfOk result (λ store.
            BeginsWith S.Store connection store.held store.world) }
        ensures adopted { IfOk result (λ store. IsAdopted S.Store connection store.held store.world) }
        ensures refused { IfErr result (λ refused.
            IsNotAdopted S.Store connection refused.connection refused.fault
            (ShowsNoDesk S.Store connection refused.connection)
            (ShowsOldRows S.Store connection refused.connection)
            (StaysShown S.Store connection refused.connection)) }
        ensures cut { MatchResult result
            (λ store. LeavesShownOr S.Store connection store.held IsCompletedAs)
            (λ refused. LeavesShownOr S.Store connection refused.connection IsCompletedAs) }
    {
        // A law, which changes nothing: what the connection shows is committed and sound.
        committed_and_sound(&connection);
        connection.set_step_limit(None);
        match load_world(alloc, &mut connection) {
            Ok((kept, known, is_enrolled)) => Ok(SqliteStore::with(
                alloc,
                connection,
                kept,
                known,
                StoreFault::Store,
                is_enrolled,
            )),
            Err(fault) => Err(AdoptFault { fault, connection }),
        }
    }

    /// Opens the store over a connection as `adopt` does, but migrates a database of schema 1: its rows are
    /// replaced by those of the same state in schema 2, in one transaction. Also returned is how many plans
    /// were migrated: 0 if the database is of schema 2, and at most 2^32 - 1. Under the premise there, a
    /// crash leaves the database as it was, or as a desk's with the same state in one schema.
    ///
    /// # Errors
    ///
    /// The connection, with the rows that it had, and the first of these that applies: `OutOfMemory` if
    /// memory runs out, `Store` if SQLite fails for another cause, and `NotADesk` if the tables aren't
    /// a desk's, or if their rows aren't those of a valid state in either schema.
    // Long: success, a refusal and a crash have a clause each.
    pub fn adopt_old(
        alloc: Global,
        mut connection: Connection<S>,
    ) -> Result<(SqliteStore<S>, u32), AdoptFault<S>>
        requires settled { connection.in_transaction ≡ false }
        ensures begins { IfOk result (λ moved.
            BeginsMoved S.Store connection moved.0.held moved.0.world moved.1) }
        ensures adopted { IfOk result (λ moved.
            IsAdopted S.Store connection moved.0.held moved.0.world) }
        ensures refused { IfErr result (λ refused.
            IsNotAdopted S.Store connection refused.connection refused.fault
            (ShowsNoContent S.Store connection refused.connection) ⊥
            (KeepsRows S.Store connection refused.connection)) }
        ensures cut { MatchResult result
            (λ moved. LeavesShownOr S.Store connection moved.0.held IsMovedOn)
            (λ refused. LeavesShownOr S.Store connection refused.connection IsMovedOn) }
    {
        // A law, which changes nothing: what the connection shows is committed and sound.
        committed_and_sound(&connection);
        connection.set_step_limit(None);
        match load_or_migrate(alloc, &mut connection) {
            Ok((kept, known, count)) => {
                let store = SqliteStore::with(
                    alloc,
                    connection,
                    kept,
                    known,
                    StoreFault::Store,
                    true,
                );
                Ok((store, count))
            }
            Err(fault) => Err(AdoptFault { fault, connection }),
        }
    }
}

// A store over files in memory, without operators and plans. Its caller reports each error as `OutOfMemory`:
// files in memory fail for no other cause.
fn store_in_ram(alloc: Global) -> Result<SqliteStore<FileStore<Ram>>, OpenFault>
    ensures { IfOk result (λ store. store.world ≡ record { operators = []; plans = [] }) }
{
    let page = blank_database(alloc)?;
    let files = Files {
        log: Ram::new(alloc),
        db: Ram::of(page),
    };
    let options = Options {
        cache_pages: CACHED_PAGES,
        ..Options::new(SEED)
    };
    match Connection::open_files(alloc, files, options) {
        Ok(connection) => store_over_blank(alloc, connection),
        Err((error, _)) => Err(OpenFault::from(error)),
    }
}

// The bytes of a database without tables: `BLANK`, and zeros up to one page (`PAGE` bytes).
fn blank_database(alloc: Global) -> Result<Vec<u8>, AllocError>
    ensures { IfOk result (λ page. page.items ≡ BLANK ++ replicate (PAGE - length BLANK) 0) }
{
    let mut page = Vec::from_slice(alloc, &BLANK)?;
    page.resize(PAGE, 0)?;
    Ok(page)
}

// Makes an empty store over a connection to a database in memory that has to have no table; `Store` if it has
// one. I/O errors of this store are reported as `OutOfMemory`: files in memory fail for no other cause.
fn store_over_blank<S: Alter + Drop>(
    alloc: Global,
    mut connection: Connection<S>,
) -> Result<SqliteStore<S>, OpenFault>
    requires settled { connection.in_transaction ≡ false }
    requires unlimited { connection.step_limit ≡ None }
    ensures { IfOk result (λ store. store.world ≡ record { operators = []; plans = [] }) }
{
    let Some(TablesPresent::Nothing) = find_tables(&mut connection)? else {
        return Err(OpenFault::Store);
    };
    let kept = create_tables(&mut connection)?;
    let known = MemoryIndex::new(alloc);
    Ok(SqliteStore::with(
        alloc,
        connection,
        kept,
        known,
        StoreFault::OutOfMemory,
        false,
    ))
}
