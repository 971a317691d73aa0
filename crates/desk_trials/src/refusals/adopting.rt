//! Connections, and stores over them, that are adopted or moved again if that was refused.

ghost use Rattle.std.specs.Prelude.{◌≡◌, false, IfOk};

use crate::refusals::count::Refusals;
use anyhow::bail;
use desk_tables::{AdoptFault, OpenFault, SqliteStore};
use sqlite::{Connection, MemStore};
use sqlite_trees::store::Alter;
use std::alloc::Global;

// What puts the one plan that is left back into schema 1. It is closed, and has no spans.
const PUT_BACK: [&str; 2] = [
    "DELETE FROM volume2",
    "INSERT INTO volume VALUES ('bravo', '11111111-1111-4111-8111-111111111111', 0, 500, 2000, \
     1780317000, 1780322400, x'011000000000000000')",
];

/// A connection to an empty database without files, at the second time if the first was refused.
pub fn connect(alloc: Global, refusals: &mut Refusals) -> anyhow::Result<Connection<MemStore>>
    ensures settled { IfOk result (λ connection. connection.in_transaction ≡ false) }
{
    for _ in 0..2 {
        match Connection::open_in_memory(alloc) {
            Ok(connection) => return Ok(connection),
            Err(_) => refusals.add(),
        }
    }
    bail!("a database is refused twice")
}

/// The store over a connection.
pub fn adopt<A: Alter + Drop>(
    alloc: Global,
    connection: Connection<A>,
    refusals: &mut Refusals,
) -> anyhow::Result<SqliteStore<A>>
    requires settled { connection.in_transaction ≡ false }
{
    match SqliteStore::adopt(alloc, connection) {
        Ok(store) => Ok(store),
        Err(refused) => {
            refusals.add();
            adopt_refused(alloc, refused)
        }
    }
}

// The store over a connection that was refused once.
fn adopt_refused<A: Alter + Drop>(
    alloc: Global,
    refused: AdoptFault<A>,
) -> anyhow::Result<SqliteStore<A>> {
    let connection = spared(refused)?;
    match SqliteStore::adopt(alloc, connection) {
        Ok(store) => Ok(store),
        Err(again) => bail!("a database is refused twice: {}", again.fault),
    }
}

/// The store over a connection whose rows are moved from schema 1, and how many plans were moved.
pub fn move_old<A: Alter + Drop>(
    alloc: Global,
    connection: Connection<A>,
    refusals: &mut Refusals,
) -> anyhow::Result<(SqliteStore<A>, u32)>
    requires settled { connection.in_transaction ≡ false }
{
    match SqliteStore::adopt_old(alloc, connection) {
        Ok(moved) => Ok(moved),
        Err(refused) => {
            refusals.add();
            move_refused(alloc, refused)
        }
    }
}

// The store over a connection whose move was refused once, and how many plans were moved.
fn move_refused<A: Alter + Drop>(
    alloc: Global,
    refused: AdoptFault<A>,
) -> anyhow::Result<(SqliteStore<A>, u32)> {
    let connection = spared(refused)?;
    match SqliteStore::adopt_old(alloc, connection) {
        Ok(moved) => Ok(moved),
        Err(again) => bail!("a move is refused twice: {}", again.fault),
    }
}

// The connection of a refusal, which has to be for want of memory.
fn spared<A: Alter + Drop>(refused: AdoptFault<A>) -> anyhow::Result<Connection<A>>
    ensures settled { IfOk result (λ connection. connection.in_transaction ≡ false) }
{
    if refused.fault != OpenFault::OutOfMemory {
        bail!("a database is refused: {}", refused.fault);
    }
    settled(refused.connection)
}

/// A connection, in which no transaction may be open.
pub fn settled<A: Alter + Drop>(connection: Connection<A>) -> anyhow::Result<Connection<A>>
    ensures settled { IfOk result (λ connection. connection.in_transaction ≡ false) }
{
    if !connection.is_autocommit() {
        bail!("a transaction is left open");
    }
    Ok(connection)
}

/// A connection whose rows are put back into schema 1.
pub fn put_back<A: Alter + Drop>(
    mut connection: Connection<A>,
    refusals: &mut Refusals,
) -> anyhow::Result<Connection<A>>
    ensures settled { IfOk result (λ connection. connection.in_transaction ≡ false) }
{
    for text in PUT_BACK {
        run(&mut connection, text, refusals)?;
    }
    settled(connection)
}

// Runs a statement, at the second time if the first was refused.
fn run<A: Alter + Drop>(
    connection: &mut Connection<A>,
    text: &str,
    refusals: &mut Refusals,
) -> anyhow::Result<()> {
    for _ in 0..2 {
        match connection.execute_batch(text) {
            Ok(()) => return Ok(()),
            Err(_) => refusals.add(),
        }
    }
    bail!("a statement is refused twice")
}
