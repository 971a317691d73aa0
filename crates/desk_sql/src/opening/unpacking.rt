//! How the tables of a packed file are rebuilt in canonical order. A packed file lists all tables before the
//! indexes, as after a VACUUM; canonical order is that in which the desk makes them. So the index
//! `span_first`, `volume2` and `span2` with its index have other b-trees in a packed file.

ghost use Rattle.std.specs.Prelude.{◌≡◌, IsTrue};
ghost use Rattle.sqlite.specs.{Effect.IsDatabase, Held.state};
ghost use Rattle.desk_sql.specs.{Rows.IsMadeTo, Rows.tables_at, Effects.Holds, Effects.Makes, Queries.IsRunWithin};
ghost use Rattle.desk_sql.specs.Changing.{HasSmallSpans, Unpacks, RemakesTables};

use crate::opening::finding::TablesPresent;
use crate::opening::making::make_rest;
use crate::running::run;
use sqlite::{Alter, Error, Transaction};

// Drops, within a transaction, what has another b-tree in a packed file than in canonical order: the index
// `span_first` and the tables `span2` and `volume2`, with their indexes. The tables of
// `TablesPresent::OldSpans` are left, with their rows. If it fails, nothing is committed.
fn unpack<S: Alter>(tx: &mut Transaction<'_, S>) -> Result<(), Error>
    requires at { Holds S.Store tx.old.conn.now (IsMadeTo TablesPresent.Packed) }
    ensures same_reference { tx.new.conn.ghost_name ≡ tx.old.conn.ghost_name }
    ensures ran { IsRunWithin S.Store tx.old.conn.now tx.new.conn.now result
        (Unpacks S.Store tx.old.conn.now tx.new.conn.now)
        (Holds S.Store tx.old.conn.now IsDatabase × IsTrue tx.old.conn.now.in_transaction) }
{
    run(tx, "DROP INDEX span_first", &[])?;
    run(tx, "DROP TABLE span2", &[])?;
    run(tx, "DROP TABLE volume2", &[])?;
    Ok(())
}

/// Rebuilds the tables of a packed file in canonical order, within a transaction. The rows of `volume2` and
/// `span2` are lost, so the caller has to write them anew; those of the other tables stay. Nothing is
/// committed yet, whether it fails or not.
///
/// # Errors
///
/// Those of SQLite if memory runs out, the disk fails, the connection's step limit is met, or a row of spans
/// is too long for its index. The transaction may have been rolled back then.
#[tactic(auto, using(crate::proofs::DropLemmas::remade))]
pub fn rebuild_tables<S: Alter>(tx: &mut Transaction<'_, S>) -> Result<(), Error>
    requires at { Holds S.Store tx.old.conn.now (IsMadeTo TablesPresent.Packed) }
    ensures same_reference { tx.new.conn.ghost_name ≡ tx.old.conn.ghost_name }
    ensures ran { IsRunWithin S.Store tx.old.conn.now tx.new.conn.now result
        (Makes S.Store tx.old.conn.now tx.new.conn.now RemakesTables)
        (Holds S.Store tx.old.conn.now IsDatabase × IsTrue tx.old.conn.now.in_transaction
        × HasSmallSpans (tables_at TablesPresent.Packed (state S.Store tx.old.conn.now).now.trees)) }
{
    unpack(tx)?;
    make_rest(tx, TablesPresent::OldSpans)
}
