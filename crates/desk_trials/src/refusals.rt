//! Calls that grow, each made again if it was refused for want of memory: single calls of the ground, the
//! reading and the writing, and calls to desks over a list and over tables. What is printed is the same
//! whichever growth was refused; and a call that was refused at a desk has to leave what a List of each
//! operator answers. How many calls were refused goes to standard error.
//! The tables are in a store of memory without files: one over files is shut by a growth that is refused to
//! them, so that no call could be made again there.
//! Nothing is asked of standard input, since what is read would have to grow too.

ghost use Rattle.std.specs.Prelude.{◌≡◌, false, IfOk};

mod adopting;
mod asked;
mod count;
mod ground;
mod playing;
mod stand;

use adopting::{adopt, connect, move_old, put_back, settled};
use anyhow::bail;
use count::Refusals;
use desk_store::{ListStore, PlanStore};
use ground::play_ground;
use playing::{play_desk, show_desk};
use sqlite::Connection;
use sqlite_trees::store::Alter;
use stand::Stand;
use std::alloc::Global;
use std::io::Write;

/// Makes all calls.
pub fn play<W: Write>(rt: &HostRuntime, output: &mut W) -> anyhow::Result<()> {
    let mut refusals = Refusals::none();
    make_calls(rt.alloc(), &mut refusals, output)?;
    eprintln!(rt; "{refusals}")?;
    Ok(())
}

fn make_calls<W: Write>(
    alloc: Global,
    refusals: &mut Refusals,
    output: &mut W,
) -> anyhow::Result<()> {
    output.write_all(b"ground\n")?;
    play_ground(alloc, refusals, output)?;
    output.write_all(b"over a list\n")?;
    play_list(alloc, refusals, output)?;
    output.write_all(b"over tables\n")?;
    let connection = connect(alloc, refusals)?;
    play_tables(alloc, connection, refusals, output)
}

// Plays at a desk over a list.
fn play_list<W: Write>(
    alloc: Global,
    refusals: &mut Refusals,
    output: &mut W,
) -> anyhow::Result<()> {
    let mut stand = Stand::new(alloc, ListStore::new(alloc));
    play_desk(&mut stand, refusals, output)
}

// Plays at a desk over new tables, and shows what is there once they are adopted again, and once they are
// moved from schema 1.
fn play_tables<A: Alter + Drop, W: Write>(
    alloc: Global,
    connection: Connection<A>,
    refusals: &mut Refusals,
    output: &mut W,
) -> anyhow::Result<()>
    requires settled { connection.in_transaction ≡ false }
{
    let connection = play_new(alloc, connection, refusals, output)?;
    let connection = show_again(alloc, connection, refusals, output)?;
    output.write_all(b"moved\n")?;
    show_moved(alloc, connection, refusals, output)
}

// Plays at a desk over new tables: the connection afterwards.
fn play_new<A: Alter + Drop, W: Write>(
    alloc: Global,
    connection: Connection<A>,
    refusals: &mut Refusals,
    output: &mut W,
) -> anyhow::Result<Connection<A>>
    requires settled { connection.in_transaction ≡ false }
    ensures settled { IfOk result (λ connection. connection.in_transaction ≡ false) }
{
    let mut stand = Stand::new(alloc, adopt(alloc, connection, refusals)?);
    play_desk(&mut stand, refusals, output)?;
    settled(stand.into_store().release())
}

// Shows what is in tables that are adopted again: the connection afterwards.
fn show_again<A: Alter + Drop, W: Write>(
    alloc: Global,
    connection: Connection<A>,
    refusals: &mut Refusals,
    output: &mut W,
) -> anyhow::Result<Connection<A>>
    requires settled { connection.in_transaction ≡ false }
{
    let mut stand = Stand::new(alloc, adopt(alloc, connection, refusals)?);
    show_desk(&mut stand, refusals, output)?;
    Ok(stand.into_store().release())
}

// Puts the rows back into schema 1, moves them again, and shows what is there.
fn show_moved<A: Alter + Drop, W: Write>(
    alloc: Global,
    connection: Connection<A>,
    refusals: &mut Refusals,
    output: &mut W,
) -> anyhow::Result<()> {
    let connection = put_back(connection, refusals)?;
    let (store, count) = move_old(alloc, connection, refusals)?;
    if count != 1 {
        bail!("{count} plans are moved, and there is one");
    }
    show_desk(&mut Stand::new(alloc, store), refusals, output)
}
