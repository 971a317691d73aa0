//! Files that are adopted, and files that are moved from schema 1 to schema 2.

ghost use Rattle.std.specs.Prelude.{◌≡◌, false, IfOk};

use crate::desks::MOMENT;
use crate::disk::{FusedFiles, Image, Left, is_stopped};
use crate::opening::{Fused, close, connect, open};
use crate::stops::content::Content;
use crate::stops::round::{Came, Stop, when};
use crate::stops::tables::{rows_of, run_all, texts_of};
use anyhow::bail;
use desk_run::Desk;
use desk_tables::{OpenFault, SqliteStore, open_word};
use desk_wire::answer;
use sqlite::{Connection, FileStore};
use std::alloc::Global;
use std::fmt::{self, Display, Formatter, Write};

/// What is said of a database.
#[derive(Clone, Copy, Debug, PartialEq, Eq)]
pub enum Reported {
    /// It is adopted.
    Adopted,
    /// It is adopted, and so many plans were moved.
    Moved(u32),
    /// It is refused.
    Refused(OpenFault),
}

impl Reported {
    fn is_refusal(self) -> bool {
        match self {
            Reported::Adopted | Reported::Moved(_) => false,
            Reported::Refused(_) => true,
        }
    }
}

impl Display for Reported {
    fn fmt<W: Write>(&self, f: &mut Formatter<W>) -> fmt::Result {
        match self {
            Reported::Adopted => f.write_str("a desk's tables"),
            Reported::Moved(count) => write!(f, "{count} moved"),
            Reported::Refused(fault) => f.write_str(open_word(fault)),
        }
    }
}

// Adopts a connection: what is reported, and the connection.
fn adopted<D: Fused>(
    alloc: Global,
    connection: Connection<FileStore<D>>,
) -> (Reported, Connection<FileStore<D>>)
    requires settled { connection.in_transaction ≡ false }
{
    match SqliteStore::adopt(alloc, connection) {
        Ok(store) => (Reported::Adopted, store.release()),
        Err(refused) => (Reported::Refused(refused.fault), refused.connection),
    }
}

// Moves what a connection shows to schema 2: what is reported, and the connection.
fn moved<D: Fused>(
    alloc: Global,
    connection: Connection<FileStore<D>>,
) -> (Reported, Connection<FileStore<D>>)
    requires settled { connection.in_transaction ≡ false }
{
    match SqliteStore::adopt_old(alloc, connection) {
        Ok((store, count)) => (Reported::Moved(count), store.release()),
        Err(refused) => (Reported::Refused(refused.fault), refused.connection),
    }
}

// A connection to files of these bytes.
fn connect_to<D: Fused>(alloc: Global, image: &Image<D>) -> anyhow::Result<Connection<FileStore<D>>>
    ensures settled { IfOk result (λ c. c.in_transaction ≡ false) }
{
    match connect::<D>(alloc, image.files(alloc)?) {
        Ok(connection) => Ok(connection),
        Err(_) => bail!("the files can't be opened"),
    }
}

/// The rows in files of these bytes.
pub fn rows_left<D: Fused>(alloc: Global, image: &Image<D>) -> anyhow::Result<Content> {
    let mut connection = connect_to(alloc, image)?;
    rows_of(alloc, &mut connection)
}

// The rows in files of these bytes, and what is reported if they are adopted.
fn state_of<D: Fused>(alloc: Global, image: &Image<D>) -> anyhow::Result<Content> {
    let mut content = rows_left(alloc, image)?;
    let connection = connect_to(alloc, image)?;
    let (reported, _) = adopted(alloc, connection);
    content.report(&reported)?;
    Ok(content)
}

/// Adopts files of these bytes: what is reported, and the rows that the connection shows then.
pub fn adopt_files<D: Fused>(
    alloc: Global,
    image: &Image<D>,
) -> anyhow::Result<(Reported, Content)> {
    let connection = connect_to(alloc, image)?;
    let (reported, mut connection) = adopted(alloc, connection);
    let rows = rows_of(alloc, &mut connection)?;
    Ok((reported, rows))
}

/// Moves files of these bytes to schema 2: what is reported, the rows that the connection shows then, and
/// what the files are.
pub fn move_files<D: Fused>(
    alloc: Global,
    image: &Image<D>,
) -> anyhow::Result<(Reported, Content, Image<D>)> {
    let connection = connect_to(alloc, image)?;
    let (reported, mut connection) = moved(alloc, connection);
    let rows = rows_of(alloc, &mut connection)?;
    let left = Image::left(alloc, close(connection), Left::Synced)?;
    Ok((reported, rows, left))
}

/// What files of these bytes hold before they are moved and afterwards.
pub fn move_edges<D: Fused>(alloc: Global, image: &Image<D>) -> anyhow::Result<(Content, Content)> {
    let before = state_of(alloc, image)?;
    let (_, _, left) = move_files(alloc, image)?;
    let after = state_of(alloc, &left)?;
    Ok((before, after))
}

/// Moves files of which one stops: when that came, and what is left.
pub fn move_stopped<D: Fused>(
    alloc: Global,
    image: &Image<D>,
    stop: Stop,
) -> anyhow::Result<(Came, Content)> {
    let files = image.stopping(alloc, stop.stopped, stop.calls)?;
    let (came, files) = move_over::<D>(alloc, files);
    let left: Image<D> = Image::left(alloc, files, stop.left)?;
    Ok((came, state_of(alloc, &left)?))
}

// Moves files: when one stopped, and the files.
fn move_over<D: Fused>(alloc: Global, files: FusedFiles) -> (Came, FusedFiles) {
    match connect::<D>(alloc, files) {
        Ok(connection) => {
            let (reported, connection) = moved(alloc, connection);
            let mut files = close(connection);
            let came = when(is_stopped(&mut files), !reported.is_refusal());
            (came, files)
        }
        Err(files) => (Came::Unanswered, files),
    }
}

/// Runs statements over files of these bytes: what they are afterwards.
pub fn image_with<D: Fused>(
    alloc: Global,
    image: &Image<D>,
    sql: &str,
) -> anyhow::Result<Image<D>> {
    let mut connection = connect_to(alloc, image)?;
    run_all(&mut connection, sql)?;
    Ok(Image::left(alloc, close(connection), Left::Synced)?)
}

/// The texts that a query of one column lists, over files of these bytes.
pub fn texts_in<D: Fused>(
    alloc: Global,
    image: &Image<D>,
    query: &str,
) -> anyhow::Result<Vec<String>> {
    let mut connection = connect_to(alloc, image)?;
    texts_of(alloc, &mut connection, query)
}

/// What a desk over files of these bytes answers.
pub fn answer_over<D: Fused>(
    alloc: Global,
    image: &Image<D>,
    text: &[u8],
) -> anyhow::Result<Vec<u8>> {
    match open::<D>(alloc, image.files(alloc)?) {
        Ok(store) => Ok(answer(alloc, &mut Desk::new(store), MOMENT, text)?),
        Err(_) => bail!("the files can't be opened"),
    }
}
