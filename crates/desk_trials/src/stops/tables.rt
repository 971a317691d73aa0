//! The rows of a desk's tables, of both schemas.

use crate::stops::content::Content;
use sqlite::{Connection, Row};
use sqlite_trees::store::Alter;
use std::alloc::Global;
use std::fmt::Write;

/// The tables, each with a query that lists its rows.
const TABLES: [(&str, &str); 6] = [
    ("operator", "SELECT * FROM operator ORDER BY name"),
    ("plan", "SELECT * FROM plan ORDER BY operator, id"),
    (
        "volume",
        "SELECT * FROM volume ORDER BY operator, id, place",
    ),
    (
        "span",
        "SELECT * FROM span ORDER BY operator, id, place, first",
    ),
    (
        "volume2",
        "SELECT * FROM volume2 ORDER BY operator, id, place",
    ),
    (
        "span2",
        "SELECT * FROM span2 ORDER BY operator, id, place, first",
    ),
];

/// The rows of each table; one that isn't there has none.
pub fn rows_of<A: Alter + Drop>(
    alloc: Global,
    connection: &mut Connection<A>,
) -> anyhow::Result<Content> {
    let mut content = Content::none(alloc);
    for (table, query) in TABLES {
        let rows = rows_in(alloc, connection, table, query)?;
        content.add_rows(table, &rows)?;
    }
    Ok(content)
}

fn rows_in<A: Alter + Drop>(
    alloc: Global,
    connection: &mut Connection<A>,
    table: &str,
    query: &str,
) -> anyhow::Result<Vec<Row>> {
    if has_table(connection, table) {
        Ok(connection.query_all(query, &[])?)
    } else {
        Ok(Vec::new(alloc))
    }
}

/// Runs statements.
pub fn run_all<A: Alter + Drop>(connection: &mut Connection<A>, sql: &str) -> anyhow::Result<()> {
    connection.execute_batch(sql)?;
    Ok(())
}

/// The texts that a query of one column lists.
pub fn texts_of<A: Alter + Drop>(
    alloc: Global,
    connection: &mut Connection<A>,
    query: &str,
) -> anyhow::Result<Vec<String>> {
    let mut texts = Vec::new(alloc);
    for row in &connection.query_all(query, &[])? {
        texts.push(row.get(0)?)?;
    }
    Ok(texts)
}

// Whether there is a table of this name.
fn has_table<A: Alter + Drop>(connection: &Connection<A>, name: &str) -> bool {
    for table in connection.schema().tables.as_slice() {
        if table.name.as_slice() == name.as_bytes() {
            return true;
        }
    }
    false
}
