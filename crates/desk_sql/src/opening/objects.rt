//! The tables and indexes of the schema, in canonical and in packed order: how each is made, and how it is
//! recognized.
//!
//! Canonical order is that in which the desk makes them. In packed order all tables come before the indexes,
//! as after a VACUUM. Columns are numbered from 1. Each table and index has a b-tree; these are numbered from
//! 0, in the order of the list, and the index of a table's primary key comes next to its table.

ghost use Rattle.std.specs.Prelude.{◌≡◌};
ghost use Rattle.desk_sql.specs.Schema.{schema_from, schema_of};

use crate::opening::finding::TablesPresent;
use sqlite_schema::schema::{Action, Kind};

/// A column of a STRICT table, which takes no NULL and has no default, by its type and name.
#[derive(Clone, Copy)]
pub(crate) enum ColumnForm {
    OfText(&'static [u8]),
    OfNumber(&'static [u8]),
    OfBytes(&'static [u8]),
}

/// A foreign key of the columns `places` to the columns `parent_columns` of the table `parent`.
#[derive(Clone, Copy)]
pub(crate) struct ReferenceForm {
    /// The numbers of the columns that refer.
    pub(crate) places: &'static [usize],
    pub(crate) parent: &'static [u8],
    pub(crate) parent_columns: &'static [ColumnForm],
    pub(crate) on_delete: Action,
}

/// A table.
#[derive(Clone, Copy)]
pub(crate) struct TableForm {
    pub(crate) name: &'static [u8],
    pub(crate) columns: &'static [ColumnForm],
    /// The numbers of its primary key's columns.
    pub(crate) key: &'static [usize],
    /// The name of the index that SQLite makes for the key.
    pub(crate) key_index: &'static [u8],
    pub(crate) references: &'static [ReferenceForm],
    /// The statement that makes it.
    pub(crate) sql: &'static str,
}

/// A leaf index: over `first` and then the other columns of a table of spans, so that spans are found by
/// their leaves.
#[derive(Clone, Copy)]
pub(crate) struct LeafForm {
    pub(crate) name: &'static [u8],
    /// The statement that makes it.
    pub(crate) sql: &'static str,
}

/// A table or an index that one statement makes, with the number of its b-tree.
#[derive(Clone, Copy)]
pub(crate) enum DeskObject {
    /// A table. The index of its primary key has the next b-tree.
    KeyedTable(TableForm, u32),
    /// An index over the leaves of the spans in the b-tree `table`.
    LeafIndex {
        form: LeafForm,
        tree: u32,
        table: u32,
    },
}

const NAME: ColumnForm = ColumnForm::OfText(b"name");

const CEILING: ColumnForm = ColumnForm::OfNumber(b"ceiling");

const OPERATOR: ColumnForm = ColumnForm::OfText(b"operator");

const ID: ColumnForm = ColumnForm::OfText(b"id");

const PRIORITY: ColumnForm = ColumnForm::OfNumber(b"priority");

const USAGE: ColumnForm = ColumnForm::OfNumber(b"usage");

const AIRCRAFT: ColumnForm = ColumnForm::OfNumber(b"aircraft");

const PLACE: ColumnForm = ColumnForm::OfNumber(b"place");

const LOWER: ColumnForm = ColumnForm::OfNumber(b"lower");

const UPPER: ColumnForm = ColumnForm::OfNumber(b"upper");

const START: ColumnForm = ColumnForm::OfNumber(b"start");

const STOP: ColumnForm = ColumnForm::OfNumber(b"stop");

const ASKED: ColumnForm = ColumnForm::OfBytes(b"asked");

const CANON: ColumnForm = ColumnForm::OfBytes(b"canon");

const FIRST: ColumnForm = ColumnForm::OfNumber(b"first");

const LAST: ColumnForm = ColumnForm::OfNumber(b"last");

const TO_OPERATOR: ReferenceForm = ReferenceForm {
    places: &[1],
    parent: b"operator",
    parent_columns: &[NAME],
    on_delete: Action::NoAction,
};

const TO_PLAN: ReferenceForm = ReferenceForm {
    places: &[1, 2],
    parent: b"plan",
    parent_columns: &[OPERATOR, ID],
    on_delete: Action::Cascade,
};

pub(crate) const OPERATOR_TABLE: TableForm = TableForm {
    name: b"operator",
    columns: &[NAME, CEILING],
    key: &[1],
    key_index: b"sqlite_autoindex_operator_1",
    references: &[],
    sql: "CREATE TABLE operator (name TEXT NOT NULL, ceiling INTEGER NOT NULL, PRIMARY KEY (name)) STRICT",
};

pub(crate) const PLAN_TABLE: TableForm = TableForm {
    name: b"plan",
    columns: &[OPERATOR, ID, PRIORITY, USAGE, AIRCRAFT],
    key: &[1, 2],
    key_index: b"sqlite_autoindex_plan_1",
    references: &[TO_OPERATOR],
    sql: "CREATE TABLE plan (operator TEXT NOT NULL, id TEXT NOT NULL, priority INTEGER NOT NULL, \
          usage INTEGER NOT NULL, aircraft INTEGER NOT NULL, PRIMARY KEY (operator, id), \
          FOREIGN KEY (operator) REFERENCES operator (name)) STRICT",
};

pub(crate) const OLD_VOLUME_TABLE: TableForm = TableForm {
    name: b"volume",
    columns: &[OPERATOR, ID, PLACE, LOWER, UPPER, START, STOP, ASKED],
    key: &[1, 2, 3],
    key_index: b"sqlite_autoindex_volume_1",
    references: &[TO_PLAN],
    sql: "CREATE TABLE volume (operator TEXT NOT NULL, id TEXT NOT NULL, place INTEGER NOT NULL, \
          lower INTEGER NOT NULL, upper INTEGER NOT NULL, start INTEGER NOT NULL, \
          stop INTEGER NOT NULL, asked BLOB NOT NULL, PRIMARY KEY (operator, id, place), \
          FOREIGN KEY (operator, id) REFERENCES plan (operator, id) ON DELETE CASCADE) STRICT",
};

pub(crate) const OLD_SPAN_TABLE: TableForm = TableForm {
    name: b"span",
    columns: &[
        OPERATOR, ID, PLACE, FIRST, LAST, LOWER, UPPER, START, STOP, PRIORITY,
    ],
    key: &[1, 2, 3, 4],
    key_index: b"sqlite_autoindex_span_1",
    references: &[TO_PLAN],
    sql: "CREATE TABLE span (operator TEXT NOT NULL, id TEXT NOT NULL, place INTEGER NOT NULL, \
          first INTEGER NOT NULL, last INTEGER NOT NULL, lower INTEGER NOT NULL, \
          upper INTEGER NOT NULL, start INTEGER NOT NULL, stop INTEGER NOT NULL, \
          priority INTEGER NOT NULL, PRIMARY KEY (operator, id, place, first), \
          FOREIGN KEY (operator, id) REFERENCES plan (operator, id) ON DELETE CASCADE) STRICT",
};

pub(crate) const VOLUME_TABLE: TableForm = TableForm {
    name: b"volume2",
    columns: &[OPERATOR, ID, PLACE, LOWER, UPPER, START, STOP, ASKED, CANON],
    key: &[1, 2, 3],
    key_index: b"sqlite_autoindex_volume2_1",
    references: &[TO_PLAN],
    sql: "CREATE TABLE volume2 (operator TEXT NOT NULL, id TEXT NOT NULL, place INTEGER NOT NULL, \
          lower INTEGER NOT NULL, upper INTEGER NOT NULL, start INTEGER NOT NULL, \
          stop INTEGER NOT NULL, asked BLOB NOT NULL, canon BLOB NOT NULL, \
          PRIMARY KEY (operator, id, place), \
          FOREIGN KEY (operator, id) REFERENCES plan (operator, id) ON DELETE CASCADE) STRICT",
};

pub(crate) const SPAN_TABLE: TableForm = TableForm {
    name: b"span2",
    columns: &[
        OPERATOR, ID, PLACE, FIRST, LAST, LOWER, UPPER, START, STOP, PRIORITY,
    ],
    key: &[1, 2, 3, 4],
    key_index: b"sqlite_autoindex_span2_1",
    references: &[TO_PLAN],
    sql: "CREATE TABLE span2 (operator TEXT NOT NULL, id TEXT NOT NULL, place INTEGER NOT NULL, \
          first INTEGER NOT NULL, last INTEGER NOT NULL, lower INTEGER NOT NULL, \
          upper INTEGER NOT NULL, start INTEGER NOT NULL, stop INTEGER NOT NULL, \
          priority INTEGER NOT NULL, \
          PRIMARY KEY (operator, id, place, first), \
          FOREIGN KEY (operator, id) REFERENCES plan (operator, id) ON DELETE CASCADE) STRICT",
};

pub(crate) const OLD_LEAVES: LeafForm = LeafForm {
    name: b"span_first",
    sql: "CREATE INDEX span_first ON span \
          (first, last, lower, upper, start, stop, priority, operator, id)",
};

// It also has all columns that the query of rivals reads, so that this query reads the index alone.
pub(crate) const LEAVES: LeafForm = LeafForm {
    name: b"span2_first",
    sql: "CREATE INDEX span2_first ON span2 \
          (first, last, lower, upper, start, stop, priority, operator, id)",
};

// All tables and indexes in canonical order, in which the desk makes them.
static OWN: [DeskObject; 8] = [
    DeskObject::KeyedTable(OPERATOR_TABLE, 0),
    DeskObject::KeyedTable(PLAN_TABLE, 2),
    DeskObject::KeyedTable(OLD_VOLUME_TABLE, 4),
    DeskObject::KeyedTable(OLD_SPAN_TABLE, 6),
    DeskObject::LeafIndex {
        form: OLD_LEAVES,
        tree: 8,
        table: 6,
    },
    DeskObject::KeyedTable(VOLUME_TABLE, 9),
    DeskObject::KeyedTable(SPAN_TABLE, 11),
    DeskObject::LeafIndex {
        form: LEAVES,
        tree: 13,
        table: 11,
    },
];

// All tables and indexes in packed order: the tables before the indexes.
static PACKED: [DeskObject; 8] = [
    DeskObject::KeyedTable(OPERATOR_TABLE, 0),
    DeskObject::KeyedTable(PLAN_TABLE, 2),
    DeskObject::KeyedTable(OLD_VOLUME_TABLE, 4),
    DeskObject::KeyedTable(OLD_SPAN_TABLE, 6),
    DeskObject::KeyedTable(VOLUME_TABLE, 8),
    DeskObject::KeyedTable(SPAN_TABLE, 10),
    DeskObject::LeafIndex {
        form: OLD_LEAVES,
        tree: 12,
        table: 6,
    },
    DeskObject::LeafIndex {
        form: LEAVES,
        tree: 13,
        table: 10,
    },
];

/// The tables and indexes of `made`, in the order in which the file lists them: in packed order if `made` is
/// `Packed`, else in canonical order.
#[tactic(auto, unfolding(sqlite_tied::specs::Compute::everything))]
pub(crate) fn objects(made: TablesPresent) -> &'static [DeskObject]
    ensures { schema_from result.now ≡ schema_of made }
{
    let count = match made {
        TablesPresent::Nothing => 0,
        TablesPresent::Operators => 1,
        TablesPresent::Plans => 2,
        TablesPresent::OldVolumes => 3,
        TablesPresent::OldSpans => 4,
        TablesPresent::OldIndex => 5,
        TablesPresent::Volumes => 6,
        TablesPresent::Spans => 7,
        TablesPresent::All | TablesPresent::Packed => 8,
    };
    let order = if made.is_packed() { &PACKED } else { &OWN };
    order.split_at(count).0
}
