//! Whether a database has the tables and indexes of the schema, part by part.
//!
//! A form describes one part as the desk makes it: a column, a foreign key, a table or an index. It is
//! compared with the part that SQLite found in the file. Columns are numbered from 1, since column 0 is the
//! rowid. The b-trees of tables and indexes are numbered from 0; those of a desk end with 13. A leaf index is
//! an index over the leaf positions of a table of spans.
//!
//! Other tables, indexes and views may be listed behind all of a desk's. They stand apart if no foreign key
//! refers to one of the desk's tables and no index is on one.

ghost use Rattle.std.specs.Prelude.{◌≡◌, ◌↔◌, ◌<◌, ◌-◌, ◌^◌, [], ◌∷◌, IsTrue, MatchOption, map};
ghost use Rattle.sqlite_value.specs.Keys.{plain};
ghost use Rattle.std.specs.List.{list_all};
ghost use Rattle.desk_sql.specs.Schema.{is_own_name, refers_elsewhere, are_tables_apart, is_index_apart, IsDeskSchema, IsSchemaOf, column_of, leaf_index_of, schema_of, no_stamps, without_extras, plain_table, key_index, column_from, name_from, reference_from, table_from, tables_from, index_from, schema_from};

use crate::opening::finding::TablesPresent;
use crate::opening::objects::{ColumnForm, DeskObject, ReferenceForm, TableForm, objects};
use sqlite_items::Items;
use sqlite_schema::names::same_name;
use sqlite_schema::schema::{Action, Column, Index, Kind, Reference, Schema, Stamps, Table};
use sqlite_value::keys::{Collation, Order};
use sqlite_value::value::{Bytes, Value};

/// The form of one part of a schema, such as a column or an index: `stands_for` is that part.
trait FormOf<T> {
    ghost stands_for: { Self → T };

    /// Whether `found` equals the part that this form describes, in all its fields.
    fn describes(&self, found: &T) -> bool
        ensures { IsTrue result ↔ (found.now ≡ stands_for self.now) };
}

// Whether `found` are the parts that `forms` describe, in this order, and no others.
fn all_match<T, F: FormOf<T>>(found: &[T], forms: &[F]) -> bool
    ensures { IsTrue result ↔ (found.now ≡ map F.stands_for forms.now) }
{
    match (found, forms) {
        ([], []) => true,
        ([one, others @ ..], [form, more @ ..]) => form.describes(one) && all_match(others, more),
        _ => false,
    }
}

// Whether `column` has this name and type, is of a STRICT table, takes no NULL, has no default, and is
// compared by its bytes.
fn is_column(column: &Column, name: &[u8], kind: Kind) -> bool
    ensures { IsTrue result ↔ (column.now ≡ column_of name.now kind) }
{
    column.name.as_slice() == name
        && column.kind == kind
        && column.is_strict
        && column.not_null
        && matches!(column.default, Value::Null)
        && column.collation == Collation::Binary
}

// As a part of a table, a column form stands for the column with its name and type.
impl FormOf<Column> for ColumnForm {
    ghost stands_for = { column_from };

    // Whether `found` is the column with this form's name and type.
    fn describes(&self, found: &Column) -> bool {
        match self {
            ColumnForm::OfText(name) => is_column(found, name, Kind::Text),
            ColumnForm::OfNumber(name) => is_column(found, name, Kind::Integer),
            ColumnForm::OfBytes(name) => is_column(found, name, Kind::Blob),
        }
    }
}

// As a part of a foreign key, a column form stands for its name alone.
impl FormOf<Bytes> for ColumnForm {
    ghost stands_for = { name_from };

    // Whether `found` is this form's name.
    fn describes(&self, found: &Bytes) -> bool {
        match self {
            ColumnForm::OfText(name) | ColumnForm::OfNumber(name) | ColumnForm::OfBytes(name) => {
                is_name(found, name)
            }
        }
    }
}

// Whether the column numbers `found` are `places`, in this order.
fn are_places(found: &Items<usize>, places: &[usize]) -> bool
    ensures { IsTrue result ↔ (found.now ≡ places.now) }
{
    found.as_slice() == places
}

// Whether the text `found` is `name`, in the same case.
fn is_name(found: &Bytes, name: &[u8]) -> bool
    ensures { IsTrue result ↔ (found.now ≡ name.now) }
{
    found.as_slice() == name
}

// Whether `keys` is one key alone, of the columns with the numbers `places`.
fn is_only_key(keys: &[Items<usize>], places: &[usize]) -> bool
    ensures { IsTrue result ↔ (keys.now ≡ places.now ∷ []) }
{
    match keys {
        [key] => are_places(key, places),
        _ => false,
    }
}

// Whether `orders` is the order of one key alone, in which every column ascends by its bytes (`digits` is 0).
fn is_only_plain(orders: &[Order]) -> bool
    ensures { IsTrue result ↔ (orders.now ≡ plain ∷ []) }
{
    match orders {
        [order] => order.digits == 0,
        _ => false,
    }
}

// Whether no column has the current time as its default: the library `sqlite` lists these in `stamps`.
fn has_no_stamps(stamps: &Stamps) -> bool
    ensures { IsTrue result ↔ (stamps.now ≡ no_stamps) }
{
    stamps.places.is_empty() && stamps.terms.roots.is_empty() && stamps.formats.is_empty()
}

// Whether `table` has no INTEGER PRIMARY KEY, no CHECK, no default that is computed, and no AUTOINCREMENT.
fn has_no_extras(table: &Table) -> bool
    ensures { IsTrue result ↔ (table.now ≡ without_extras table.now) }
{
    table.key.is_none()
        && table.checks.roots.is_empty()
        && table.computed.is_empty()
        && has_no_stamps(&table.stamps)
        && !table.is_counted
}

// Whether `table` has this name, b-tree and primary key (`key` has the numbers of its columns), and nothing
// else but columns and foreign keys, which aren't looked at.
fn is_plain_table(table: &Table, name: &[u8], tree: u32, key: &[usize]) -> bool
    ensures { IsTrue result ↔ (table.now ≡ plain_table table.now name.now tree key.now) }
{
    is_name(&table.name, name)
        && table.tree == tree
        && are_places(&table.primary, key)
        && is_only_key(table.uniques.as_slice(), key)
        && is_only_plain(table.orders.as_slice())
        && has_no_extras(table)
}

// A foreign key form stands for one that is not deferred and has no action on an update.
impl FormOf<Reference> for ReferenceForm {
    ghost stands_for = { reference_from };

    // Whether `found` is the foreign key of this form.
    fn describes(&self, found: &Reference) -> bool {
        are_places(&found.columns, self.places)
            && is_name(&found.parent, self.parent)
            && all_match(found.parent_columns.as_slice(), self.parent_columns)
            && found.on_delete == self.on_delete
            && found.on_update == Action::NoAction
            && !found.is_deferred
    }
}

// Whether `table` is the one that `form` describes, with all its columns and foreign keys, in the b-tree
// `tree`.
fn is_table(table: &Table, form: &TableForm, tree: u32) -> bool
    ensures { IsTrue result ↔ (table.now ≡ table_from form.now tree) }
{
    is_plain_table(table, form.name, tree, form.key)
        && all_match(table.columns.as_slice(), form.columns)
        && all_match(table.references.as_slice(), form.references)
}

// Whether `tables` are the tables among `objects`, in their order, and no others. Indexes are passed over.
fn are_tables(tables: &[Table], objects: &[DeskObject]) -> bool
    ensures { IsTrue result ↔ (tables.now ≡ tables_from objects.now) }
{
    let [object, others @ ..] = objects else {
        return tables.is_empty();
    };
    match object {
        DeskObject::LeafIndex { .. } => are_tables(tables, others),
        DeskObject::KeyedTable(form, tree) => match tables {
            [table, more @ ..] => is_table(table, form, *tree) && are_tables(more, others),
            [] => false,
        },
    }
}

// Whether `index` is the one that SQLite makes for the primary key of `form`: unique, ascending, and in the
// b-tree after that of the table, which is `table`.
fn is_key_index(index: &Index, form: &TableForm, table: u32) -> bool
    ensures { IsTrue result ↔ (index.now ≡ key_index form.now.key_index.now table form.now.key.now) }
{
    is_name(&index.name, form.key_index)
        && index.tree.checked_sub(1) == Some(table)
        && index.table == table
        && are_places(&index.columns, form.key)
        && index.order.digits == 0
        && index.is_unique
}

// Whether `index` is the leaf index `name`, in the b-tree `tree`, of the table of spans in the b-tree
// `table`: not unique, ascending, over `first`, `last`, `lower`, `upper`, `start`, `stop`, `priority`,
// `operator` and `id`.
fn is_leaf_index(index: &Index, name: &[u8], tree: u32, table: u32) -> bool
    ensures { IsTrue result ↔ (index.now ≡ record (leaf_index_of name.now table) { tree = tree }) }
{
    is_name(&index.name, name)
        && index.tree == tree
        && index.table == table
        && are_places(&index.columns, [4, 5, 6, 7, 8, 9, 10, 1, 2].as_slice())
        && index.order.digits == 0
        && !index.is_unique
}

// As an index, a leaf index stands for itself, and a table for the index of its primary key.
impl FormOf<Index> for DeskObject {
    ghost stands_for = { index_from };

    // Whether `found` is that index, in its b-tree.
    fn describes(&self, found: &Index) -> bool {
        match self {
            DeskObject::KeyedTable(form, tree) => is_key_index(found, form, *tree),
            DeskObject::LeafIndex { form, tree, table } => {
                is_leaf_index(found, form.name, *tree, *table)
            }
        }
    }
}

// Whether the database has no view. The library `sqlite` lists as a view also what it can't read, such as a
// trigger.
fn has_no_views(schema: &Schema) -> bool
    ensures { IsTrue result ↔ (schema.now.views ≡ []) }
{
    schema.views.is_empty()
}

// Whether the database has the tables and indexes `objects`, in this order, and nothing else.
fn has_objects(schema: &Schema, objects: &[DeskObject]) -> bool
    ensures { IsTrue result ↔ (schema.now ≡ schema_from objects.now) }
{
    are_tables(schema.tables.as_slice(), objects)
        && all_match(schema.indexes.as_slice(), objects)
        && has_no_views(schema)
}

// Whether `name` is the name of one of the desk's tables. Upper and lower case don't matter, as in SQLite.
fn is_own_name(name: &[u8]) -> bool
    ensures { result ≡ is_own_name name.now }
{
    same_name(b"operator", name)
        || same_name(b"plan", name)
        || same_name(b"volume", name)
        || same_name(b"span", name)
        || same_name(b"volume2", name)
        || same_name(b"span2", name)
}

// Whether none of the foreign keys `references` refers to one of the desk's tables.
fn refer_elsewhere(references: &[Reference]) -> bool
    ensures { result ≡ list_all refers_elsewhere references.now }
{
    references
        .iter()
        .all(|reference| !is_own_name(reference.parent.as_slice()))
}

// Whether `tables` stand apart from the desk's: the numbers of their b-trees ascend, all above `last`, and
// none of their foreign keys refers to one of the desk's tables.
fn are_tables_apart(tables: &[Table], last: u32) -> bool
    ensures { result ≡ are_tables_apart last tables.now }
{
    let mut before = last;
    'tables: for table in tables {
        if table.tree <= before || !refer_elsewhere(table.references.as_slice()) {
            return false;
        }
        before = table.tree;
    }
    true
}

// Whether none of `indexes` is on one of the desk's tables, whose b-trees have numbers up to 13.
fn are_indexes_apart(indexes: &[Index]) -> bool
    ensures { result ≡ list_all is_index_apart indexes.now }
{
    indexes.iter().all(|index| index.table > 13)
}

// Whether the database has all 6 tables and 8 indexes of a desk, in canonical order, and all others stand
// apart behind them. Views need no test: a table with a trigger is listed among them, and none of the desk's
// is.
fn is_desk(schema: &Schema) -> bool
    ensures { IsTrue result ↔ IsDeskSchema schema.now }
{
    let own = objects(TablesPresent::All);
    if schema.tables.len() < 6 || schema.indexes.len() < 8 {
        return false;
    }
    let (tables, other_tables) = schema.tables.as_slice().split_at(6);
    let (indexes, other_indexes) = schema.indexes.as_slice().split_at(8);
    are_tables(tables, own)
        && all_match(indexes, own)
        && are_tables_apart(other_tables, 13)
        && are_indexes_apart(other_indexes)
}

// Whether the database has the tables and indexes of `made` and nothing else; but if `made` is `All`, others
// may stand apart behind them.
fn is_made(schema: &Schema, made: TablesPresent) -> bool
    ensures { IsTrue result ↔ IsSchemaOf made schema.now }
{
    match made {
        TablesPresent::All => is_desk(schema),
        made => has_objects(schema, objects(made)),
    }
}

/// Which tables and indexes of the schema the database has. `None` if it has anything else, but for what
/// stands apart behind all of a desk's, or if it lists them in an order that is neither canonical nor packed.
pub(crate) fn tables_present(schema: &Schema) -> Option<TablesPresent>
    ensures { MatchOption result ((made : TablesPresent) → ¬ IsSchemaOf made schema.now)
        (λ made. IsSchemaOf made schema.now) }
{
    'steps: for made in [
        TablesPresent::All,
        TablesPresent::Spans,
        TablesPresent::Volumes,
        TablesPresent::OldIndex,
        TablesPresent::OldSpans,
        TablesPresent::OldVolumes,
        TablesPresent::Plans,
        TablesPresent::Operators,
        TablesPresent::Nothing,
        TablesPresent::Packed,
    ] {
        if is_made(schema, made) {
            return Some(made);
        }
    }
    None
}
