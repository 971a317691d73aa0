//! What follows from the definitions. Each function states it as its contract and does nothing. A start opens
//! files and finds their state; it is cut short if the program stops before it ends. A crash state of a
//! connection is a state that the next start can find if the program stops now. What is said of starts holds
//! while the disk returns what was written.

ghost use Rattle.std.specs.Prelude.{◌≡◌, ◌⊎◌, ℕ, List, [], ◌∷◌, map, Bool, Some, IsTrue, IfOk};
ghost use Rattle.uuid.specs.Text.{parsed};
ghost use Rattle.sqlite_value.specs.Order.{Row};
ghost use Rattle.sqlite_store.specs.declared.store.FileStore.{FileStore};
ghost use Rattle.sqlite.specs.{Held.Held, Held.state, State.HasCleanDisk, Files.over_files, Files.AreFoundIn, Files.HoldsDatabase, Files.IsNothing, Tree.Trees, Closing.IsCopied};
ghost use Rattle.sqlite.specs.declared.file.Leftover.{Leftover};
ghost use Rattle.desk_sql.specs.Rows.{Tables, PutsOperator, ClosesPlan};
ghost use Rattle.desk_changes.specs.RowChanges.{PutsPlan, RemovesPlans};
ghost use Rattle.desk_store.specs.World.{Filed, World, text_cmp, LeavesOnly, LeavesOldOr, IsId, IsPlan, IsContent};
ghost use Rattle.desk_store.specs.Changes.{changed_by, IsFitting};
ghost use Rattle.desk_store.specs.declared.change.Change.{Change};
ghost use Rattle.row_codec.specs.Tables.{id_text, aircraft_number, ArePlanSpanRows, AreTables, filed_put};
ghost use Rattle.desk_tables.specs.Store.{own_of, ChangesRows, EnrolsRows, PutsRows, ClosesRows, ClearsRows, IsWithinLimits, IsLeftUnclosed};
ghost use Rattle.table_load.specs.{Opening.IsDatabaseOf, OpeningSteps.HasContent, OpeningSteps.IsCompletedAs, OpeningSteps.IsCutShort, OpeningSteps.IsMovedOn, OpeningSteps.ShowContent, Moving.BeginsMoved};
ghost use Rattle.sqlite_disk.specs.Modelled.{calls_of, start_of};
ghost use Rattle.desk_tables.specs.Copying.{IsMadeIn, IsUnreadIn, LooksIn};
ghost use Rattle.table_load.specs.Files.{HasStoreCollided, IsGuarded, AreRefused, FindsFirst, IsSummed, IsUnread, OpensIn, OpensMoved, MayLeave, IsFoundAfter, BeginsAfter, IsImageLeft, IsLegible, IsRefusedAtRest, RemainsOf};
ghost use Rattle.sqlite_wal.specs.{Recovery.Image, Files.outcomes};
ghost use Rattle.sqlite_disk.specs.declared.Files.{Files};
ghost use Rattle.desk_tables.specs.declared.closing.CheckpointError.{CheckpointError};
ghost use Rattle.table_load.specs.declared.fault.OpenFault.{OpenFault};

use crate::opening::files::FilesFault;
use crate::store::SqliteStore;
use db_file::Ram;
use sqlite::FileStore;
use sqlite_disk::{Calls, Disk, Modelled, Start};
use volume4d::laws::one_shape;

/// The texts of two ids are ordered as the ids are.
pub fn id_texts_are_ordered_as_ids()
    ensures { (one other : List ℕ) → IsId one → IsId other
        → text_cmp (id_text one) (id_text other) ≡ text_cmp one other }
{}

/// If a text is read as an id, this id is valid.
pub fn what_is_read_is_an_id()
    ensures { (text id : List ℕ) → Some id ≡ parsed text → IsId id }
{}

/// The rows of tables stand for at most one database state.
pub fn one_state()
    ensures { (tables : Tables) (one other : World) → IsContent one → IsContent other
        → AreTables tables one → AreTables tables other → one ≡ other }
{
    // A law, which changes nothing: footprints with the same bytes are the same.
    one_shape();
}

/// If the tables of a state are changed as a change says, they are those of the state after it.
pub fn changed_rows_are_the_changed_state()
    ensures { (change : Change) (w : World) (old new : Tables) → IsContent w → IsWithinLimits change
        → AreTables old w → ChangesRows change old new → AreTables new (changed_by change w) }
{}

/// A valid state stays valid after a change that fits it (of a stored plan, for example, the operator is
/// enrolled) and whose values are within their limits.
pub fn a_changed_state_is_valid()
    ensures { (change : Change) (w : World) → IsContent w → IsFitting change w → IsWithinLimits change
        → IsContent (changed_by change w) }
{}

/// If a plan's rows replace those of the same key in the tables of a state, the tables are changed as
/// `Change::Put` of the plan says.
pub fn a_plan_put_changes_rows()
    ensures { (p : Filed) (w : World) (old new : Tables) (spans : List Row) → IsContent w
        → IsPlan p.row → AreTables old w → ArePlanSpanRows p spans
        → PutsPlan (filed_put p spans) old new → PutsRows p old new }
{}

/// If the row of a stored plan is set to closed and its spans are removed, the tables of a state are changed
/// as `Change::Close` of its id says.
pub fn a_plan_closed_changes_rows()
    ensures { (operator id : List ℕ) (p : Filed) (w : World) (old new : Tables) → IsContent w
        → IsId id → AreTables old w → own_of operator id w ≡ p ∷ []
        → ClosesPlan operator (id_text id) p.row.priority (aircraft_number p.row.aircraft) old new
        → ClosesRows operator id old new }
{}

/// If the plans of some ids are removed from the tables of a state, these tables are changed as
/// `Change::Clear` of the ids says.
pub fn plans_removed_change_rows()
    ensures { (operator : List ℕ) (ids : List (List ℕ)) (w : World) (old new : Tables)
        → AreTables old w → RemovesPlans operator (map id_text ids) old new
        → ClearsRows operator ids old new }
{}

/// If an operator's row is set or added in the tables of a state, these tables are changed as `Change::Enrol`
/// says.
pub fn an_operator_put_changes_rows()
    ensures { (name : List ℕ) (ceiling : ℕ) (w : World) (old new : Tables) → IsContent w
        → AreTables old w → PutsOperator name ceiling old new → EnrolsRows name ceiling old new }
{}

/// The state that a start finds in files after a crash is one of the crash states of the connection that
/// wrote them.
pub fn a_start_finds_a_crash_state<D: Disk, E: Disk>()
    ensures { (last : Held (FileStore D D.Disk)) (found : Held (FileStore E E.Disk)) (w : World)
        → IsFoundAfter last found → IsDatabaseOf over_files found w
        → ∥ MayLeave over_files last (Some w) ∥₁ }
{}

/// If a connection has one crash state alone, as it does once a change is answered, a store that is opened
/// after a crash begins with that state. The files are refused only if memory runs out or the disk fails.
pub fn a_store_begins_with_the_only_crash_state<D: Disk, E: Disk>()
    ensures begins { (last : Held (FileStore D D.Disk)) (new : Held (FileStore E E.Disk))
        (w other : World) → LeavesOnly w (MayLeave over_files last) → BeginsAfter last new other
        → other ≡ w }
    ensures taken { (last : Held (FileStore D D.Disk)) (w : World) (e : OpenFault)
        (left : Held (FileStore E E.Disk))
        → LeavesOnly w (MayLeave over_files last) → ¬ IsRefusedAtRest last e left }
{}

/// If a connection has one crash state alone, this also is the only crash state of a start over its files,
/// wherever that is cut short and however it ends. So the first start that isn't cut short begins with it.
pub fn an_interrupted_start_keeps_the_state<D: Disk, E: Disk>()
    ensures opened { (last : Held (FileStore D D.Disk)) (image : Image) (new : Held (FileStore E E.Disk))
        (w : World) → LeavesOnly w (MayLeave over_files last) → IsImageLeft last image
        → IsCutShort IsCompletedAs image new → HasCleanDisk (state over_files new)
        → LeavesOnly w (MayLeave over_files new) }
    ensures moved { (last : Held (FileStore D D.Disk)) (image : Image) (new : Held (FileStore E E.Disk))
        (w : World) → LeavesOnly w (MayLeave over_files last) → IsImageLeft last image
        → IsCutShort IsMovedOn image new → HasCleanDisk (state over_files new)
        → LeavesOnly w (MayLeave over_files new) }
{
    one_state();
}

/// After a start that was cut short anywhere, the next one finds the state that the files had, in either
/// schema. A store that is opened then, by a migration too, begins with that state.
pub fn a_start_after_an_interrupted_one_finds_the_state<D: Disk, E: Disk>()
    ensures found { (image : Image) (w : World) (cut : Held (FileStore D D.Disk))
        (found : Held (FileStore E E.Disk)) → ShowContent D.Disk image w → IsCutShort IsMovedOn image cut
        → HasCleanDisk (state over_files cut) → IsFoundAfter cut found
        → ∥ HasContent w (state over_files found).now ∥₁ }
    ensures begins { (found new : Held (FileStore E E.Disk)) (w other : World) (count : ℕ)
        → HasContent w (state over_files found).now → HasCleanDisk (state over_files new)
        → IsTrue (state over_files new).is_open → BeginsMoved over_files found new other count
        → other ≡ w }
{
    // A law, which changes nothing: footprints with the same bytes are the same.
    one_shape();
}

/// If opening files fails or is cut short before there is a connection, the files have the same database as
/// before. Files without a database still have none then, or the one that opening them would find.
pub fn a_failed_opening_keeps_the_database<D: Disk>()
    ensures held { (image next : Image) (it : Leftover D D.Disk) (db : Trees) → HoldsDatabase image db
        → RemainsOf image it next → ∥ HoldsDatabase next db ∥₁ }
    ensures none { (image next : Image) (it : Leftover D D.Disk) → IsNothing image
        → RemainsOf image it next
        → IsNothing next ⊎ ∥ ((db : Trees) × HoldsDatabase next db × AreFoundIn image db) ∥₁ }
{}

/// If opening files failed or was cut short before there was a connection, the next start finds what it would
/// have found without that. So what holds for a start after a crash also holds for it.
pub fn a_start_after_a_failed_opening_finds_the_database<D: Disk, E: Disk, F: Disk>()
    ensures found { (image next : Image) (it : Leftover E E.Disk) (found : Held (FileStore F F.Disk))
        (db : Trees) → HoldsDatabase image db → RemainsOf image it next → FindsFirst next found
        → ∥ FindsFirst image found ∥₁ }
    ensures after { (last : Held (FileStore D D.Disk)) (image next : Image) (it : Leftover E E.Disk)
        (found : Held (FileStore F F.Disk)) → IsImageLeft last image → RemainsOf image it next
        → FindsFirst next found → ∥ IsFoundAfter last found ∥₁ }
{}

/// Files whose statistics are read, or that are copied, keep their database as it was, wherever that is cut
/// short.
pub fn reading_keeps_the_database<D: Disk>()
    ensures read { (image : Image) (left : Held (FileStore D D.Disk)) (old : Bool) (w : World)
        → LooksIn image left old w → IsCutShort (λ _ _. ⊥) image left }
    ensures unread { (image : Image) (e : OpenFault) (left : Held (FileStore D D.Disk))
        → IsUnreadIn image e left → IsCutShort (λ _ _. ⊥) image left }
{}

/// If a connection has one crash state alone, it still is the only one after a checkpoint that failed, and a
/// start over the files that a close returned finds no other.
pub fn a_close_keeps_the_state<D: Disk, E: Disk>()
    ensures unclosed { (last : Held (FileStore D D.Disk)) (it : CheckpointError D D.Disk) (w : World)
        → LeavesOnly w (MayLeave over_files last) → IsLeftUnclosed last it
        → LeavesOnly w (MayLeave over_files (record last { store = it.left })) }
    ensures closed { (last : Held (FileStore D D.Disk)) (files : Files D) (image : Image)
        (found : Held (FileStore E E.Disk)) (w other : World)
        → LeavesOnly w (MayLeave over_files last) → IsCopied last files
        → outcomes D.Disk files.log files.db image → FindsFirst image found
        → IsDatabaseOf over_files found other → other ≡ w }
{}

/// Files of a connection with one crash state alone are never refused as an invalid database or as one of
/// schema 1. `refused` is what opening them reported; its connection, if it has one, is open and its disk
/// intact.
pub fn a_valid_database_is_not_refused<D: Disk, E: Disk>(refused: &FilesFault<E>)
    ensures { (last : Held (FileStore D D.Disk)) (image : Image) (w : World)
        → LeavesOnly w (MayLeave over_files last) → IsImageLeft last image
        → AreRefused image refused.now.fault refused.now.connection
        → IfOk refused.now.connection IsLegible → IsUnread refused.now.fault }
{}

/// As long as the disk of a store over files returned what was written, each later read is compared with a
/// digest. In new files, pages have checksums.
pub fn a_store_over_files_is_guarded<D: Disk>()
    ensures opened { (image : Image) (h : Held (FileStore D D.Disk)) (w : World) → OpensIn image h w
        → IsGuarded h × IsSummed image h }
    ensures moved { (image : Image) (h : Held (FileStore D D.Disk)) (w : World) (count : ℕ)
        → OpensMoved image h w count → IsGuarded h }
    ensures made { (image : Image) (h : Held (FileStore D D.Disk)) → IsMadeIn image h
        → IsGuarded h × IsSummed image h }
{}

/// After a crash during a change, a store begins with the state before the change or with the one after it.
/// The files are refused only if memory runs out or the disk fails.
pub fn a_store_begins_with_the_old_or_the_new<D: Disk, E: Disk>()
    ensures begins { (old last : Held (FileStore D D.Disk)) (new : Held (FileStore E E.Disk))
        (before after other : World) → LeavesOnly before (MayLeave over_files old)
        → LeavesOldOr after (MayLeave over_files old) (MayLeave over_files last)
        → BeginsAfter last new other → ∥ (other ≡ before) ⊎ (other ≡ after) ∥₁ }
    ensures taken { (old last : Held (FileStore D D.Disk)) (before after : World) (e : OpenFault)
        (left : Held (FileStore E E.Disk))
        → LeavesOnly before (MayLeave over_files old)
        → LeavesOldOr after (MayLeave over_files old) (MayLeave over_files last)
        → ¬ IsRefusedAtRest last e left }
{}

/// The disk of a store in memory always returns what was written.
pub fn a_store_in_memory_is_intact(store: &SqliteStore<FileStore<Ram>>)
    ensures { HasCleanDisk (state over_files store.now.held) }
{}

/// If each read of a store over files is compared with a digest, the disk always returned what was written,
/// or a read returned other bytes with the same digest of 64 bits.
pub fn a_store_that_compares_digests_is_intact<C: Calls, S: Start>(
    store: &SqliteStore<FileStore<Modelled<C, S>>>,
)
    ensures { (state over_files store.now.held).IsShielded
        → HasCleanDisk (state over_files store.now.held)
        ⊎ HasStoreCollided (start_of S.Start) (λ f. C.Calls.history (calls_of f)) store.now.held }
{}
