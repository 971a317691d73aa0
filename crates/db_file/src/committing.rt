//! Rewrites the first page of a database in one commit, so that it lists the tables in canonical order.

ghost use Rattle.std.specs.Prelude.{◌≡◌, IfErr, IfOk, IfSome, IsSome, IsTrue, OnOk, is_ok};
ghost use Rattle.sqlite_pager.specs.Pager.{AreUsable, image, state, visible};
ghost use Rattle.sqlite_wal.specs.{Files.image_at, Outcome.FailsFor, PageSize.bytes_of, Recovery.Image, Recovery.IsUnreadable, State.IsSettled, State.StaysOrFails};
ghost use Rattle.db_file.specs.Orders as spec;
ghost use Rattle.db_file.specs.Orders.{AreAsOpened, IsInOrder, IsLeft, IsFreshPager, LeavesOrdered, MayOrder, NamesSize, OrdersFirst, RefusesFiles, RefusesFirst, faults_of, image_of, leaves, IsFirstPage};

use crate::db_header::{MAX_PAGE, has_checksum_space};
use crate::orders::order_page;
use crate::sums::set_checksum;
use sqlite_disk::{Disk, Files, Start};
use sqlite_pager::{Error, Options, Pager};
use sqlite_std_file::FileFrom;
use sqlite_wal::{PageSize, probe_page_size};
use std::alloc::Global;
use std::hash::{BuildHasher, RandomState};

/// Files whose first page lists the tables in canonical order. They can only be dropped, which closes them.
#[derive(Drop)]
pub struct Ordered<D: Disk> {
    pager: Pager<D>,
}

/// Files whose first page was not reordered; `None` if they weren't opened. They can only be dropped, which
/// closes them.
#[derive(Drop)]
pub struct Unordered<D: Disk> {
    left: Option<Left<D>>,
}

// The files whose first page was not reordered, with the error.
#[derive(Drop)]
enum Left<D: Disk> {
    // Nothing was written: no pager was made for them.
    Unread(Error, Files<D>),
    // The recovery or the commit failed.
    Uncommitted(Error, Pager<D>),
}

/// Reorders the first page of the database at `path`, so that it lists the tables in canonical order, in
/// one commit to its WAL. `start` stands for what the files hold before; only the contract uses it. Returns
/// the files.
///
/// # Errors
///
/// `Unordered`: there are no random numbers for the WAL's salts, the files can't be opened or aren't a
/// database, memory ran out, or the commit failed.
pub fn put_in_order<S: Start>(
    rt: &HostRuntime,
    path: &str,
    start: S,
) -> Result<Ordered<FileFrom<S>>, Unordered<FileFrom<S>>>
    ensures ordered { IfOk result (λ it. IsTrue (state it.pager).is_clean
        → IsInOrder (image_at S.Start) (state it.pager)) }
    ensures sized { IfOk result (λ it. IsTrue (state it.pager).is_clean
        → NamesSize (image_at S.Start) (state it.pager).page_size) }
    ensures left { IfErr result (λ it. IfSome it.left
        (IsLeft (image_at S.Start) (λ image. image ≡ image_at S.Start) 0)) }
{
    let Ok(random) = RandomState::new(rt) else {
        return Err(Unordered { left: None });
    };
    match sqlite_std_file::open(rt, path, start) {
        Ok(files) => commit_in_order(rt.alloc(), random.hash_one(&0u8), files),
        Err(_) => Err(Unordered { left: None }),
    }
}

/// Whether the first page was reordered, by the result `done` of `put_in_order`. The files are closed.
pub fn is_in_order<D: Disk + Drop>(done: Result<Ordered<D>, Unordered<D>>) -> bool
    ensures { result ≡ is_ok done }
{
    done.is_ok()
}

// Reorders the first page of the database in `files`, in one commit. The salts of the WAL are made from
// `seed`.
fn commit_in_order<D: Disk + Drop>(
    alloc: Global,
    seed: u64,
    files: Files<D>,
) -> Result<Ordered<D>, Unordered<D>>
    requires log { IsTrue (D.Disk.is_usable files.log) }
    requires db { IsTrue (D.Disk.is_usable files.db) }
    ensures ordered { IfOk result (λ it. IsTrue (state it.pager).is_clean
        → IsInOrder (image_of D.Disk files) (state it.pager)) }
    ensures sized { IfOk result (λ it. IsTrue (state it.pager).is_clean
        → NamesSize (image_of D.Disk files) (state it.pager).page_size) }
    ensures opened { IfErr result (λ it. IsSome it.left) }
    ensures left { (was : Image) → AreAsOpened D.Disk files was
        → IfErr result (λ it. IfSome it.left (IsLeft was (λ image. image ≡ was) 0)) }
{
    let (mut pager, size) = match open_pager(alloc, seed, files) {
        Ok(found) => found,
        Err(left) => return Err(Unordered { left: Some(left) }),
    };
    match recover_and_reorder(&mut pager, size) {
        Ok(()) => Ok(Ordered { pager }),
        Err(error) => Err(Unordered {
            left: Some(Left::Uncommitted(error, pager)),
        }),
    }
}

// Makes a pager for `files`; returns it with their page size. The files are only read: nothing is recovered
// yet. `seed` is for the salts of the WAL.
fn open_pager<D: Disk + Drop>(
    alloc: Global,
    seed: u64,
    mut files: Files<D>,
) -> Result<(Pager<D>, PageSize), Left<D>>
    requires log { IsTrue (D.Disk.is_usable files.log) }
    requires db { IsTrue (D.Disk.is_usable files.db) }
    ensures fresh { IfOk result (λ it. IsFreshPager files it.0) }
    ensures size { IfOk result (λ it. (state it.0).page_size ≡ bytes_of it.1) }
    ensures left { IfErr result (IsLeft (image_of D.Disk files) (leaves D.Disk files)
        (faults_of D.Disk files)) }
{
    match probe_page_size(&mut files) {
        Ok(Some(size)) => match Pager::new(alloc, files, size, Options::new(seed)) {
            Ok(pager) => Ok((pager, size)),
            Err(failed) => Err(Left::Unread(Error::OutOfMemory, failed.value)),
        },
        Ok(None) => Err(Left::Unread(Error::Corrupt, files)),
        Err(error) => Err(Left::Unread(Error::Io(error), files)),
    }
}

// Recovers the pages from the files, and reorders the first one, in one commit. `size` is the page size.
// Long: the result, the state after a crash, and files that can't be recovered have each a clause.
fn recover_and_reorder<D: Disk>(pager: &mut Pager<D>, size: PageSize) -> Result<(), Error>
    requires usable { AreUsable pager.old }
    requires size { (state pager.old).page_size ≡ bytes_of size }
    ensures size { (state pager.new).page_size ≡ bytes_of size }
    ensures clean { IsTrue (state pager.new).is_clean → IsTrue (state pager.old).is_clean }
    ensures ordered { OnOk result (IsTrue (state pager.new).is_clean
        → IsInOrder (image pager.old) (state pager.new)) }
    ensures cause { FailsFor result (IsTrue (state pager.new).is_clean) (state pager.old).faults
        (state pager.new).faults (RefusesFiles (bytes_of size) (image pager.old) pager.new) }
    ensures crash { LeavesOrdered (bytes_of size) (image pager.old) (state pager.old).may_leave
        (state pager.new).may_leave }
    ensures unreadable { IsUnreadable (bytes_of size) (image pager.old)
        → (left : Image) → (state pager.new).may_leave left → (state pager.old).may_leave left }
{
    pager.recover()?;
    reorder_first_page(pager, size)
}

/// Reorders the first page of a database, and sets its checksum if pages have checksums, in one commit.
/// `size` is the page size. A page that needs no reordering is committed too.
///
/// # Errors
///
/// There is no first page, a read or write failed, memory ran out, or the files can't grow (`Full`).
pub fn reorder_first_page<D: Disk>(pager: &mut Pager<D>, size: PageSize) -> Result<(), Error>
    requires { (state pager.old).page_size ≡ bytes_of size }
    ensures ordered { OnOk result (IsTrue (state pager.new).is_clean
        → OrdersFirst (visible pager.old) (state pager.new).committed) }
    ensures settled { OnOk result (IsTrue (state pager.new).is_clean → IsSettled (state pager.new)) }
    ensures cause { FailsFor result (IsTrue (state pager.new).is_clean) (state pager.old).faults
        (state pager.new).faults (RefusesFirst pager.old pager.new) }
    ensures stays { StaysOrFails (state pager.old) (state pager.new) }
    ensures crash { MayOrder (state pager.old) (visible pager.old) (state pager.new) }
{
    let mut room = [0u8; MAX_PAGE];
    let page = &mut room[..size.bytes()];
    pager.load(1)?;
    page.copy_from_slice(pager.loaded());
    reorder_checksummed(page);
    pager.write(1, page)?;
    pager.commit()
}

// Reorders a file's first page as `order_page` does, and sets its checksum if pages have checksums.
fn reorder_checksummed(page: &mut [u8])
    requires { IsFirstPage page.old }
    ensures { page.new ≡ spec.in_order page.old }
{
    let has_sum = has_checksum_space(page);
    order_page(page);
    if has_sum {
        set_checksum(page);
    }
}
