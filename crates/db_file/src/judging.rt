//! Whether a WAL is damaged.

ghost use Rattle.std.specs.Io.KnownBytes.{Consumes};
ghost use Rattle.std.specs.Prelude.{◌≡◌, true, ◌<◌, ◌≤◌, ◌+◌, ◌^◌, ℕ, List, length, IfErr, IfOk, IfSome};
ghost use Rattle.sqlite_wal.specs.{Format.IsHeader, PageSize.IsPageSize, Recovery.header};
ghost use Rattle.io_ends.specs.Reading.{HaveGivenUp};
ghost use Rattle.db_file.specs.Wal.{IsStateOf, IsUnchecked, most_reads, HasFrame, HasRead, IsBefore, IsNext, LosesCommits, StopsAt};

use crate::frames::{FRAME_HEADER, commits_ended, has_salts, is_frame_valid};
use crate::numbers::checksum_at;
use crate::reading::read_whole;
use crate::wal_header::{HEADER, page_size_in};
use io_ends::{ReadError, Reads};
use std::io::Read;

// How many bytes the largest frame has: a header of 24, and a page of 65,536.
const MAX_FRAME: usize = 65_560;

/// Whether a WAL is damaged.
#[derive(Clone, Copy, Debug, PartialEq, Eq)]
pub enum WalState {
    /// It is as it was written, or as a crash may have left it.
    Sound,
    /// Recovery stops at `frame`, counted from 0, and `commits` commits from there on are lost.
    Damaged { frame: u64, commits: u64 },
}

/// Why a WAL wasn't checked to its end.
#[derive(Clone, Copy, Debug, PartialEq, Eq)]
pub enum WalError {
    /// The last of these reads failed, or 2^32 - 1 reads weren't enough for the header or for one frame.
    Unread(Reads),
    /// It has 2^64 bytes or more.
    Endless,
}

impl<R> From<ReadError<R>> for WalError {
    ghost use Rattle.std.specs.Prelude.{◌≡◌};
    ghost use Rattle.db_file.specs.declared.judging.WalError.TheVariants.{Unread};

    ghost from_gives = { λ error fault. fault ≡ Unread error.reads };

    // Reading was given up: this becomes `Unread`, with the reads that `error` has. `Endless` is made
    // elsewhere.
    fn from(error: ReadError<R>) -> WalError {
        WalError::Unread(error.reads())
    }
}

/// Checks whether `log`, a WAL from its first byte on, is damaged: recovery stops at a frame, and two or more
/// commits end from there on. One frame is read at a time.
///
/// # Errors
///
/// Those of `WalError`.
pub fn check_wal<R: Read>(log: &mut R) -> Result<WalState, WalError>
    ensures value { IfOk result (λ verdict. IfSome (R.remaining log.old) (λ bytes. IsStateOf bytes verdict)) }
    ensures fault { IfErr result (IsUnchecked (R.remaining log.old)) }
{
    let mut room = [0u8; MAX_FRAME];
    let mut head = [0u8; HEADER];
    if !read_whole(log, &mut head)? {
        return Ok(WalState::Sound);
    }
    // Recovery accepts nothing of a WAL with no valid header.
    match page_size_in(&head) {
        Some(page) => check_frames(log, &head, &mut room[..FRAME_HEADER + page]),
        None => Ok(WalState::Sound),
    }
}

// Checks the frames of a WAL with the header `head`. `log` is at the first one; `frame` is the buffer,
// which has the length of a frame. A crash may tear the last commit, so the WAL is damaged only if two or
// more are lost.
fn check_frames<R: Read>(
    log: &mut R,
    head: &[u8; HEADER],
    frame: &mut [u8],
) -> Result<WalState, WalError>
    requires { 24 ≤ length frame.old }
    ensures value { (page : ℕ) (bytes : List ℕ) → length frame.old ≡ 24 + page → header bytes ≡ head.now
        → IsHeader page head.now → IsPageSize page → IsBefore page bytes 0 (R.remaining log.old)
        → IfOk result (IsStateOf bytes) }
    ensures fault { IfErr result (IsUnchecked (R.remaining log.old)) }
{
    let Some(stop) = find_stop(log, head, frame)? else {
        return Ok(WalState::Sound);
    };
    let commits = count_commits(log, head, frame)?;
    if commits < 2 {
        return Ok(WalState::Sound);
    }
    Ok(WalState::Damaged {
        frame: stop,
        commits,
    })
}

// Reads frames as long as recovery accepts them. Returns the number of the first frame that it doesn't
// accept, which is then in the buffer `frame`; `None` if the WAL ends before.
fn find_stop<R: Read>(
    log: &mut R,
    head: &[u8; HEADER],
    frame: &mut [u8],
) -> Result<Option<u64>, WalError>
    requires { 24 ≤ length frame.old }
    ensures value { (page : ℕ) (bytes : List ℕ) → length frame.old ≡ 24 + page → header bytes ≡ head.now
        → IsBefore page bytes 0 (R.remaining log.old)
        → IfOk result (StopsAt page bytes frame.new (R.remaining log.new)) }
    ensures left { IfOk result (λ stop. IfSome stop (λ _.
        HasRead (R.remaining log.old) (R.remaining log.new) 0)) }
    ensures fault { IfErr result (IsUnchecked (R.remaining log.old)) }
{
    let mut sum = checksum_at(head, 24);
    for stop in 0..u64::MAX {
        if !next_frame(log, frame)? {
            return Ok(None);
        }
        if !is_frame_valid(head, sum, frame) {
            return Ok(Some(stop));
        }
        sum = checksum_at(frame, 16);
    }
    Err(WalError::Endless)
}

// How many commits end with the frame in the buffer `frame`, which was read last, or with one after it. The
// count stops at the first frame without the salts of the header `head`.
fn count_commits<R: Read>(
    log: &mut R,
    head: &[u8; HEADER],
    frame: &mut [u8],
) -> Result<u64, WalError>
    requires { 24 ≤ length frame.old }
    ensures value { (page stop : ℕ) (bytes : List ℕ) → length frame.old ≡ 24 + page → header bytes ≡ head.now
        → HasFrame page bytes stop frame.old (R.remaining log.old)
        → IfOk result (LosesCommits page bytes stop) }
    ensures fault { IfErr result (IsUnchecked (R.remaining log.old)) }
{
    let mut commits = 0;
    for _ in 0..u64::MAX {
        if !has_salts(head, frame) {
            return Ok(commits);
        }
        commits += commits_ended(frame);
        if !next_frame(log, frame)? {
            return Ok(commits);
        }
    }
    Err(WalError::Endless)
}

// Reads the next frame into `frame`; returns false if the WAL ends before the frame does.
fn next_frame<R: Read>(log: &mut R, frame: &mut [u8]) -> Result<bool, ReadError<R>>
    ensures value { (page n : ℕ) (bytes : List ℕ) → length frame.old ≡ 24 + page
        → IsBefore page bytes n (R.remaining log.old)
        → IfOk result (IsNext page bytes n frame.new (R.remaining log.new)) }
    ensures read { IfOk result (λ is_whole. is_whole ≡ true →
        Consumes (R.remaining log.old) (R.remaining log.new) frame.new) }
    ensures fault { IfErr result (λ error. HaveGivenUp most_reads error.reads) }
{
    read_whole(log, frame)
}
