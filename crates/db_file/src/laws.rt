//! What follows from the definitions of a damaged WAL and of a WAL with a commit. Each function states it as
//! its contract and does nothing.

ghost use Rattle.std.specs.Prelude.{◌≡◌, ◌<◌, ◌≤◌, ◌+◌, ℕ, suc, List, [], length, true, false};
ghost use Rattle.sqlite_wal.specs.{Format.be32, Recovery.Passes, Recovery.frame, Recovery.header};
ghost use Rattle.db_file.specs.Wal.{HasCommit, least_with_commit, IsDamaged, ends_commit, is_frame_whole, is_salted, least_damaged};

/// An empty WAL is not damaged.
pub fn empty_is_sound()
    ensures { (stop commits : ℕ) → ¬ IsDamaged [] stop commits }
{}

/// A WAL is not damaged if recovery accepts each whole frame of it.
pub fn accepted_is_sound()
    ensures { (log : List ℕ) → let page = be32 (header log) 8 in
        ((i : ℕ) → is_frame_whole page log i ≡ true → Passes page log i)
        → (stop commits : ℕ) → ¬ IsDamaged log stop commits }
{}

/// A WAL is not damaged if a crash tore its last commit alone, in the frames `first` to `last`: recovery
/// accepts the frames before it, none of its own but the last ends a commit, and the next lacks the salts.
pub fn torn_is_sound()
    ensures { (log : List ℕ) (first last : ℕ) → let page = be32 (header log) 8 in
        ((i : ℕ) → i < first → Passes page log i)
        → ((i : ℕ) → first ≤ i → i < last → ends_commit (frame page log i) ≡ false)
        → is_salted page log (suc last) ≡ false
        → (stop commits : ℕ) → ¬ IsDamaged log stop commits }
{}

/// A WAL is not damaged if the frame `first`, at which recovery stops, lacks the WAL's salts: it is left from
/// before the WAL was last reset.
pub fn stop_without_salts_is_sound()
    ensures { (log : List ℕ) (first : ℕ) → let page = be32 (header log) 8 in
        ((i : ℕ) → i < first → Passes page log i) → is_salted page log first ≡ false
        → (stop commits : ℕ) → ¬ IsDamaged log stop commits }
{}

/// The frame at which a WAL is damaged, and the number of lost commits, are unique: `other` and `others`
/// stand for a second frame and number.
pub fn damaged_once()
    ensures { (log : List ℕ) (stop commits other others : ℕ) → IsDamaged log stop commits
        → IsDamaged log other others → (stop ≡ other) × (commits ≡ others) }
{}

/// A damaged WAL has 1,104 bytes or more: a header, and two frames with pages of 512 bytes. So a shorter one
/// needn't be read.
pub fn damaged_is_long()
    ensures { (log : List ℕ) (stop commits : ℕ) → IsDamaged log stop commits → least_damaged ≤ length log }
{}

/// A WAL with a commit has 568 bytes or more: a header, and a frame with a page of 512 bytes. So a shorter
/// one has none.
pub fn commits_are_long()
    ensures { (log : List ℕ) → HasCommit log → least_with_commit ≤ length log }
{}
