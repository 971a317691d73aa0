//! A file in memory. Nothing is left of it after a crash, so that a sync has nothing to do.

ghost use Rattle.std.specs.Prelude.{◌≡◌, length, true, false, is_ok, OnOk};
ghost use Rattle.sqlite_disk.specs.{Disk.Holds, Disk.Torn, Disk.Cut, Disk.CountsFault, Refusal.finds_no_room};

use sqlite_disk::{Disk, Tally, digest_of};
use std::alloc::{AllocError, Global};
use std::io;

/// A file in memory, gone when the program ends. A write fails only if memory runs out.
#[derive(Drop)]
pub struct Ram {
    bytes: Vec<u8>,
    // `faults` counts failed allocations and reads with a wrong digest, `caught` only the latter. Both
    // saturate.
    faults: u64,
    caught: u64,
}

impl Ram {
    ghost use Rattle.std.specs.Prelude.{[]};

    /// An empty file.
    pub fn new(alloc: Global) -> Ram
        ensures empty { result.bytes.items ≡ [] }
    {
        Ram::of(Vec::new(alloc))
    }

    /// A file with the content `bytes`.
    pub fn of(bytes: Vec<u8>) -> Ram
        ensures bytes { result.bytes.items ≡ bytes.items }
    {
        Ram {
            bytes,
            faults: 0,
            caught: 0,
        }
    }
}

impl Disk for Ram {
    ghost use Rattle.std.specs.Prelude.{refl};

    ghost seen = { λ r. r.bytes.items };

    ghost may_leave = { λ r left. left ≡ r.bytes.items };

    ghost is_usable = { λ _. true };

    ghost faults = { λ r. r.faults };

    ghost is_clean = { λ _. true };

    ghost tally_of = { λ r. record { caught = r.caught; refused = 0 } };

    ghost key_of = { λ _. 0 };

    ghost is_fair = { λ _ _. true };

    ghost fair_if_clean = { λ _ _ _. refl };

    ghost seen_may_stay = { λ _. refl };

    fn mixes(&self) -> bool {
        false
    }

    // Memory returns what was written, so that digests need no secret key.
    fn key(&self) -> u64 {
        0
    }

    fn tally(&self) -> Tally {
        Tally {
            caught: self.caught,
            refused: 0,
        }
    }

    fn may_be_used(&self) -> bool {
        true
    }

    fn len(&mut self) -> io::Result<usize> {
        Ok(self.bytes.len())
    }

    fn read_at(&mut self, at: usize, buf: &mut [u8]) -> io::Result<()> {
        if at > self.bytes.len() || buf.len() > self.bytes.len() - at {
            return Err(io::ErrorKind::UnexpectedEof.into());
        }
        buf.copy_from_slice(&self.bytes[at..at + buf.len()]);
        Ok(())
    }

    fn read_checked(&mut self, key: u64, want: u64, at: usize, buf: &mut [u8]) -> io::Result<()> {
        self.read_at(at, buf)?;
        if digest_of(key, buf) != want {
            self.faults = self.faults.saturating_add(1);
            self.caught = self.caught.saturating_add(1);
            return Err(io::ErrorKind::InvalidData.into());
        }
        Ok(())
    }

    fn write_at(&mut self, at: usize, bytes: &[u8]) -> io::Result<()> {
        count_failed_allocation(overwrite(&mut self.bytes, at, bytes), &mut self.faults)
    }

    fn set_len(&mut self, len: usize) -> io::Result<()> {
        count_failed_allocation(resize(&mut self.bytes, len), &mut self.faults)
    }

    fn sync(&mut self) -> io::Result<()> {
        Ok(())
    }
}

// Returns the outcome of an allocation as an I/O result. A failure becomes the error `OutOfMemory`, and adds
// 1 to `faults`, which saturates. `Tally::refused` doesn't count it: that counts calls that found no space on
// a disk.
fn count_failed_allocation(outcome: Result<(), AllocError>, faults: &mut u64) -> io::Result<()>
    ensures variant { is_ok result ≡ is_ok outcome }
    ensures kind { finds_no_room result ≡ false }
    ensures faults { CountsFault result faults.old faults.new }
{
    if outcome.is_err() {
        *faults = faults.saturating_add(1);
        return Err(io::Error::from(io::ErrorKind::OutOfMemory));
    }
    Ok(())
}

// Cuts `file` to `len` bytes, or extends it with zeros; fails if memory runs out.
fn resize(file: &mut Vec<u8>, len: usize) -> Result<(), AllocError>
    ensures len { OnOk result (length file.new.items ≡ len) }
    ensures others { Cut len file.old.items file.new.items }
{
    file.resize(len, 0)
}

// Writes `bytes` from index `at` on. If the file ends before, it is extended, and a gap is filled with zeros.
// Fails if memory runs out, or if the bytes would end past the greatest index.
fn overwrite(file: &mut Vec<u8>, at: usize, bytes: &[u8]) -> Result<(), AllocError>
    ensures written { OnOk result (Holds file.new.items at bytes.now) }
    ensures others { Torn at (length bytes.now) file.old.items file.new.items }
{
    if at == file.len() {
        return file.extend_from_slice(bytes);
    }
    let end = at.checked_add(bytes.len()).ok_or(AllocError)?;
    if end > file.len() {
        resize(file, end)?;
    }
    file[at..end].copy_from_slice(bytes);
    Ok(())
}
