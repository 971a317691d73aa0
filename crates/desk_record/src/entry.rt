//! Entries of the journal.

ghost use Rattle.std.specs.Prelude.{◌≡◌, ◌++◌, IfOk, OnErr, OnOk};
ghost use Rattle.desk_record.specs.Record.{entry, entry_parts};

use crate::kind::Kind;
use crate::line::{Line, line_text};
use crate::sums::checksum;
use std::alloc::{AllocError, Global};

/// One entry of the journal, as it is read back.
#[derive(Debug, Drop)]
pub struct Entry {
    pub kind: Kind,
    /// Its meaning depends on the kind: `Kind` says which.
    pub number: u64,
    /// The entry's own bytes, which follow its line. Their meaning depends on the kind too.
    pub bytes: Vec<u8>,
}

/// Appends an entry with this kind, number and bytes to `text`: all of it or nothing.
///
/// # Errors
///
/// `AllocError` if memory runs out: `text` is unchanged.
pub fn write_entry(
    text: &mut Vec<u8>,
    kind: Kind,
    number: u64,
    bytes: &[u8],
) -> Result<(), AllocError>
    ensures ok { OnOk result (text.new.items ≡ text.old.items
        ++ entry (record { kind = kind; number = number; bytes = bytes.now })) }
    ensures err { OnErr result (text.new.items ≡ text.old.items) }
{
    let entry = entry_text(*text.allocator(), kind, number, bytes)?;
    text.extend_from_slice(&entry)
}

// The text of an entry: its line, its bytes, a line feed. Fails if memory runs out.
#[tactic(auto, unfolding(crate::specs::Record::entry))]
fn entry_text(alloc: Global, kind: Kind, number: u64, bytes: &[u8]) -> Result<Vec<u8>, AllocError>
    ensures { IfOk result (λ text. text.items
        ≡ entry (record { kind = kind; number = number; bytes = bytes.now })) }
{
    let size = bytes.len() as u64;
    let sum = checksum(alloc, bytes)?;
    let mut text = line_text(
        alloc,
        &Line {
            kind,
            number,
            size,
            sum,
        },
    )?;
    text.extend_from_slice(bytes)?;
    text.extend_from_slice(b"\n")?;
    Ok(text)
}
