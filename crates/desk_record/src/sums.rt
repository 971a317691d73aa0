//! The checksums of the journal, which show damaged bytes.

ghost use Rattle.std.specs.Prelude.{◌≡◌, IfOk};
ghost use Rattle.desk_record.specs.Record.{sum};

use sha2::{Digest, Sha256};
use std::alloc::{AllocError, Global};

/// The checksum of `bytes`: the first eight bytes of their SHA-256, as sixteen hexadecimal digits.
///
/// # Errors
///
/// `AllocError` if memory runs out.
#[tactic(auto, unfolding(crate::specs::Record::sum))]
pub fn checksum(alloc: Global, bytes: &[u8]) -> Result<Vec<u8>, AllocError>
    ensures { IfOk result (λ text. text.items ≡ sum bytes.now) }
{
    let digest = Sha256::digest(bytes);
    let text = hex::encode(alloc, &digest[..8])?;
    Vec::from_slice(alloc, text.as_bytes())
}
