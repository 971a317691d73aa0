//! The numbers and checksums in the bytes of a WAL.

ghost use Rattle.std.specs.Prelude.{◌≡◌, ◌+◌, ◌≤◌, length};
ghost use Rattle.sqlite_wal.specs.Format.{be32, stored_sum};

/// SQLite's checksum of a WAL: two numbers of 32 bits.
pub type Checksum = (u32, u32);

/// The big-endian number in the four bytes from `at` on.
#[tactic(auto, unfolding(sqlite_wal::specs::Format::be32))]
pub fn number_at(bytes: &[u8], at: usize) -> u32
    requires { at + 4 ≤ length bytes.now }
    ensures { result ≡ be32 bytes.now at }
{
    bytes[at] as u32 * 0x100_0000
        + bytes[at + 1] as u32 * 0x1_0000
        + bytes[at + 2] as u32 * 0x100
        + bytes[at + 3] as u32
}

/// The checksum that is stored in the eight bytes from `at` on.
pub fn checksum_at(bytes: &[u8], at: usize) -> Checksum
    requires { at + 8 ≤ length bytes.now }
    ensures { result ≡ stored_sum bytes.now at }
{
    (number_at(bytes, at), number_at(bytes, at + 4))
}
