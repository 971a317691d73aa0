//! The names of operators.

ghost use Rattle.std.specs.Prelude.{◌≡◌, ◌-◌, ◌≤◌, ◌++◌, Some, None, if◌then◌else◌, length, replicate, IsTrue};
ghost use Rattle.std.specs.List.{list_all};
ghost use Rattle.desk_rules.specs.Limits.{max_name_length, is_operator_name};
ghost use Rattle.desk_rules.specs.Limits as spec;

use std::cmp::Ordering;
use std::marker::Model;
use std::{fmt, str};

// The most bytes of a name.
const MAX_NAME: usize = 32;

/// An operator's name: 1 to 32 bytes of `a-z`, `0-9` and `-`.
#[derive(Clone, Copy, Debug)]
pub struct Operator {
    // the name, padded with zeros
    bytes: [u8; MAX_NAME],
    // how many bytes the name has, without the padding
    len: usize,
}

impl Model for Operator {
    ghost use Rattle.std.specs.Prelude.{◌≡◌, ℕ, ◌-◌, ◌≤◌, ◌++◌, List, length, take, replicate, IsTrue};
    ghost use Rattle.std.proofs.Common.{arith, sym, length-take-le};
    ghost use Rattle.desk_rules.specs.Limits.{max_name_length, is_operator_name};

    ghost Value = { List ℕ };

    ghost view = { λ o. take o.len o.bytes };

    ghost invariant = { λ o. (length o.bytes ≡ max_name_length) × (o.len ≤ max_name_length)
        × IsTrue (is_operator_name (take o.len o.bytes))
        × (o.bytes ≡ take o.len o.bytes ++ replicate (max_name_length - o.len) 0) };

    ghost inverse = { λ name. record {
      bytes = name ++ replicate (max_name_length - length name) 0;
      len = length name;
    } };
}

impl Operator {
    /// The operator called `name`, or `None` if `name` is not 1 to 32 bytes of `a-z`, `0-9` and `-`.
    pub fn try_new(name: &[u8]) -> Option<Operator>
        ensures { result ≡ (if is_operator_name name.now then Some name.now else None) }
    {
        if is_name(name) {
            Some(Operator {
                bytes: padded(name),
                len: name.len(),
            })
        } else {
            None
        }
    }

    /// The bytes of the name.
    pub fn as_bytes(&self) -> &[u8]
        ensures { result.now ≡ self.now }
    {
        &self.bytes[..self.len]
    }

    /// The name as text, which is always a valid name. It is ASCII, so the `unwrap` can't fail.
    pub fn as_str(&self) -> &str
        ensures value { result.now ≡ self.now }
        ensures valid { IsTrue (is_operator_name self.now) }
    {
        str::from_utf8(&self.bytes[..self.len]).unwrap()
    }
}

impl fmt::Display for Operator {
    ghost use Rattle.std.specs.Prelude.{Some};

    ghost output = { λ name. Some name };

    // The name, as `as_str` returns it.
    fn fmt<W: fmt::Write>(&self, f: &mut fmt::Formatter<W>) -> fmt::Result {
        f.pad(self.as_str())
    }
}

impl PartialEq for Operator {
    ghost use Rattle.std.specs.Prelude.{nat_eq};
    ghost use Rattle.std.specs.{Cmp.partial_equiv_from_equiv, Cmp.Lexicographic.pointwise, Cmp.Lexicographic.nat_list_eq_equiv};

    ghost eq = { λ a b. pointwise nat_eq a b };

    ghost laws = { partial_equiv_from_equiv nat_list_eq_equiv };

    // Operators are equal if their names are the same bytes.
    fn eq(&self, other: &Operator) -> bool {
        self.as_bytes() == other.as_bytes()
    }
}

impl Eq for Operator {
    ghost use Rattle.std.specs.Cmp.Lexicographic.{nat_list_eq_equiv};

    ghost laws = { nat_list_eq_equiv };
}

impl PartialOrd for Operator {
    ghost use Rattle.std.specs.Prelude.{Some};
    ghost use Rattle.std.specs.{Ordering.nat_cmp, Cmp.Lexicographic.slice_cmp, Cmp.Lexicographic.texts_po};

    ghost partial_cmp = { λ a b. Some (slice_cmp nat_cmp a b) };

    ghost laws = { texts_po };

    // The order of `cmp`; never `None`, since any two names can be compared.
    fn partial_cmp(&self, other: &Operator) -> Option<Ordering> {
        Some(self.cmp(other))
    }
}

impl Ord for Operator {
    ghost use Rattle.std.specs.Prelude.{refl};
    ghost use Rattle.std.specs.{Ordering.nat_cmp, Cmp.Lexicographic.slice_cmp, Cmp.Lexicographic.nat_list_cmp_total, Cmp.Lexicographic.texts_ties};

    ghost cmp = { λ a b. slice_cmp nat_cmp a b };

    ghost total = { nat_list_cmp_total };

    ghost matches_partial_cmp = { λ a b. refl };

    ghost matches_eq = { texts_ties };

    // Operators are ordered by their names, byte by byte; a name that begins another comes before it.
    fn cmp(&self, other: &Operator) -> Ordering {
        self.as_bytes().cmp(other.as_bytes())
    }
}

// Whether `name` is a valid name: 1 to 32 bytes of `a-z`, `0-9` and `-`.
fn is_name(name: &[u8]) -> bool
    ensures { result ≡ is_operator_name name.now }
{
    !name.is_empty() && name.len() <= MAX_NAME && are_name_bytes(name)
}

// Whether each of `bytes` is `a-z`, `0-9` or `-`.
fn are_name_bytes(bytes: &[u8]) -> bool
    ensures { result ≡ list_all spec.is_name_byte bytes.now }
{
    bytes.iter().all(|byte| is_name_byte(*byte))
}

// `name`, at most 32 bytes, and zeros after it up to 32 bytes.
fn padded(name: &[u8]) -> [u8; MAX_NAME]
    requires { length name.now ≤ max_name_length }
    ensures { result ≡ name.now ++ replicate (max_name_length - length name.now) 0 }
{
    let mut bytes = [0u8; MAX_NAME];
    bytes[..name.len()].copy_from_slice(name);
    bytes
}

// Whether `byte` is `a-z`, `0-9` or `-`.
fn is_name_byte(byte: u8) -> bool
    ensures { result ≡ spec.is_name_byte byte }
{
    matches!(byte, b'a'..=b'z' | b'0'..=b'9' | b'-')
}
