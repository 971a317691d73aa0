//! Laws of the definitions. Each is the contract of a function that does nothing.

ghost use Rattle.std.specs.Prelude.{◌≡◌, ◌<◌, ◌+◌, ◌++◌, ℕ, List, length, take};
ghost use Rattle.std.specs.List.{AllByRecursion};
ghost use Rattle.desk_record.specs.Record.{IsTooShort, EntryParts, Fits, entries, entry};

/// The format is unambiguous: if a text begins with an entry, that entry and what follows it are determined.
/// So `read_entry` reads back the entry that `write_entry` wrote, and leaves what follows it.
pub fn one_entry()
    ensures { (e other : EntryParts) (rest left : List ℕ) → Fits e → Fits other →
        entry e ++ rest ≡ entry other ++ left → (e ≡ other) × (rest ≡ left) }
{}

/// A whole journal is unambiguous: two lists of entries with the same text are equal.
pub fn one_record()
    ensures { (es others : List EntryParts) → AllByRecursion Fits es → AllByRecursion Fits others →
        entries es ≡ entries others → es ≡ others }
{}

/// A truncated entry is recognised: each proper, non-empty prefix of an entry (its first `n` bytes) is too
/// short. It is neither the end of the journal nor damage.
pub fn beginnings_are_short()
    ensures { (e : EntryParts) (n : ℕ) → Fits e → 0 < n → n < length (entry e) →
        IsTooShort (take n (entry e)) }
{}

/// A text that begins with a whole entry isn't too short. So exactly one of these holds of the text that is
/// left to be read: it is empty, it begins with an entry, it is too short, or it is damaged.
pub fn an_entry_is_not_short()
    ensures { (e : EntryParts) (rest : List ℕ) → Fits e → IsTooShort (entry e ++ rest) → ⊥ }
{}

/// The length of an entry in bytes: 86 for its line, those of its own bytes, and one for the line feed.
pub fn lengths()
    ensures { (e : EntryParts) → length (entry e) ≡ 86 + length e.bytes + 1 }
{}
