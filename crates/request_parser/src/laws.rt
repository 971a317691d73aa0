//! Laws of the definitions. Each is the contract of a function that does nothing. A caller makes the law
//! known to the prover by calling the function.

ghost use Rattle.std.specs.Prelude.{◌≡◌, ◌↔◌, ℕ, List, [], Some};
ghost use Rattle.httparse.specs.Grammar.{RequestHead, ReadsRequest};
ghost use Rattle.request_parser.specs.Heads.{head_in};

/// A text is a head (`head_in`) exactly if the grammar of the library `httparse` reads the whole text as that
/// head.
pub fn head_in_reads()
    ensures { (text : List ℕ) (h : RequestHead) → (head_in text ≡ Some h) ↔ ReadsRequest text h [] }
{}
