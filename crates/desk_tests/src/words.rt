//! What `clap` makes of words that it doesn't take, and of a question for help.

use desk_cli::{Line, WordsFault, read_words};
use std::alloc::{AllocError, Global};
use std::test::Fail;

// The line of words behind the program's name.
fn line_of(alloc: Global, words: &[&str]) -> Result<Result<Line, WordsFault>, AllocError> {
    let mut all = Vec::new(alloc);
    all.push(String::from_str(alloc, "uss_desk")?)?;
    for word in words {
        all.push(String::from_str(alloc, word)?)?;
    }
    Ok(read_words(alloc, all))
}

// Whether the words are none of the forms.
fn is_refused(alloc: Global, words: &[&str]) -> Result<bool, AllocError> {
    Ok(matches!(line_of(alloc, words)?, Err(WordsFault::Words(_))))
}

#[test]
fn refuses_words(rt: HostRuntime) -> Result<(), Fail> {
    let alloc = rt.alloc();
    for words in [
        [].as_slice(),
        &["fly"],
        &["play", "alfa=1"],
        &["play", "--at", "253370764801"],
        &["enrol", "alfa", "1"],
        &["enrol", "--db", "d", "alfa"],
        &["migrate"],
        &["check"],
        &["check", "d"],
        &["copy", "--db", "d"],
        &["copy", "--to", "d"],
        &["migrate", "d"],
    ] {
        assert!(rt; is_refused(alloc, words)?);
    }
    assert!(rt;
        matches!(
            line_of(alloc, &["play", "--at", "253370764800"])?,
            Ok(Line::Play(_))
        )
    );
    Ok(())
}

// The text of help is `clap`'s.
#[test]
fn shows_help(rt: HostRuntime) -> Result<(), Fail> {
    let alloc = rt.alloc();
    let Err(WordsFault::Words(help)) = line_of(alloc, &["play", "--help"])? else {
        return Err(Fail::from("no help"));
    };
    let text = format!(in alloc; "{help}")?;
    assert!(rt;
        text.as_str().contains("Usage: uss_desk play [OPTIONS] --at <SECOND> [NAME=CEILING]...")
    );
    assert_eq!(rt; help.exit_code(), 0);
    Ok(())
}
