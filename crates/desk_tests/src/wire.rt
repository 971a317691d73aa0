//! Requests at hand, and of readers that are interrupted or fail.

use crate::given::{COMPLETED, FIRST_PUT, MOMENT, desk_of_alfa};
use desk_wire::{AnswersEnd, Played, answer_all, play_all};
use io_ends::{PlayEnd, ServeFault};
use std::io::{self, ErrorKind, Read};
use std::test::Fail;

#[test]
fn answers_a_list(rt: HostRuntime) -> Result<(), Fail> {
    let alloc = rt.alloc();
    let mut desk = desk_of_alfa(alloc)?;
    let request = Vec::from_slice(alloc, FIRST_PUT)?;
    let ran = answer_all(alloc, &mut desk, &[(MOMENT, request)])?;
    assert_eq!(rt; ran.ended, AnswersEnd::All);
    assert_eq!(rt; ran.answers.len(), 1);
    assert_eq!(rt; ran.answers[0].as_slice(), COMPLETED);
    Ok(())
}

// A reader of these bytes, at most seven at a time, of which each other read is interrupted.
#[derive(Drop)]
struct Slow<'t> {
    bytes: &'t [u8],
    is_interrupted: bool,
}

impl<'t> Read for Slow<'t> {
    fn read(&mut self, buf: &mut [u8]) -> io::Result<usize> {
        self.is_interrupted = !self.is_interrupted;
        if self.is_interrupted {
            return Err(io::Error::from(ErrorKind::Interrupted));
        }
        let count = buf.len().min(self.bytes.len()).min(7);
        let (now, later) = self.bytes.split_at(count);
        buf[..count].copy_from_slice(now);
        self.bytes = later;
        Ok(count)
    }
}

#[test]
fn reads_on_after_an_interruption(rt: HostRuntime) -> Result<(), Fail> {
    let alloc = rt.alloc();
    let mut desk = desk_of_alfa(alloc)?;
    let mut written = Vec::new(alloc);
    let mut input = Slow {
        bytes: FIRST_PUT,
        is_interrupted: false,
    };
    let run = play_all(alloc, &mut desk, MOMENT, &mut input, &mut written);
    let ended = PlayEnd::End;
    assert_eq!(rt; run, Played { answered: 1, ended });
    assert_eq!(rt; written.as_slice(), COMPLETED);
    Ok(())
}

// A reader of these bytes, at most seven at a time, that fails once, after so many reads.
#[derive(Drop)]
struct Faltering<'t> {
    bytes: &'t [u8],
    before: Option<u32>,
}

impl<'t> Read for Faltering<'t> {
    fn read(&mut self, buf: &mut [u8]) -> io::Result<usize> {
        match self.before {
            Some(0) => {
                self.before = None;
                return Err(io::Error::from(ErrorKind::Other));
            }
            Some(left) => self.before = Some(left - 1),
            None => {}
        }
        let count = buf.len().min(self.bytes.len()).min(7);
        let (now, later) = self.bytes.split_at(count);
        buf[..count].copy_from_slice(now);
        self.bytes = later;
        Ok(count)
    }
}

// The head has 118 bytes, each of a read of its own, so the read that fails is one of the body's.
#[test]
fn ends_at_a_read_that_fails_once(rt: HostRuntime) -> Result<(), Fail> {
    let alloc = rt.alloc();
    let mut desk = desk_of_alfa(alloc)?;
    let mut written = Vec::new(alloc);
    let mut input = Faltering {
        bytes: FIRST_PUT,
        before: Some(120),
    };
    let run = play_all(alloc, &mut desk, MOMENT, &mut input, &mut written);
    let ended = PlayEnd::Fault(ServeFault::Read);
    assert_eq!(rt; run, Played { answered: 0, ended });
    assert_eq!(rt; written.len(), 0);
    Ok(())
}
