// Pieces of a sentence on a stream: answers on standard output, what went wrong on standard error. Every write is looked at: callers put no
// piece behind one that could not be written, and of an answer that is told once, on standard error.
use crate::errors::Failure;
use std::{fmt, io};

// Which stream: standard output, or standard error.
#[derive(Clone, Copy, PartialEq, Eq)]
pub enum Destination {
    Answers,
    Warnings,
}

#[derive(Clone, Copy)]
pub struct Stream {
    pub rt: HostRuntime,
    pub destination: Destination,
}

// A piece could not be written. Of an answer that has been told.
#[derive(Clone, Copy)]
pub struct Unwritten;

pub fn answers(rt: HostRuntime) -> Stream {
    Stream {
        rt,
        destination: Destination::Answers,
    }
}

pub fn warnings(rt: HostRuntime) -> Stream {
    Stream {
        rt,
        destination: Destination::Warnings,
    }
}

impl Stream {
    // A piece of a sentence.
    pub fn put(self, text: &[u8]) -> Result<(), Unwritten> {
        self.told(match self.destination {
            Destination::Answers => self.rt.stdout().write_all(text),
            Destination::Warnings => self.rt.stderr().write_all(text),
        })
    }

    // A text with values in it: callers write `write!(out, "..")`.
    pub fn write_fmt<D: fmt::Display + Drop>(self, text: D) -> Result<(), Unwritten> {
        self.told(match self.destination {
            Destination::Answers => self.rt.stdout().print(text),
            Destination::Warnings => self.rt.stderr().print(text),
        })
    }

    // Says that an answer could not be written.
    fn told(self, written: io::Result<()>) -> Result<(), Unwritten> {
        let Err(error) = written else {
            return Ok(());
        };
        if self.destination == Destination::Answers {
            warn_broken(self.rt, Failure::from(error));
        }
        Err(Unwritten)
    }
}

// Where nobody reads the answer any more, as under `| head`, nothing is said.
fn warn_broken(rt: HostRuntime, failure: Failure) {
    if failure != Failure::NobodyReads {
        warn(rt, b"grants: the answer could not be written whole: ");
        warn_reason(rt, failure);
    }
}

pub fn warn(rt: HostRuntime, text: &[u8]) {
    let _ = rt.stderr().write_all(text);
}

// The failure in words, as the end of a sentence.
pub fn warn_reason(rt: HostRuntime, failure: Failure) {
    warn(rt, failure.reason());
}
