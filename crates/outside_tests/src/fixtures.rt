//! A writer that gives preset answers.
ghost use Rattle.std.specs.Prelude.{◌≡◌, drop};
ghost use Rattle.std.specs.Io.{WritesAtMost};
ghost use Rattle.std.specs.Io.KnownBytes.{WriteAppends};

use std::io;
use std::io::{Error, ErrorKind, Write};
use std::marker::Model;

/// One answer of a `TellsWriter`.
#[derive(Clone, Copy, Debug)]
pub enum Tells {
    /// This many bytes are taken.
    Takes(usize),
    /// The write fails with this kind.
    Fails(ErrorKind),
}

/// Answers its writes with these, and fails when none is left.
#[derive(Drop)]
pub struct TellsWriter<'a> {
    answers: &'a [Tells],
}

impl<'a> Model for TellsWriter<'a> {
    ghost use Rattle.std.specs.Prelude.{List};
    ghost use Rattle.outside_tests.specs.declared.fixtures.Tells.{Tells};

    ghost Value = { List Tells };

    ghost view = { λ w. w.answers.now };
}

impl<'a> TellsWriter<'a> {
    /// It gives these answers, one to each write.
    pub fn new(answers: &'a [Tells]) -> Self
        ensures { result ≡ answers.now }
    {
        TellsWriter { answers }
    }
}

impl<'a> Write for TellsWriter<'a> {
    fn write(&mut self, buf: &[u8]) -> io::Result<usize>
        ensures bound { WritesAtMost result buf.now }
        ensures bytes { WriteAppends (⟦<TellsWriter<'a> as Write>⟧.contents self.old)
            (⟦<TellsWriter<'a> as Write>⟧.contents self.new) result buf.now }
        ensures told { self.new ≡ drop 1 self.old }
    {
        let Some((answer, rest)) = self.answers.split_first() else {
            return Err(Error::from(ErrorKind::Other));
        };
        self.answers = rest;
        match *answer {
            Tells::Takes(count) => Ok(count.min(buf.len())),
            Tells::Fails(kind) => Err(Error::from(kind)),
        }
    }

    fn flush(&mut self) -> io::Result<()> {
        Ok(())
    }
}
