ghost use Rattle.std.specs.Prelude.{◌≡◌, ◌≤◌, length, IfSome};
ghost use Rattle.gcl_model.specs.FormOf.{form_of};
ghost use Rattle.gcl_model.specs.Limits.{most_file};
ghost use Rattle.gcl_model.specs.WellFormed.{IsWellFormed};
ghost use Rattle.grep_run.specs.Requests.{request_of};
ghost use Rattle.grep_run.specs.inner.Works.{IsAnswer};

use crate::one_file::search_bytes;
use crate::room_sink::RoomSink;
use crate::wish::Wish;
use gcl_model::{Bytes, Ledger, Question, Steps, uncounted};
use std::alloc::Global;
use std::snapshot::Snapshot;

/// A text is held until it is written if it has at most this many bytes more than two times its file.
const ROOM: usize = 4_096;

/// What a file's search gave: whether there is an answer, and what is written.
#[derive(Drop)]
pub(crate) struct Answered {
    pub(crate) found: bool,
    pub(crate) text: Bytes,
}

/// A file that was visited.
#[derive(Drop)]
pub(crate) enum Gone {
    /// What its search gave. Its bytes are not kept, and appear only in clauses.
    Searched(Snapshot<Vec<u8>>, Answered),
    /// Its bytes. Its text is too long to be held, and is made as it is written.
    Loaded(Bytes),
    TooLong,
}

/// A file that was visited before its turn.
#[derive(Drop)]
pub(crate) struct Work {
    /// How many names come before its own.
    pub(crate) place: usize,
    pub(crate) name: Bytes,
    pub(crate) gone: Gone,
}

impl Work {
    /// How many bytes it counts for until it is written.
    pub(crate) fn size(&self) -> usize {
        let held = match &self.gone {
            Gone::Searched(_, answered) => answered.text.len(),
            Gone::Loaded(bytes) => bytes.len(),
            Gone::TooLong => 0,
        };
        held.saturating_add(WORK)
    }
}

/// How many bytes a file counts for besides its text.
const WORK: usize = 256;

/// What is the text of a file?
#[derive(Clone, Copy)]
struct TextOf<'a> {
    alloc: Global,
    wish: &'a Wish<'a>,
    name: &'a [u8],
    bytes: &'a [u8],
}

impl Question for TextOf<'_> {
    ghost use Rattle.std.specs.Prelude.{◌≡◌, ◌≤◌, length, IfSome};
    ghost use Rattle.gcl_model.specs.FormOf.{form_of};
    ghost use Rattle.gcl_model.specs.Limits.{most_file};
    ghost use Rattle.gcl_model.specs.WellFormed.{IsWellFormed};
    ghost use Rattle.grep_run.specs.Requests.{file_output, has_answer, request_of};
    ghost use Rattle.grep_run.specs.Visits.{look_ups, searched};

    type Answer = Option<Answered>;

    ghost can_ask = { λ q. IsWellFormed (form_of q.wish.now.asking.expr.now) × (length q.bytes.now ≤ most_file) };

    ghost answers = { λ q answer. IfSome answer (λ a. (a.found ≡ has_answer (request_of q.wish.now) q.bytes.now) × (a.text ≡
        file_output (request_of q.wish.now) q.name.now q.bytes.now)) };

    ghost most = { λ q _. look_ups (request_of q.wish.now) (searched q.bytes.now) };

    fn ask<S: Ledger>(&self, steps: &mut Steps<S>) -> Option<Answered> {
        let room = 2 * self.bytes.len() + ROOM;
        let mut sink = RoomSink::new(self.alloc, room);
        match search_bytes(
            self.alloc, &mut sink, steps, self.wish, self.name, self.bytes,
        ) {
            Ok(found) => Some(Answered {
                found,
                text: sink.into_bytes(),
            }),
            Err(_) => None,
        }
    }
}

/// Searches a file that was loaded. Returns None if there is no room or memory for its text.
pub(crate) fn answer(alloc: Global, wish: &Wish<'_>, name: &[u8], bytes: &[u8]) -> Option<Answered>
    requires well_formed { IsWellFormed (form_of wish.now.asking.expr.now) }
    requires short { length bytes.now ≤ most_file }
    ensures { IfSome result (λ answered. IsAnswer (request_of wish.now) name.now bytes.now answered) }
{
    uncounted(&TextOf {
        alloc,
        wish,
        name,
        bytes,
    })
}
