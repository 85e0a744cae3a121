ghost use Rattle.std.specs.Prelude.{◌≡◌, ◌<◌};

use crate::checks::same;
use crate::fixtures::opened;
use Call::{Add, Delete, Merge};
use address_space::{FileId, is_name};
use collection::{Engine, calls_reach};
use gcl_model::{Leaves, Ledger, NoLedger, Steps};
use live_version::Version;
use outside::FreeGate;
use std::alloc::{AllocError, Global};
use std::marker::Brand;
use std::process::Abort;
use std::sync::ledger::Blank;
use std::sync::{Wait, ledger};
use std::test::*;

/// No test continues from a greater number.
const MOST: u64 = 1 << 61;

/// A call of an engine.
#[derive(Clone, Copy, Debug)]
enum Call {
    Add(&'static str),
    /// Deletes the file with this id, if there is one.
    Delete(u64),
    Merge,
}

/// What scripts are made of.
const CALLS: [Call; 7] = [
    Add("to be or not to be"),
    Add(""),
    Add("be to"),
    Delete(0),
    Delete(1),
    Delete(2),
    Merge,
];

const TERMS: [&str; 7] = ["<file!>", "</file!>", "to", "be", "or", "not", "none"];

/// A word of a surviving file.
#[derive(Clone, Copy)]
struct PlainWord {
    file: u64,
    address: u64,
    token: &'static str,
}

/// The words of the files that survive, and the numbers of the next file.
#[derive(Drop)]
struct PlainFiles {
    words: Vec<PlainWord>,
    next_id: u64,
    next: u64,
}

impl PlainFiles {
    fn push(&mut self, token: &'static str) -> Result<(), AllocError> {
        let word = PlainWord {
            file: self.next_id,
            address: self.next,
            token,
        };
        self.words.push(word)?;
        self.next = self.next.wrapping_add(1);
        Ok(())
    }

    fn add(&mut self, text: &'static str) -> Result<(), AllocError> {
        self.push("<file!>")?;
        for token in text.split_whitespace() {
            self.push(token)?;
        }
        self.push("</file!>")?;
        self.next_id = self.next_id.wrapping_add(1);
        Ok(())
    }

    /// Whether there was a file with this id.
    fn delete(&mut self, id: u64) -> bool {
        let before = self.words.len();
        self.words.retain(|word: &PlainWord| word.file != id);
        self.words.len() < before
    }

    fn next_place(&self, term: &str, k: u64) -> Option<u64> {
        for word in &self.words {
            if k <= word.address && word.token == term {
                return Some(word.address);
            }
        }
        None
    }
}

/// Whether the call was accepted.
fn made<R: Wait>(rt: &R, engine: &mut Engine, call: Call) -> bool {
    match call {
        Add(text) => is_name(b"x") && engine.add(rt, b"x", text.as_bytes()).is_ok(),
        Delete(id) => engine.delete(rt, FileId(id)).is_ok(),
        Merge => engine.version().number() < MOST && engine.merge_all(rt, &FreeGate).is_ok(),
    }
}

/// Whether the same call on the plain collection was accepted. A merge changes nothing.
fn made_plainly(plain: &mut PlainFiles, call: Call) -> Result<bool, AllocError> {
    match call {
        Add(text) => {
            plain.add(text)?;
            Ok(true)
        }
        Delete(id) => Ok(plain.delete(id)),
        Merge => Ok(true),
    }
}

/// Whether each word is found, and after it the next one of its term.
fn finds_words<L: Ledger>(version: &Version, plain: &PlainFiles, steps: &mut Steps<L>) -> bool {
    for word in &plain.words {
        let term = word.token.as_bytes();
        let behind = word.address.wrapping_add(1);
        if Leaves::next(version, term, word.address, steps) != Some(word.address)
            || Leaves::next(version, term, behind, steps) != plain.next_place(word.token, behind)
        {
            return false;
        }
    }
    true
}

/// Whether the first place of each term is found.
fn finds_terms<L: Ledger>(version: &Version, plain: &PlainFiles, steps: &mut Steps<L>) -> bool {
    for term in TERMS {
        let first = Leaves::next(version, term.as_bytes(), 0, steps);
        if first != plain.next_place(term, 0) {
            return false;
        }
    }
    true
}

/// Whether look-ups in the version find the words of the plain collection, and no others.
fn finds_all<B: ledger::Ledger>(version: &Version, plain: &PlainFiles, blank: Blank) -> bool
    requires name { blank.name ≡ B.name }
    requires parts { blank.parts ≡ B.parts }
    requires some { 0 < blank.parts }
{
    let mut steps = Steps::<NoLedger<B>>::open(blank);
    finds_terms(version, plain, &mut steps) && finds_words(version, plain, &mut steps)
}

/// The steps are not kept.
fn looks_up(version: &Version, plain: &PlainFiles) -> bool {
    finds_all::<Brand>(version, plain, Blank::new(1))
}

/// What differs after these calls: a call that only one of them accepts, or a look-up.
#[derive(Clone, Copy, Debug, PartialEq)]
enum Unlike {
    Accepts(usize),
    LooksUp,
}

/// Both make the calls up to the first that is refused.
fn played<R: Wait>(
    rt: &R,
    engine: &mut Engine,
    plain: &mut PlainFiles,
    calls: &[Call],
) -> Result<Option<Unlike>, AllocError> {
    for (i, call) in calls.iter().enumerate() {
        let accepted = made(rt, engine, *call);
        if accepted != made_plainly(plain, *call)? {
            return Ok(Some(Unlike::Accepts(i)));
        }
        if !accepted {
            break;
        }
    }
    if looks_up(engine.version(), plain) {
        Ok(None)
    } else {
        Ok(Some(Unlike::LooksUp))
    }
}

fn played_anew<R: Wait>(
    rt: &R,
    alloc: Global,
    calls: &[Call],
) -> Result<Option<Unlike>, AllocError> {
    let mut plain = PlainFiles {
        words: Vec::new(alloc),
        next_id: 0,
        next: 0,
    };
    let Ok((mut engine, _readers)) = opened(rt, alloc, 0, 0) else {
        return Err(AllocError);
    };
    let differs = played(rt, &mut engine, &mut plain, calls);
    engine.end(rt);
    differs
}

/// The calls answer as those of the plain collection.
fn is_alike<R: Wait + Abort>(rt: &R, alloc: Global, calls: &[Call]) -> Result<(), AllocError> {
    let differs = played_anew(rt, alloc, calls)?;
    same(rt, &calls, &differs, &None);
    Ok(())
}

/// Five calls, by their place among all such scripts.
fn script(mut place: usize) -> [Call; 5] {
    let mut calls = [Merge; 5];
    for call in &mut calls {
        *call = CALLS[place % 7];
        place /= 7;
    }
    calls
}

/// Scripts of fewer calls are among them: they continue with a call that is refused, such as the deletion of no file.
#[test]
fn every_script_of_five_calls_answers_as_the_plain_collection(rt: HostRuntime) -> Result<(), Fail> {
    for place in 0..16_807usize {
        is_alike(&rt, rt.alloc(), &script(place))?;
    }
    Ok(())
}

const MERGES: [&[Call]; 3] = [
    &[
        Add("to be or not to be"),
        Add(""),
        Delete(0),
        Add("to be or not to be"),
    ],
    &[
        Add("to be or not to be"),
        Merge,
        Add(""),
        Merge,
        Delete(0),
        Merge,
        Add("to be or not to be"),
        Merge,
    ],
    &[
        Add("to be or not to be"),
        Add(""),
        Delete(0),
        Merge,
        Merge,
        Add("to be or not to be"),
    ],
];

#[test]
fn merges_between_change_no_look_up(rt: HostRuntime) -> Result<(), Fail> {
    for calls in &MERGES {
        is_alike(&rt, rt.alloc(), calls)?;
    }
    Ok(())
}

/// A thousand adds, and a deletion of an older file after each third add.
fn long_script(alloc: Global) -> Result<Vec<Call>, AllocError> {
    let mut calls = Vec::new(alloc);
    for id in 0..1_000usize {
        calls.push(CALLS[id % 3])?;
        if id % 3 == 2 {
            calls.push(Delete(id as u64 / 2))?;
        }
    }
    Ok(calls)
}

#[test]
fn a_thousand_adds_with_deletions_between_answer_as_the_plain_collection(
    rt: HostRuntime,
) -> Result<(), Fail> {
    let calls = long_script(rt.alloc())?;
    same(&rt, &"calls", &calls.len(), &1_333);
    is_alike(&rt, rt.alloc(), &calls)?;
    calls_reach();
    Ok(())
}
