//! What an edit changed for the watches is put after its answer.
ghost use Rattle.std.specs.Prelude.{◌≡◌, ◌++◌, ◌∷◌, [], IfOk, IfSome, OnOk, OnErr};
ghost use Rattle.gcl_model.specs.FormOf.{form_of};
ghost use Rattle.gcl_model.specs.WellFormed.{IsWellFormed};
ghost use Rattle.gcl_model.specs.Wide.{wide};
ghost use Rattle.live_version.specs.Contents.{VersionContent, version_text};
ghost use Rattle.collection.specs.Engines.{last_of};
ghost use Rattle.outside.specs.Causes.{HasWriteCause, CountsWriteFault};
ghost use Rattle.script_lang.specs.Lines.{text_of_lines};
ghost use Rattle.standing_query.specs.Changes.{changes};
ghost use Rattle.standing_query.specs.Watches.{AreWellFormedWatches};
ghost use Rattle.answer_text.specs.Watching.{changes_lines, told_line, told_since, told_text, watch_lines, watched_of, watching_of};
ghost use Rattle.answer_text.specs.Puts.{GetsPart, Puts};
ghost use Rattle.answer_text.specs.Given.{AgreeApart, IsBefore, IsLocal, since};

use crate::action::Action;
use crate::answer::Answer;
use crate::pages::hand_over;
use address_space::FileId;
use change_search::ChangeListing;
use collection::Engine;
use gcl_model::Expr;
use live_version::Version;
use manifest_publish::Pass;
use outside::{Sink, WriteError};
use script_lang::put_change;
use standing_query::{Change, Watch, WatchList};
use std::alloc::{AllocError, Global};

/// A pass of the version before an action that may change what is watched.
pub fn pass_before(
    engine: &Engine,
    watches: &WatchList,
    action: &Action,
) -> Result<Option<Pass>, AllocError>
    ensures { IfOk result (IsBefore action.now engine.now watches.now) }
{
    if !action.is_edit() || watches.len() == 0 {
        return Ok(None);
    }
    let pass = engine.pass()?;
    Ok(Some(pass))
}

/// That pass, if the answer says that something was changed.
pub fn since(answer: &Answer, before: Option<Pass>) -> Option<Pass>
    ensures { result ≡ since answer.now before }
{
    if answer.is_change() { before } else { None }
}

/// Appends the line of a change.
fn put_told(out: &mut Vec<u8>, number: u64, change: Change) -> Result<(), AllocError>
    ensures { OnOk result (out.new.items ≡ out.old.items ++ told_line number change ++ 10 ∷ []) }
{
    match change {
        Change::Went(interval) => put_change(out, number, false, interval),
        Change::Came(interval) => put_change(out, number, true, interval),
    }
}

/// Puts a line for a change.
fn put_step<K: Sink>(
    sink: &mut K,
    out: &mut Vec<u8>,
    number: u64,
    change: Change,
) -> Result<(), WriteError>
    ensures puts { OnOk result (Puts (K.written sink.old) (K.written sink.new) out.old.items out.new.items
        (told_text number (change ∷ []))) }
    ensures part { OnErr result (GetsPart (K.written sink.old) (K.written sink.new) (out.old.items ++ told_text number (change ∷ []))) }
    ensures cause { HasWriteCause (K.faults sink.old) (K.faults sink.new) result }
    ensures counts { CountsWriteFault (K.faults sink.old) (K.faults sink.new) result }
{
    put_told(out, number, change)?;
    hand_over(sink, out)?;
    Ok(())
}

/// Puts a line for each change that is still to come.
fn put_listing<K: Sink>(
    alloc: Global,
    sink: &mut K,
    out: &mut Vec<u8>,
    number: u64,
    listing: &mut ChangeListing,
) -> Result<(), WriteError>
    ensures puts { OnOk result (Puts (K.written sink.old) (K.written sink.new) out.old.items out.new.items (told_text number listing.old)) }
    ensures part { OnErr result (GetsPart (K.written sink.old) (K.written sink.new) (out.old.items ++ told_text number listing.old)) }
    ensures cause { HasWriteCause (K.faults sink.old) (K.faults sink.new) result }
    ensures counts { CountsWriteFault (K.faults sink.old) (K.faults sink.new) result }
{
    while let Some(change) = listing.next(alloc)? {
        put_step(sink, out, number, change)?;
    }
    Ok(())
}

/// Puts a line for each change.
fn put_all_changes<K: Sink>(
    alloc: Global,
    sink: &mut K,
    out: &mut Vec<u8>,
    number: u64,
    listing: ChangeListing,
) -> Result<(), WriteError>
    ensures puts { OnOk result (Puts (K.written sink.old) (K.written sink.new) out.old.items out.new.items (told_text number listing)) }
    ensures part { OnErr result (GetsPart (K.written sink.old) (K.written sink.new) (out.old.items ++ told_text number listing)) }
    ensures cause { HasWriteCause (K.faults sink.old) (K.faults sink.new) result }
    ensures counts { CountsWriteFault (K.faults sink.old) (K.faults sink.new) result }
{
    let mut listing = listing;
    let put = put_listing(alloc, sink, out, number, &mut listing);
    // dropped by name: at the end of its block this takes long to prove
    drop(listing);
    put
}

/// Where an edit may have changed the text: at the addresses of the file that came or went. Nothing is known of an opened image.
fn edited(answer: &Answer, before: &Version) -> Option<(u64, u64)>
    ensures { (now : VersionContent) → IsLocal answer.now before.now now →
        AgreeApart result (version_text before.now) (version_text now) }
{
    match answer {
        Answer::Added(_, first, last) => Some((*first, *last)),
        Answer::Gone(id) => {
            let file = before.find_file(FileId(*id))?;
            Some((file.base, file.base + file.len - 1))
        }
        _ => None,
    }
}

/// What was changed of the list of an expression between the versions of two passes.
fn changes_of(
    alloc: Global,
    before: Pass,
    after: Pass,
    expr: &Expr,
    range: Option<(u64, u64)>,
) -> Result<ChangeListing, AllocError>
    requires well_formed { IsWellFormed (form_of expr.now) }
    requires apart { AgreeApart range (version_text (last_of before.history)) (version_text (last_of after.history)) }
    ensures { IfOk result (λ listing. listing ≡ changes (wide (version_text (last_of before.history)) (form_of expr.now))
        (wide (version_text (last_of after.history)) (form_of expr.now))) }
{
    match range {
        Some((from, upto)) => ChangeListing::between(alloc, before, after, expr, from, upto),
        None => ChangeListing::of(alloc, before, after, expr),
    }
}

/// What was changed of the list of a watch since the version of a pass.
fn changes_since(
    alloc: Global,
    watch: &Watch,
    before: &Pass,
    range: Option<(u64, u64)>,
    engine: &Engine,
) -> Result<ChangeListing, AllocError>
    requires well_formed { IsWellFormed (form_of watch.now.expr) }
    requires apart { AgreeApart range (version_text (last_of before.now.history)) (version_text engine.now.version) }
    ensures { IfOk result (λ listing. told_text watch.now.id listing ≡
        text_of_lines (watch_lines (version_text (last_of before.now.history)) (version_text engine.now.version) (watched_of watch.now))) }
{
    let after = engine.pass()?;
    let old = before.again()?;
    changes_of(alloc, old, after, &watch.expr, range)
}

/// Puts what was changed of the list of a watch since the version of a pass.
fn put_watch<K: Sink>(
    alloc: Global,
    sink: &mut K,
    out: &mut Vec<u8>,
    watch: &Watch,
    before: &Pass,
    range: Option<(u64, u64)>,
    engine: &Engine,
) -> Result<(), WriteError>
    requires well_formed { IsWellFormed (form_of watch.now.expr) }
    requires apart { AgreeApart range (version_text (last_of before.now.history)) (version_text engine.now.version) }
    ensures puts { OnOk result (Puts (K.written sink.old) (K.written sink.new) out.old.items out.new.items
        (text_of_lines (watch_lines (version_text (last_of before.now.history)) (version_text engine.now.version)
        (watched_of watch.now)))) }
    ensures part { OnErr result (GetsPart (K.written sink.old) (K.written sink.new) (out.old.items ++
        text_of_lines (watch_lines (version_text (last_of before.now.history)) (version_text engine.now.version) (watched_of watch.now)))) }
    ensures cause { HasWriteCause (K.faults sink.old) (K.faults sink.new) result }
    ensures counts { CountsWriteFault (K.faults sink.old) (K.faults sink.new) result }
{
    let listing = changes_since(alloc, watch, before, range, engine)?;
    put_all_changes(alloc, sink, out, watch.id, listing)
}

/// Puts what was changed for each live watch since the version of a pass, in rising number.
fn put_watches<K: Sink>(
    alloc: Global,
    sink: &mut K,
    out: &mut Vec<u8>,
    watches: &WatchList,
    before: &Pass,
    range: Option<(u64, u64)>,
    engine: &Engine,
) -> Result<(), WriteError>
    requires well_formed { AreWellFormedWatches watches.now.live }
    requires apart { AgreeApart range (version_text (last_of before.now.history)) (version_text engine.now.version) }
    ensures puts { OnOk result (Puts (K.written sink.old) (K.written sink.new) out.old.items out.new.items
        (text_of_lines (changes_lines (watching_of watches.now) (version_text (last_of before.now.history))
        (version_text engine.now.version)))) }
    ensures part { OnErr result (GetsPart (K.written sink.old) (K.written sink.new) (out.old.items ++
        text_of_lines (changes_lines (watching_of watches.now) (version_text (last_of before.now.history))
        (version_text engine.now.version)))) }
    ensures cause { HasWriteCause (K.faults sink.old) (K.faults sink.new) result }
    ensures counts { CountsWriteFault (K.faults sink.old) (K.faults sink.new) result }
{
    for i in 0..watches.len() {
        put_watch(alloc, sink, out, watches.get(i), before, range, engine)?;
    }
    Ok(())
}

/// Puts what was changed for each live watch since the version of a pass, if there is one.
pub fn put_changes<K: Sink>(
    alloc: Global,
    sink: &mut K,
    out: &mut Vec<u8>,
    watches: &WatchList,
    before: Option<Pass>,
    answer: &Answer,
    engine: &Engine,
) -> Result<(), WriteError>
    requires well_formed { AreWellFormedWatches watches.now.live }
    requires local { IfSome before (λ pass. IsLocal answer.now (last_of pass.history) engine.now.version) }
    ensures puts { OnOk result (Puts (K.written sink.old) (K.written sink.new) out.old.items out.new.items
        (text_of_lines (told_since before watches.now engine.now.version))) }
    ensures part { OnErr result (GetsPart (K.written sink.old) (K.written sink.new) (out.old.items ++
        text_of_lines (told_since before watches.now engine.now.version))) }
    ensures cause { HasWriteCause (K.faults sink.old) (K.faults sink.new) result }
    ensures counts { CountsWriteFault (K.faults sink.old) (K.faults sink.new) result }
{
    match before {
        None => Ok(()),
        Some(pass) => {
            let range = edited(answer, pass.version());
            let put = put_watches(alloc, sink, out, watches, &pass, range, engine);
            drop(pass);
            put
        }
    }
}
