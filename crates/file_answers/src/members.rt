ghost use Rattle.std.specs.Prelude.{◌≡◌, ◌+◌, ◌<◌, ◌≤◌, ◌++◌, [], length, take, IfOk, IfSome, OnOk};
ghost use Rattle.outside.specs.Causes.{CountsWriteFault};
ghost use Rattle.gcl_model.specs.Access.{first_start};
ghost use Rattle.gcl_model.specs.FormOf.{form_of};
ghost use Rattle.gcl_model.specs.Limits.{far};
ghost use Rattle.gcl_model.specs.Meaning.{concordance};
ghost use Rattle.gcl_model.specs.WellFormed.{IsWellFormed};
ghost use Rattle.gcl_readers.specs.MergeCost.{cost_left, merge_cost};
ghost use Rattle.gcl_readers.specs.Standing.{Stands, start_at};
ghost use Rattle.file_answers.specs.Searched.{passages_of};
ghost use Rattle.file_answers.specs.Written.{GetsPart, Moves};

use crate::member_places::MemberPlaces;
use crate::mode::Mode;
use crate::writer::PassageWriter;
use gcl_model::{Expr, Interval, Leaves, Ledger, Steps};
use gcl_readers::Readers;
use outside::{Sink, WriteError};

/// What is asked of a file: an expression, the most answers that count, and what is written of them.
#[derive(Clone, Copy)]
pub struct Asking<'a> {
    pub expr: &'a Expr,
    pub most: u64,
    pub mode: Mode,
}

/// The first member that starts at or after an address, by readers that have not passed any such member.
pub fn next_member<L: Leaves, S: Ledger>(
    readers: &mut Readers,
    expr: &Expr,
    leaves: &L,
    from: u64,
    steps: &mut Steps<S>,
) -> Option<Interval>
    requires well_formed { IsWellFormed (form_of expr.now) }
    requires below { from < far }
    requires stands { Stands (L.text leaves.now) (form_of expr.now) readers.old }
    requires behind { start_at readers.old ≤ from }
    ensures answer { result ≡ first_start (concordance (L.text leaves.now) (form_of expr.now)) from }
    ensures below { IfSome result (λ a. a.start + 1 < far) }
    ensures ordered { IfSome result (λ a. a.start ≤ a.end) }
    ensures stands { Stands (L.text leaves.now) (form_of expr.now) readers.new }
    ensures behind { IfSome result (λ a. start_at readers.new ≤ a.start) }
    ensures cost { steps.new + cost_left (L.text leaves.now) (L.most leaves.now) (form_of expr.now) readers.new
        ≤ steps.old + cost_left (L.text leaves.now) (L.most leaves.now) (form_of expr.now) readers.old }
{
    // the span shows that addresses end
    let _span = leaves.span();
    readers.next(expr, leaves, from, steps)
}

/// Puts the text of the first answers, and returns how many there are. Memory is that of the file and a piece, however many there are.
pub fn put_answers<L: Leaves, S: Ledger, W: PassageWriter, K: Sink>(
    sink: &mut K,
    out: &mut Vec<u8>,
    leaves: &L,
    steps: &mut Steps<S>,
    asking: &Asking<'_>,
    bytes: &[u8],
    writer: &mut W,
) -> Result<u64, WriteError>
    requires well_formed { IsWellFormed (form_of asking.now.expr.now) }
    requires size { W.size writer.old ≡ length bytes.now }
    requires fresh { W.reached writer.old ≡ 0 }
    requires nothing { W.text writer.old [] ≡ [] }
    ensures moves { OnOk result (Moves (K.written sink.old) (K.written sink.new)
        (out.old.items ++ W.text writer.old (passages_of bytes.now
        (take asking.now.most (concordance (L.text leaves.now) (form_of asking.now.expr.now))))) out.new.items) }
    ensures part { GetsPart (K.written sink.old) (K.written sink.new)
        (out.old.items ++ W.text writer.old (passages_of bytes.now
        (take asking.now.most (concordance (L.text leaves.now) (form_of asking.now.expr.now))))) }
    ensures count { IfOk result (λ n. n ≡ length (take asking.now.most (concordance (L.text leaves.now) (form_of asking.now.expr.now)))) }
    ensures cost { steps.new ≤ steps.old + merge_cost (L.text leaves.now) (L.most leaves.now) (form_of asking.now.expr.now) }
    ensures counts { CountsWriteFault (K.faults sink.old) (K.faults sink.new) result }
{
    let mut readers = Readers::new(*out.allocator(), asking.expr)?;
    let mut places = MemberPlaces::new(bytes);
    let most = asking.most;
    let mut put = 0;
    let mut from = 0;
    while put < most {
        let Some(member) = next_member(&mut readers, asking.expr, leaves, from, steps) else {
            return Ok(put);
        };
        writer.put(sink, out, places.passage_of(member))?;
        put += 1;
        from = member.start + 1;
    }
    Ok(put)
}
