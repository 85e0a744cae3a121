ghost use Rattle.std.specs.Prelude.{◌≡◌, ◌+◌, ◌≤◌, IfOk};
ghost use Rattle.gcl_model.specs.FormOf.{form_of};
ghost use Rattle.gcl_model.specs.Meaning.{concordance};
ghost use Rattle.gcl_model.specs.WellFormed.{IsWellFormed};
ghost use Rattle.gcl_model.specs.Wide.{wide};
ghost use Rattle.live_version.specs.Contents.{version_text};
ghost use Rattle.prefix_terms.specs.Costs.{prefix_cost};
ghost use Rattle.wide_terms.specs.Expansion.{expansion, sum_of_prefixes};

use crate::words::matching;
use gcl_model::{Expr, Ledger, Steps, TokenList};
use live_version::Version;
use std::alloc::{AllocError, Global};
use std::marker::PhantomData;
use wide_terms::WordTable;

/// The words of a version, with look-ups counted on one kind of ledger.
#[derive(Drop)]
pub struct VersionWords<'a, S: Ledger> {
    version: &'a Version,
    ledger: PhantomData<S>,
}

impl<'a, S: Ledger> VersionWords<'a, S> {
    pub fn new(version: &'a Version) -> Self
        ensures { result.version.now ≡ version.now }
    {
        VersionWords {
            version,
            ledger: PhantomData,
        }
    }
}

impl<S: Ledger> WordTable for VersionWords<'_, S> {
    ghost use Rattle.live_version.specs.Contents.{version_text};
    ghost use Rattle.prefix_terms.specs.Costs.{prefix_cost};

    type Counter = Steps<S>;

    ghost text = { λ t. version_text t.version.now };

    ghost most = { λ t prefix. prefix_cost t.version.now prefix };

    ghost count = { λ steps. steps };

    fn matching(
        &self,
        alloc: Global,
        prefix: &[u8],
        steps: &mut Steps<S>,
    ) -> Result<TokenList, AllocError> {
        matching(alloc, self.version, prefix, steps)
    }
}

/// The expression with each prefix term replaced by one of the words of the version that begin with its prefix. Its concordance list is the
/// wide list of the expression, so an evaluator answers a query with prefix terms by evaluating it. It depends on the words and the
/// expression alone.
///
/// Over `to be or not to be` it turns `t* .. b*` into `to .. be`.
pub fn expand<S: Ledger>(
    alloc: Global,
    version: &Version,
    expr: &Expr,
    steps: &mut Steps<S>,
) -> Result<Expr, AllocError>
    requires { IsWellFormed (form_of expr.now) }
    ensures value { IfOk result (λ expanded. form_of expanded ≡ expansion (version_text version.now) (form_of expr.now)) }
    ensures wide { IfOk result (λ expanded.
        concordance (version_text version.now) (form_of expanded) ≡ wide (version_text version.now) (form_of expr.now)) }
    ensures well_formed { IfOk result (λ expanded. IsWellFormed (form_of expanded)) }
    ensures counted { steps.old ≤ steps.new }
    ensures cost { steps.new ≤ steps.old + sum_of_prefixes (prefix_cost version.now) (form_of expr.now) }
{
    let words = VersionWords::<S>::new(version);
    wide_terms::expand(alloc, &words, expr, steps)
}
