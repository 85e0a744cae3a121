ghost use Rattle.std.specs.Prelude.{◌≡◌, true, IfOk, map};
ghost use Rattle.std.specs.List.{list_all};
ghost use Rattle.gcl_model.specs.Wide.{is_prefix_term};
ghost use Rattle.live_version.specs.Contents.{version_text};
ghost use Rattle.prefix_places.specs.Places.{wide_places};
ghost use Rattle.prefix_leaves.specs.Prefixes.{AreOver, tokens_of};

use crate::terms::PrefixTerms;
use gcl_model::Bytes;
use live_version::Version;
use prefix_places::PrefixPlaces;
use std::alloc::{AllocError, Global};
use std::marker::Model;

/// Some prefix terms with their places over a version. Contracts see the terms, each with its places.
#[derive(Drop)]
pub struct PrefixTable {
    prefixes: Vec<PrefixPlaces>,
}

impl Model for PrefixTable {
    ghost use Rattle.std.specs.Prelude.{List};
    ghost use Rattle.prefix_places.specs.Places.{PrefixContent};

    ghost Value = { List PrefixContent };

    ghost view = { λ t. t.prefixes.items };
}

impl PrefixTable {
    /// These terms over the version: all their places are gathered here. `Err` means out of memory.
    pub fn of(
        alloc: Global,
        version: &Version,
        terms: &PrefixTerms,
    ) -> Result<PrefixTable, AllocError>
        ensures over { IfOk result (λ table. AreOver (version_text version.now) table) }
        ensures terms { IfOk result (λ table. tokens_of table ≡ terms.now) }
    {
        let prefixes = places_of(alloc, version, terms.as_slice())?;
        Ok(PrefixTable { prefixes })
    }

    /// Each of them.
    pub fn as_slice(&self) -> &[PrefixPlaces]
        ensures { result.now ≡ self.now }
    {
        self.prefixes.as_slice()
    }
}

/// The places of each term.
fn places_of(
    alloc: Global,
    version: &Version,
    terms: &[Bytes],
) -> Result<Vec<PrefixPlaces>, AllocError>
    requires { list_all is_prefix_term terms.now ≡ true }
    ensures terms { IfOk result (λ table. tokens_of table.items ≡ terms.now) }
    ensures exact { IfOk result (λ table. map (λ p. p.places) table.items ≡
        map (λ p. wide_places (version_text version.now).words p.token) table.items) }
{
    let mut prefixes = Vec::with_capacity(alloc, terms.len())?;
    for term in terms {
        prefixes.push(PrefixPlaces::of(alloc, version, term.as_slice())?)?;
    }
    Ok(prefixes)
}
