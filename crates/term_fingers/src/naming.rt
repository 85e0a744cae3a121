use std::marker::Brand;

/// The version that terms are found in. A finger keeps members of a list, and its type says of which: so the caller names
/// the version, and at run time nothing is left of the name.
pub trait Naming {
    ghost use Rattle.live_version.specs.Contents.{VersionContent};

    /// The version.
    ghost version: { VersionContent };
}

impl Naming for Brand {
    ghost use Rattle.std.specs.Prelude.{[]};
    ghost use Rattle.live_version.specs.Contents.{version_content};

    ghost version = { version_content 0 0 0 0 0 0 [] };
}
