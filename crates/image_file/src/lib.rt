//! Images: a collection as bytes, in two versions of one format.
//!
//! Contracts see bytes as the spelling of a collection (`specs/Images.antt`): the numbers, the files and the terms of
//! the collection's words, laid out field by field (`specs/Fields.antt`). By the laws here a collection has one
//! spelling of a version, no bytes spell two collections, and none are of both versions.
//!
//! The layer above saves a version by `image`, in version 2. Of a file `a` with `to be or not to be` starting at address
//! 0, the image has 97 bytes, however its index was merged.
#![tactic(auto)]

mod files;
mod format;
mod laws;
mod numbers;
mod terms;
mod whole;

pub use format::Format;
pub use laws::{
    a_collection_has_one_spelling, bytes_are_of_one_version, bytes_spell_one_collection,
    collections_have_spellings,
};
pub use whole::{MARK_ONE, MARK_TWO, image};
