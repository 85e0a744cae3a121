//! Reading images: the version that stands for what the bytes of an image say, and a refusal of all other bytes.
//!
//! Contracts see the answer by the definition of an image (`image_file: specs/Images.antt`): the bytes spell a
//! collection, in either version of the format, and the version stands for it as one that was just opened
//! (`specs/Answers.antt`). Unless memory runs out, bytes that spell none are `NotImage`, and no others ever are.
//!
//! The bytes are gone through once, and nothing is sized by a number that they state before that many bytes are there:
//! the marks that say at which addresses a term was read are no more than the bytes that are left for the terms.
//!
//! The layer above opens what it loads by `read_image`. Of the 97 bytes of a file `a` with `to be or not to be` it
//! makes a version with that file at 0 to 7, and of their first 96 none.
#![tactic(auto)]

mod addresses;
mod fault;
mod files;
mod front;
mod guesses;
mod head;
mod marks;
mod places;
mod read;
mod terms;

pub use fault::ImageFault;
pub use read::read_image;
