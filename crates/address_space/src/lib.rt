//! Files at addresses: their ids, their ranges of addresses and their names.
//!
//! Contracts see a `Range` as its first and last address, a `FileRecord`, shared or not, as a plain record of its four parts, and a
//! `FileRun` as a list of these, by rising id and address. Addresses are below 2^56.
//!
//! The layers above use `place`, which gives a file the next addresses or says that they are spent, `is_name`, which
//! says what a file may be called, the kept order of a `FileRun`, and the laws: each step keeps a collection sound, its
//! words are where its addresses say, and the slots of its index stay few as files are added and slots merged. Of the
//! addresses starting at 7, a file that needs three has 7 to 9.
#![tactic(auto)]

mod file_id;
mod file_record;
mod file_run;
mod laws;
mod names;
mod places;
mod range;
mod shared_record;
mod slot_laws;

pub use file_id::FileId;
pub use file_record::FileRecord;
pub use file_run::FileRun;
pub use laws::{
    adding_keeps_soundness, deleting_keeps_soundness, start_is_sound, steps_keep_soundness,
    words_are_at_addresses, words_are_text,
};
pub use names::{NAME_MOST, is_name};
pub use places::{AddressesSpent, place};
pub use range::Range;
pub use shared_record::SharedRecord;
pub use slot_laws::{
    adding_keeps_tiers, merging_keeps_tiers, opening_makes_tiers, tails_are_joined, tiers_are_few,
};
