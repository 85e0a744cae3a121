//! Editors in several threads that add and delete through one engine under a lock, while merges are made outside of it.
//!
//! For a `Book`, the value under the lock, contracts see the engine, the journal of all answered edits and how many replies of each kind
//! there are; for an `Editor` its number and its own counts; and for a `Plan` the names of the slots that it merges, the slot that takes
//! their place, and the history that it was made from. The journal is always a history of one thread, and the engine stands for the
//! collection at its end.
//!
//! The layer above opens a book with its editors and readers, puts it under the lock of a `SharedEngine`, gives each thread an editor, and
//! closes it with all editors. What a reply carries, a receipt or a pass, shows that the reply is right. A reader plans a merge with
//! `plan_merge`, without the lock, and settles it. The plan is taken unless one of its slots is no longer in its place, or the reader
//! cannot enter the engine's last version: then the engine merges by itself.
//!
//! Two editors each add a file of one word to an empty collection: one gets the addresses 0 to 2, the other 3 to 5, and the journal has
//! both entries in that order, whichever editor came first.
#![tactic(auto)]

mod book;
mod closed;
mod draft;
mod editor;
mod entry;
mod faults;
mod naming;
mod opened;
mod plan;
mod settle;
mod shared;

pub use book::Book;
pub use closed::{Closed, Journal};
pub use editor::Editor;
pub use entry::{Edit, EditReply, Entry};
pub use faults::{FiledAddFault, FiledDeleteFault, SettleFault, StaleSlot};
pub use naming::Naming;
pub use opened::SharedOpened;
pub use plan::{Plan, SlotName, plan_merge};
pub use shared::SharedEngine;
