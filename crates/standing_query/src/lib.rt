//! Standing queries: what an edit changes in the list of a query, and which queries are watched.
//!
//! Contracts see `Changes` as the changes that are to come, in rising start and then rising end, and the look-ups that may be made for
//! them. `Changes::new` covers the whole lists of two expressions, those of one query expanded over two versions. After an add or a
//! deletion `Changes::after_edit` covers only the members that the edit can change, which a few accesses find. With
//! `to be or not to be` at 0 to 7, and then `x` at 8 to 10, the one change of `"be" /< ("to".."x")` is that 6 to 6 went.
//!
//! They see a `WatchList` as the live watches in rising number, each a number and an expression, and the number that the next one
//! gets. After watches 0 and 1 are added and 0 is removed, it has 1, and the next number is 2.
//!
//! The layer above expands the expression of each watch over the versions before and after an edit, and takes the changes one by one.
//! It may look for the members in a way of its own: `changed_addresses` finds between which addresses they lie, here 5 and 10.
#![tactic(auto)]

mod addresses;
mod change;
mod changes;
mod faults;
mod head;
mod laws;
mod merge;
mod operands;
mod order;
mod side;
mod watch;
mod watch_list;

pub use addresses::{Addresses, changed_addresses};
pub use change::Change;
pub use changes::Changes;
pub use faults::{NoWatch, WatchFault};
pub use laws::changes_are_exact;
pub use watch::Watch;
pub use watch_list::{MOST_WATCHES, WatchList};
