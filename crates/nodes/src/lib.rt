// Node tables. A `Manager` holds a table in two slices of one length, whose first `used` entries are in use: `packed` has an entry's
// level times MAX_LENGTH plus its low child, `high` its high child. Entries 0 and 1 are the constants; the children of a node
// stand before it and have larger levels. `work` has the index and the memory of results: any length, any content.
// Only this crate knows that layout and makes a `Manager`. Others begin with `Manager::new`, or with a table that stands in the slices, by
// `Manager::resume` or, where only the index of `work` is known to serve it, `Manager::with_index`; they work with the manager's methods,
// each of which answers an entry, or `Full` where the table is too short, and end with `unpack`, which leaves document 01's three slices.
// `unique::make` makes one node in slices that no manager holds, by the index alone, and leaves what stands behind the index.
#![tactic(auto)]

pub mod apply;
pub mod calls;
pub mod computed;
pub mod levels;
pub mod limits;
pub mod lookup;
pub mod manager;
pub mod quantify;
pub mod several;
pub mod single;
pub mod start;
pub mod unique;
pub mod work;
pub mod zero;
