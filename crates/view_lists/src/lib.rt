//! What a view shows, listed.
//!
//! What was tuned. Each choice was measured, in turn with what it took the place of, and no
//! contract rests on it.
//!
//! - **Listed events are sorted by the rank of their node or edge**, so that events of one moment
//!   compare no names. The sort is in place and need not keep equals in order: all keys differ, so
//!   it gives the one arranged list.
//! - **A listing asks each node and each edge of the store for its span, once.** A view answers for
//!   one node or edge at a time, and none of its calls says which of them have events, so a listing
//!   of a narrow window still asks them all: 0.1 to 0.3 us each. Beside that it takes time for what
//!   is shown: the nodes and edges that have events are sorted, then the keys of their events.
//! - **What is carried is gathered in one pass back over the earlier updates**, from the last one,
//!   each value where its key has none yet, until a deletion or until every key of the store has a
//!   value. So no update is read twice, and where the last update sets every key no other is read.
//!   `History::value`, which looks for one key, would go over the history once for each.
#![tactic(auto)]

mod borrowed;
mod listing;
mod moments;
mod types;
mod whole_list;

pub use borrowed::{BorrowedEvent, Property, borrowed_event};
pub use listing::{EventPlace, ShownEntity, ShownEvents, Subject, list_places};
pub use moments::{Moment, Moments, edge_moments, node_moments};
pub use types::{TypedNode, list_typed_nodes};
pub use whole_list::{WholeList, list_whole};
