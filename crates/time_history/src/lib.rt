//! The updates of one entity in the order of time, and spans of them.
//!
//! What was tuned. Each choice was measured, in turn with what it took the place of, and no
//! contract rests on it.
//!
//! - **One update lies in the history itself.** Most entities of a large file have one. A second
//!   would make each history 56 bytes longer; it takes a block instead, one allocation, for which
//!   the history has the place in itself.
//! - **The values of an update lie in its row.** They lay in a list beside the times, each update
//!   with the place of its own, and one place stood for updates without values. Now an update at
//!   the end of a history writes to one block in place of two, half as many blocks are asked for
//!   and moved, and no place has to be kept. A million records with a value took a seventh less
//!   time and a sixth less memory where each node writes to forty others, and a twentieth less time
//!   and an eighth less memory where edges are between any two nodes. An update without values
//!   takes as much, 56 bytes in place of 32: files without properties took the same time, and up to
//!   half as much memory again.
//! - **Pairs of a key and a value are nothing, one pair or a block.** A `SmallVec` of one pair
//!   keeps a count beside the pair, so that each update took 8 bytes more.
#![tactic(auto)]

mod history;
mod search;
mod span;
mod updates;

pub use history::History;
pub use span::Span;
pub use updates::{KeyValues, Kind, Update};
