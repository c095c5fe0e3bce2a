//! The accepted events of a graph, kept as histories of numbered nodes and edges, and the types of
//! nodes.
//!
//! What was tuned. Each choice was measured, in turn with what it took the place of, and no
//! contract rests on it.
//!
//! - **An edge lies there as its pair and its layer.** Its ends are those of the pair, so source
//!   and destination are not kept again. The two lie in lists of their own, of 4 bytes and of 1, so
//!   that the layers, which are what a search for an edge reads, are one byte for each edge and
//!   stay in the processor's own memory.
#![tactic(auto)]

mod edges;
mod filing;
mod judging;
mod keys;
mod naming;
mod numbered;
mod pairs;
mod store;
mod taking;
mod types;
mod walks;

pub use judging::{Count, StoreRefusal};
pub use store::Store;
pub use taking::Filed;
pub use walks::{EdgeId, EdgeWalk, NodeId, PairId, PairWalk};
