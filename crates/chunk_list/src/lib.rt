//! A list of keys, and what stands beside each, that takes insertions at any place, in parts of a bounded
//! length.
//!
//! What was tuned. Each choice was measured, in turn with what it took the place of, and no
//! contract rests on it.
//!
//! - **A list that grows lies in parts.** One item lies in the list itself, and up to 8 lie whole
//!   in one block of 2, 4 or 8, with the last key in the list itself: an item that comes last is
//!   compared with that, and the block is read only where the keys are equal. More lie in two
//!   blocks that grow by half, one of keys and one of what stands beside them. From the 257th item
//!   on the keys lie in parts of at most 256, whose first places stand in groups of 64. So a late
//!   update moves at most a part. An item behind a full last part, or before a full first one,
//!   opens a new part, so that lists that grow at either end have full parts. A part that is split
//!   or opened moves the first places of its group and of the groups after it, and no others: at
//!   the end that is one group, however long the list.
//! - **A short block that is full is left for a new one.** To let it grow in place, the C library's
//!   `realloc` first reads what lies behind it, which is mostly cold, and takes a slow path. So
//!   blocks of up to 256 updates move; what stands beside the times of more lies in one block that
//!   grows by `realloc`.
//! - **What stands beside the keys of a long list is never moved.** It lies in one block in the
//!   order in which it came, and each key stands in its part with its place there, a `u32`. So an
//!   insertion moves 12 bytes for an item and not its row. With rows of 32 bytes, measured in turn,
//!   800,000 updates took a quarter to a third less time shuffled, and a fifth less in falling
//!   order, together with the rule for the first part. Reading what stands beside a key looks up
//!   one place more, which in a history that came in order is the next one.
//! - **Up to eight updates lie whole.** Most entities of a large file have few updates, and a
//!   second block would take more memory than it could save in time: eight updates of 56 bytes are
//!   searched in at most four steps.
//! - **A search goes by places where parts begin.** Such a place serves as the middle where both
//!   sides have a binary digit less than the whole, and otherwise the exact middle is taken. So a
//!   search takes no more steps than the digits of its range, and most probes need no part to be
//!   looked for. Where one must be, it is looked for among those that the search has left. Where a
//!   search stands is a hint that no answer depends on; `earlier_than` and `not_after` take it as
//!   an argument.
//! - **Parts have 256 items.** In a model apart from this repository, with this search and these
//!   blocks, shuffled updates took the same time within a tenth with parts of 128, 256 and 512. In
//!   falling order 800,000 took half as long again with parts of 128, since there are twice as many
//!   first places to move.
//! - **Parts lie in one tier.** With a second one, parts of 64 in stretches of fewer than 64 parts,
//!   built and measured in turn with this, falling updates took a tenth to a quarter less, shuffled
//!   ones a sixth to a quarter more, since each probe looks up a place twice, and rising ones,
//!   which most are, a quarter to a third more.
//! - **No part's first key stands anywhere else.** In that model a list of the first keys, for the
//!   probes that look where parts begin, saved a twentieth of the time of 800,000 shuffled updates
//!   and nothing at 50,000.
//! - **What stands beside a time is moved and lent, not copied**, so that it may hold memory of its
//!   own, as the values of an update do. Where a list takes its next form, all memory for that is
//!   taken first, and then the items are moved.
#![tactic(auto)]

mod columns;
mod few;
mod list;
mod long;
mod near;
mod part;
mod parts;
mod places;
mod wide;

pub use list::ChunkList;
pub use near::Near;
