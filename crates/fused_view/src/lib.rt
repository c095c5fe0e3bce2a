//! Lists of views, rewritten into shorter lists that show the same.
#![tactic(auto)]

mod counts;
mod fused_ops;
mod lanes;
mod run;
mod view;

pub use counts::SearchCounts;
pub use fused_ops::{FusedOps, fuse};
pub use lanes::Lanes;
pub use view::FusedView;
