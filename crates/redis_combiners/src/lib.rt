//! Combines the replies of several nodes into one.
#![tactic(auto)]

pub mod answers;
mod arrange;
mod arrays;
mod fit;
mod logical;
mod maps;
mod places;
mod sorted;
mod sums;

pub use arrays::combine_array_results;
pub use logical::logical_aggregate;
pub use maps::combine_map_results;
pub use sorted::combine_and_sort_array_results;
pub use sums::aggregate;
