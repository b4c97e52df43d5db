// The binary operators of YARA's conditions: how strongly each binds, and which node it makes or merges into.
#![tactic(auto)]

mod joining;
mod laws;
mod making;
mod precedence;

pub use joining::{goes_on, merging};
pub use laws::{
    equals_group_from_the_left, one_grouping, one_grouping_by_table, parentheses_do_not_matter,
    reading_climbs, trees_join, worked_examples,
};
pub use making::node;
pub use precedence::level;
