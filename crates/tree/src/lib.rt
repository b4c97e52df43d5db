// Trees of YARA conditions in lent memory.
#![tactic(auto)]

mod laws;
mod node;
mod place;
mod read;
mod slot;

pub use laws::{layout_holds, one_tree, reached_once};
pub use node::NodeKind;
pub use place::{Aside, Placer};
pub use read::{Content, Origin, Tree, part};
pub use slot::{CASE_INSENSITIVE, DECODED, DOT_MATCHES_NEW_LINE, OBJECT, Slot, UNSIGNED, WILDCARD};
