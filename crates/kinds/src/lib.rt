// The kinds of node and token of a YARA syntax tree.
#![tactic(auto)]

mod kind;

pub use kind::{SyntaxKind, UnknownKind};
