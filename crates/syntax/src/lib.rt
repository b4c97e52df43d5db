// Spans and events of a YARA syntax tree.
#![tactic(auto)]

mod event;
mod span;

pub use event::Event;
pub use kinds::SyntaxKind;
pub use span::Span;
