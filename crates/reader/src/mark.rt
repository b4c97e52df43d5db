ghost use Rattle.std.specs.Prelude.{MatchBool};
ghost use Rattle.reader.specs.Symbols.{Fits};

use kinds::SyntaxKind;
use syntax::Event;

// What an event has to be.
#[derive(Clone, Copy, Debug, PartialEq, Eq)]
pub enum Mark {
    Begin(SyntaxKind),
    End(SyntaxKind),
    Token(SyntaxKind),
}

impl Mark {
    // Whether an event is so.
    pub fn fits(self, event: Event) -> bool
        ensures { MatchBool result (Fits self event) (Fits self event → ⊥) }
    {
        // One arm for each form: joined by or-patterns, the proof did not close.
        match (self, event) {
            (Mark::Begin(kind), Event::Begin { kind: other, .. }) => other == kind,
            (Mark::End(kind), Event::End { kind: other, .. }) => other == kind,
            (Mark::Token(kind), Event::Token { kind: other, .. }) => other == kind,
            _ => false,
        }
    }
}
