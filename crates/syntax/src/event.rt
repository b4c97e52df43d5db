ghost use Rattle.std.specs.Prelude.{◌≡◌};
ghost use Rattle.syntax.specs.Events.{blank, is_trivia, is_boundary, span_at};

use crate::span::Span;
use kinds::SyntaxKind;

// A step of the walk through a syntax tree, or an error message of the parser by its number.
#[derive(Clone, Copy, Debug, PartialEq, Eq)]
pub enum Event {
    Error { message: u16, span: Span },
    Begin { kind: SyntaxKind, span: Span },
    End { kind: SyntaxKind, span: Span },
    Token { kind: SyntaxKind, span: Span },
}

impl Event {
    // What stands in unused memory.
    pub fn blank() -> Event
        ensures { result ≡ blank }
    {
        Event::Error {
            message: 0,
            span: Span::default(),
        }
    }

    pub fn span(&self) -> Span
        ensures { result ≡ span_at self.now }
    {
        match self {
            Event::Error { span, .. }
            | Event::Begin { span, .. }
            | Event::End { span, .. }
            | Event::Token { span, .. } => *span,
        }
    }

    // Whether it is a token of white space or a comment.
    pub fn is_trivia(&self) -> bool
        ensures { result ≡ is_trivia self.now }
    {
        matches!(
            self,
            Event::Token {
                kind: SyntaxKind::WHITESPACE | SyntaxKind::NEWLINE | SyntaxKind::COMMENT,
                ..
            }
        )
    }

    // Whether a condition cannot reach over it: the next rule or statement begins, or the file ends.
    pub fn is_boundary(&self) -> bool
        ensures { result ≡ is_boundary self.now }
    {
        matches!(
            self,
            Event::Begin {
                kind: SyntaxKind::RULE_DECL | SyntaxKind::IMPORT_STMT | SyntaxKind::INCLUDE_STMT,
                ..
            } | Event::End {
                kind: SyntaxKind::SOURCE_FILE,
                ..
            }
        )
    }
}
