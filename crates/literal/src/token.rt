ghost use Rattle.std.specs.Prelude.{◌≡◌, ◌-◌, ◌≤◌, length, take, drop, MatchResult};
ghost use Rattle.std.specs.Str.{IsCharBoundary};
ghost use Rattle.syntax.specs.Spans.{length_of};
ghost use Rattle.literal.specs.Texts.{place_in, text_of};

use crate::text::{get_source_str, place_in};
use refusal::Refusal;
use syntax::Span;

// A part of the source as text, and a span that is at least as long.
#[derive(Clone, Copy)]
pub(crate) struct Token<'a> {
    pub(crate) text: &'a str,
    pub(crate) span: Span,
    ghost within: { length text.now ≤ length_of span },
}

impl<'a> Token<'a> {
    // The token that a span of the source covers.
    pub(crate) fn of(source: &'a [u8], span: Span) -> Result<Token<'a>, Refusal>
        ensures { MatchResult result (λ t. (text_of source.now span ≡ Ok t.text.now) × (t.span ≡ span)) (λ e. text_of source.now span ≡ Err e) }
    {
        let text = get_source_str(source, span)?;
        Ok(Token { text, span })
    }

    // The place between two distances from the start.
    pub(crate) fn place(&self, from: usize, to: usize) -> Span
        requires { (from ≤ length self.now.text.now) × (to ≤ length self.now.text.now) }
        ensures { result ≡ place_in self.now.span from to }
    {
        place_in(self.span, from, to)
    }

    // The part between two distances from the start.
    pub(crate) fn part(&self, from: usize, to: usize) -> Token<'a>
        requires order { from ≤ to }
        requires start { IsCharBoundary self.now.text.now from }
        requires end { IsCharBoundary self.now.text.now to }
        ensures text { result.text.now ≡ take (to - from) (drop from self.now.text.now) }
        ensures span { result.span ≡ place_in self.now.span from to }
    {
        Token {
            text: &self.text[from..to],
            span: self.place(from, to),
        }
    }
}
