ghost use Rattle.std.specs.Prelude.{◌≡◌, false, ◌∷◌, ◌++◌, MatchOption, None};
ghost use Rattle.std.specs.Str.{chars};
ghost use Rattle.literal.specs.Regexps.{has, closing, modifiers_of, as_regexp, regexp_of};

use crate::token::Token;
use refusal::Refusal;
use syntax::Span;

// A regular expression: where its body stands, and its modifiers `i` and `s`.
#[derive(Clone, Copy, Debug, PartialEq, Eq)]
pub struct Regexp {
    pub body: Span,
    pub case_insensitive: bool,
    pub dot_matches_new_line: bool,
}

// What stands between the slash that an expression has to begin with and its last one, which is another, and what stands behind.
fn split_slashes(re: &str) -> Option<(&str, &str)>
    ensures { MatchOption result (closing re.now ≡ None) (λ p. (re.now ≡ 47 ∷ (p.0.now ++ 47 ∷ p.1.now)) × (has 47 p.1.now ≡ false)) }
{
    re.strip_prefix('/')?.rsplit_once('/')
}

impl Token<'_> {
    // Whether the modifiers have an `i`, and an `s`.
    fn modifiers(&self) -> Result<(bool, bool), Refusal>
        ensures { result ≡ modifiers_of self.now.span 0 (chars self.now.text.now) }
    {
        let mut case_insensitive = false;
        let mut dot_matches_new_line = false;
        for (at, c) in self.text.char_indices() {
            match c {
                'i' => case_insensitive = true,
                's' => dot_matches_new_line = true,
                _ => return Err(Refusal::InvalidModifier(self.place(at, at + c.len_utf8()))),
            }
        }
        Ok((case_insensitive, dot_matches_new_line))
    }

    fn as_regexp(&self) -> Result<Regexp, Refusal>
        ensures { result ≡ as_regexp self.now.text.now self.now.span }
    {
        let Some((body, tail)) = split_slashes(self.text) else {
            return Err(Refusal::BadToken(self.span));
        };
        let end = 1 + body.len();
        let tail = Token {
            text: tail,
            span: self.place(end + 1, self.text.len()),
        };
        let (case_insensitive, dot_matches_new_line) = tail.modifiers()?;
        Ok(Regexp {
            body: self.place(1, end),
            case_insensitive,
            dot_matches_new_line,
        })
    }
}

// The regular expression that a span of the source covers.
pub fn regexp_lit(source: &[u8], span: Span) -> Result<Regexp, Refusal>
    ensures { result ≡ regexp_of source.now span }
{
    Token::of(source, span)?.as_regexp()
}
