ghost use Rattle.std.specs.Prelude.{◌≡◌, ℕ, ◌+◌, ◌<◌, List, length, drop, slice_index};
ghost use Rattle.std.specs.Option.{option_map};
ghost use Rattle.literal.specs.Memory.{Puts};
ghost use Rattle.literal.specs.Strings.{inner, escape_place, as_string, string_of, decoded_in, decoded_bytes};
ghost use Rattle.literal.specs.Texts.{place_in};

use crate::token::Token;
use crate::unescape::unescape;
use lent::Lent;
use refusal::Refusal;
use syntax::Span;

// What a string stands for: a part of the source, or `len` bytes of the decoded text from `start` on.
#[derive(Clone, Copy, Debug, PartialEq, Eq)]
pub enum StringValue {
    Source(Span),
    Decoded { start: usize, len: usize },
}

impl<'a> Token<'a> {
    // What stands between the quotes.
    fn unquoted(&self) -> Option<Token<'a>>
        ensures { option_map {U = Span × List ℕ} (λ t. (t.span, t.text.now)) result ≡ option_map (λ p. (place_in self.now.span p.0 (p.0 + length p.1), p.1)) (inner self.now.text.now) }
    {
        let bytes = self.text.as_bytes();
        let n = bytes.len();
        match bytes {
            [b'"', b'"', b'"', .., b'"', b'"', b'"'] => Some(self.part(3, n - 3)),
            [b'"', b'"', b'"', ..] => None,
            [b'"', .., b'"'] => Some(self.part(1, n - 1)),
            _ => None,
        }
    }

    // The place of a bad escape: the backslash and the next character, if there is one.
    fn escape_place(&self, at: usize) -> Option<Span>
        requires { (at < length self.now.text.now) × (slice_index self.now.text.now at ≡ 92) }
        ensures { result ≡ escape_place self.now.span self.now.text.now (drop at self.now.text.now) }
    {
        let next = self.text[at + 1..].chars().next()?;
        Some(self.place(at, at + 1 + next.len_utf8()))
    }

    fn as_string(&self, text: &mut Lent<u8>) -> Result<StringValue, Refusal>
        ensures value { result ≡ as_string self.now.text.now self.now.span text.old.used }
        ensures memory { Puts (decoded_in self.now.text.now) text.old text.new }
    {
        let Some(inner) = self.unquoted() else {
            return Err(Refusal::BadToken(self.span));
        };
        let bytes = inner.text.as_bytes();
        if !bytes.contains(&b'\\') {
            return Ok(StringValue::Source(inner.span));
        }
        let start = text.used;
        match unescape(bytes, text) {
            Ok(len) => Ok(StringValue::Decoded { start, len }),
            Err(at) => Err(
                inner
                    .escape_place(at)
                    .map_or(Refusal::BadToken(self.span), Refusal::InvalidEscape),
            ),
        }
    }
}

// The string literal that a span of the source covers.
// With a backslash, what it stands for is put behind what is used of `text`, as far as it fits and up to a bad escape.
pub fn string_lit(source: &[u8], span: Span, text: &mut Lent<u8>) -> Result<StringValue, Refusal>
    ensures value { result ≡ string_of source.now span text.old.used }
    ensures memory { Puts (decoded_bytes source.now span) text.old text.new }
{
    Token::of(source, span)?.as_string(text)
}
