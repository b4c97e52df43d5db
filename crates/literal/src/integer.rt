ghost use Rattle.std.specs.Prelude.{◌≡◌, ℕ, ◌-◌, ◌^◌, ◌<◌, ◌≤◌, length, pos};
ghost use Rattle.std.specs.Option.{option_map};
ghost use Rattle.literal.specs.Digits.{written as written_in, without, up_to};
ghost use Rattle.literal.specs.Integers.{before, factor, behind, plain_number, integer_number, as_integer, integer_of, negated};
ghost use Rattle.literal.specs.Numerals.{pushed};

use crate::number::Number;
use crate::token::Token;
use refusal::Refusal;
use syntax::Span;

// An integer literal: 64 bits, whether they stand for a number above 2^63 - 1, and where its text stands, without a suffix.
// The flag stands beside the bits because the slot format, a rule of the project, has both.
#[derive(Clone, Copy, Debug, PartialEq, Eq)]
pub struct Integer {
    pub value: i64,
    pub unsigned: bool,
    pub name: Span,
}

// The text before a size suffix, and what the suffix multiplies by.
pub fn strip_size_suffix(literal: &str) -> (&str, u64)
    ensures value { (result.0.now ≡ before literal.now) × (result.1 ≡ factor literal.now) }
{
    if let Some(text) = literal.strip_suffix("KB") {
        (text, 1024)
    } else if let Some(text) = literal.strip_suffix("MB") {
        (text, 1_048_576)
    } else {
        (literal, 1)
    }
}

// The base of an integer literal. No enum: its number would be found anew at each digit, which takes a tenth longer.
#[derive(Clone, Copy)]
struct Base {
    radix: u32,
    ghost bound: { (2 ≤ radix) × (radix ≤ 36) },
}

// A number with one more digit behind it, if the byte is one and 64 bits hold the result.
fn push_digit(sum: u64, base: Base, byte: u8) -> Option<u64>
    ensures { result ≡ pushed base.radix sum byte }
{
    let digit = char::from(byte).to_digit(base.radix)?;
    sum.checked_mul(u64::from(base.radix))?
        .checked_add(u64::from(digit))
}

// The number that digits write, underscores passed over, if 64 bits hold it.
fn written(text: &[u8], base: Base) -> Option<u64>
    ensures { result ≡ up_to (2 ^ 64 - 1) (written_in base.radix (without text.now)) }
{
    let mut number = None;
    for b in text {
        if *b != b'_' {
            number = Some(push_digit(number.unwrap_or(0), base, *b)?);
        }
    }
    number
}

// What stands behind `0x`, underscores passed over.
fn behind_hex(text: &str) -> Option<&str>
    ensures { option_map (λ x. without x.now) result ≡ behind 120 (without text.now) }
{
    let rest = text.trim_start_matches('_').strip_prefix('0')?;
    rest.trim_start_matches('_').strip_prefix('x')
}

// The digits of a text without a suffix, and their base.
fn split_base(text: &str) -> (&str, Base)
    ensures { plain_number text.now ≡ written_in result.1.radix (without result.0.now) }
{
    if let Some(digits) = behind_hex(text) {
        (digits, Base { radix: 16 })
    } else if let Some(digits) = text.strip_prefix("0o") {
        (digits, Base { radix: 8 })
    } else {
        (text, Base { radix: 10 })
    }
}

// The number that a literal writes, if 64 bits hold it.
fn integer_number(literal: &str) -> Option<u64>
    ensures { result ≡ up_to (2 ^ 64 - 1) (integer_number literal.now) }
{
    let (text, factor) = strip_size_suffix(literal);
    let (digits, base) = split_base(text);
    written(digits.as_bytes(), base)?.checked_mul(factor)
}

// The number that a literal writes, as a number of the kind asked for, if it is at most the kind's largest.
pub fn parse_integer<N: Number>(literal: &str) -> Option<N>
    ensures { option_map N.Number.value result ≡ option_map pos (up_to N.Number.TOP (integer_number literal.now)) }
{
    N::from_u64(integer_number(literal)?)
}

impl Token<'_> {
    fn as_integer(&self) -> Result<Integer, Refusal>
        ensures { result ≡ as_integer self.now.text.now self.now.span }
    {
        let name = self.place(0, strip_size_suffix(self.text).0.len());
        if let Some(value) = parse_integer::<i64>(self.text) {
            return Ok(Integer {
                value,
                unsigned: false,
                name,
            });
        }
        let Some(bits) = parse_integer::<u64>(self.text) else {
            return Err(Refusal::InvalidInteger(self.span));
        };
        Ok(Integer {
            value: bits.cast_signed(),
            unsigned: true,
            name,
        })
    }
}

// The integer literal that a span of the source covers.
pub fn integer_lit(source: &[u8], span: Span) -> Result<Integer, Refusal>
    ensures { result ≡ integer_of source.now span }
{
    Token::of(source, span)?.as_integer()
}

impl Integer {
    // With a minus sign before it: the literal that the two make, the place from the sign on; absent where a Minus is left.
    pub fn negated(self, span: Span) -> Result<Option<Integer>, Refusal>
        ensures { result ≡ negated self span }
    {
        let value = match (self.unsigned, self.value) {
            (false, 1..) => -self.value,
            (true, i64::MIN) => self.value,
            (true, _) => return Err(Refusal::InvalidInteger(span)),
            (false, _) => return Ok(None),
        };
        Ok(Some(Integer {
            value,
            unsigned: false,
            name: span,
        }))
    }
}
