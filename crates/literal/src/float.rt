ghost use Rattle.std.specs.Prelude.{◌≡◌, ◌+◌, ◌^◌, ◌<◌, ◌≤◌, false, IfSome};
ghost use Rattle.std.specs.Float.{binary64};
ghost use Rattle.std.specs.Float.Ieee.{round};
ghost use Rattle.std.specs.Option.{option_map};
ghost use Rattle.literal.specs.Digits.{without};
ghost use Rattle.literal.specs.Floats.{decimal_of, as_float, float_of, Quotients};
ghost use Rattle.literal.specs.Numerals.{capped_pair, pushed_byte};

use crate::token::Token;
use refusal::Refusal;
use syntax::Span;

// What was read of a float: its digits as a whole number, the largest of 64 bits where they are more, once there is one;
// how many stand behind the dot, once there is one.
#[derive(Clone, Copy)]
pub struct Decimal {
    digits: Option<u64>,
    places: Option<usize>,
}

impl Decimal {
    // With one byte more, if it is a digit or the first dot.
    fn push(self, byte: u8) -> Option<Decimal>
        requires { IfSome self.places (λ k. k + 1 < 2 ^ 64) }
        ensures { result ≡ pushed_byte self byte }
    {
        if let Some(value) = char::from(byte).to_digit(10) {
            let digits = self.digits.unwrap_or(0).saturating_mul(10);
            Some(Decimal {
                digits: Some(digits.saturating_add(u64::from(value))),
                places: self.places.map(|k| k + 1),
            })
        } else if byte == b'.' && self.places.is_none() {
            Some(Decimal {
                digits: self.digits,
                places: Some(0),
            })
        } else {
            None
        }
    }
}

// A float's digits and how many stand behind the dot, underscores passed over; absent for any other form.
fn read_decimal(text: &[u8]) -> Option<(u64, usize)>
    ensures { result ≡ option_map capped_pair (decimal_of (without text.now)) }
{
    let mut decimal = Decimal {
        digits: None,
        places: None,
    };
    for b in text {
        if *b != b'_' {
            decimal = decimal.push(*b)?;
        }
    }
    Some((decimal.digits?, decimal.places.unwrap_or(0)))
}

// One division of two numbers that are floats themselves.
fn quotient(digits: u64, places: u32) -> f64
    requires { (digits ≤ 2 ^ 53) × (places ≤ 15) }
    ensures { result ≡ round binary64 false digits (10 ^ places) }
{
    digits as f64 / 10u64.pow(places) as f64
}

impl Token<'_> {
    fn as_float(&self) -> Result<f64, Refusal>
        ensures { result ≡ as_float self.now.text.now self.now.span }
    {
        let Some((digits, places)) = read_decimal(self.text.as_bytes()) else {
            return Err(Refusal::InvalidFloat(self.span));
        };
        if digits > 1 << 53 || places > 15 {
            return Err(Refusal::FloatTooLong(self.span));
        }
        Ok(quotient(digits, places as u32))
    }
}

// The float literal that a span of the source covers.
pub fn float_lit(source: &[u8], span: Span) -> Result<f64, Refusal>
    ensures value { result ≡ float_of source.now span }
    ensures exact { Quotients }
{
    Token::of(source, span)?.as_float()
}
