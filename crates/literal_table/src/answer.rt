ghost use Rattle.std.specs.Prelude.{◌<◌, IfSome};

use lent::Lent;
use literal::{
    Integer, Regexp, StringValue, float_lit, get_source_str, integer_lit, regexp_lit, string_lit,
};
use refusal::Refusal;
use std::alloc::{AllocError, Global};
use std::fmt;
use syntax::Span;

// Room for what the strings of the table stand for.
const ROOM: usize = 256;

// What a line of the table asks for, by its first letter.
#[derive(Clone, Copy, PartialEq, Eq)]
pub enum Kind {
    Integer,
    Minus,
    Name,
    Float,
    String,
    Regexp,
}

impl From<&str> for Kind {
    fn from(letter: &str) -> Kind {
        match letter {
            "i" => Kind::Integer,
            "m" => Kind::Minus,
            "n" => Kind::Name,
            "f" => Kind::Float,
            "s" => Kind::String,
            // `r`, and any letter that the table does not have.
            _ => Kind::Regexp,
        }
    }
}

// What a literal is; `to_string` gives the table's words, which are not those of the program, so that each has its own.
#[derive(Clone, Copy)]
enum Meaning<'a> {
    Integer(Integer),
    Minus,
    Name,
    Float(f64),
    Source(Span),
    Decoded(&'a [u8]),
    Regexp(Regexp),
}

impl fmt::Display for Meaning<'_> {
    fn fmt<W: fmt::Write>(&self, f: &mut fmt::Formatter<W>) -> fmt::Result {
        match self {
            Meaning::Integer(integer) => {
                let sign = if integer.unsigned {
                    "unsigned"
                } else {
                    "signed"
                };
                let name = integer.name.range();
                write!(f, "integer:{}:{sign}:{name:?}", integer.value)
            }
            Meaning::Minus => f.write_str("minus"),
            Meaning::Name => f.write_str("name"),
            Meaning::Float(value) if value.is_nan() => f.write_str("nan"),
            Meaning::Float(value) => write!(f, "float:{:016x}", value.to_bits()),
            Meaning::Source(span) => write!(f, "source:{:?}", span.range()),
            Meaning::Decoded([]) => f.write_str("decoded:-"),
            Meaning::Decoded(bytes) => write!(f, "decoded:{}", Hex(bytes)),
            Meaning::Regexp(regexp) => {
                let body = regexp.body.range();
                let modifiers = match (regexp.case_insensitive, regexp.dot_matches_new_line) {
                    (true, true) => "is",
                    (true, false) => "i",
                    (false, true) => "s",
                    (false, false) => "-",
                };
                write!(f, "regexp:{body:?}:{modifiers}")
            }
        }
    }
}

#[derive(Clone, Copy)]
struct Hex<'a>(&'a [u8]);

impl fmt::Display for Hex<'_> {
    fn fmt<W: fmt::Write>(&self, f: &mut fmt::Formatter<W>) -> fmt::Result {
        for byte in self.0 {
            write!(f, "{byte:02x}")?;
        }
        Ok(())
    }
}

// The value of a small hexadecimal digit. Not `to_digit`: it takes capitals too.
fn digit(byte: u8) -> Option<u8>
    ensures { IfSome result (λ d. d < 16) }
{
    match byte {
        b'0'..=b'9' => Some(byte - b'0'),
        b'a'..=b'f' => Some(byte - b'a' + 10),
        _ => None,
    }
}

// Some blanks, and the bytes that a token's hexadecimal digits write; what is no digit counts as 0.
fn source(heap: Global, blanks: usize, token: &str) -> Result<Vec<u8>, AllocError> {
    let mut bytes = vec![in heap; b' '; blanks]?;
    if token != "-" {
        let (pairs, _) = token.as_bytes().as_chunks::<2>();
        for [high, low] in pairs {
            let (high, low) = (digit(*high).unwrap_or(0), digit(*low).unwrap_or(0));
            bytes.push(high * 16 + low)?;
        }
    }
    Ok(bytes)
}

// The answer for the literal at a span of the source; behind a minus the span begins at that.
fn read<'a>(
    kind: Kind,
    source: &'a [u8],
    span: Span,
    text: &'a mut [u8],
) -> Result<Meaning<'a>, Refusal> {
    Ok(match kind {
        Kind::Integer => Meaning::Integer(integer_lit(source, span)?),
        Kind::Minus => minus(source, span)?,
        Kind::Name => {
            get_source_str(source, span)?;
            Meaning::Name
        }
        Kind::Float => Meaning::Float(float_lit(source, span)?),
        Kind::String => string(source, span, text)?,
        Kind::Regexp => Meaning::Regexp(regexp_lit(source, span)?),
    })
}

fn minus(source: &[u8], whole: Span) -> Result<Meaning<'static>, Refusal> {
    let span = Span {
        start: whole.start.saturating_add(1),
        end: whole.end,
    };
    let literal = integer_lit(source, span)?;
    get_source_str(source, whole)?;
    Ok(match literal.negated(whole)? {
        Some(folded) => Meaning::Integer(folded),
        None => Meaning::Minus,
    })
}

fn string<'a>(source: &[u8], span: Span, text: &'a mut [u8]) -> Result<Meaning<'a>, Refusal> {
    let mut lent = Lent {
        items: &mut *text,
        used: 0,
    };
    Ok(match string_lit(source, span, &mut lent)? {
        StringValue::Source(part) => Meaning::Source(part),
        StringValue::Decoded { len, .. } => Meaning::Decoded(text.get(..len).unwrap_or(text)),
    })
}

// What a literal of a kind, some blanks behind the source's start, is, in the table's words.
pub fn answer(heap: Global, kind: Kind, blanks: &str, token: &str) -> Result<String, AllocError> {
    let before = blanks.parse::<u8>().unwrap_or(0);
    let minus = usize::from(kind == Kind::Minus);
    let bytes = source(heap, usize::from(before) + minus, token)?;
    let span = Span {
        start: u32::from(before),
        end: bytes.len().min(1_000_000) as u32,
    };
    let mut text = [0; ROOM];
    match read(kind, &bytes, span, &mut text) {
        Ok(answer) => answer.to_string(heap),
        Err(refusal) => {
            let (number, place) = (refusal.number(), refusal.place().range());
            format!(in heap; "refused:{number}:{place:?}")
        }
    }
}
