use crate::shown::Shown;
use lent::Lent;
use literal::{
    Integer, Regexp, StringValue, float_lit, get_source, get_source_str, integer_lit, regexp_lit,
    string_lit,
};
use refusal::Refusal;
use std::fmt;
use syntax::{Span, SyntaxKind};

// What a name or a literal stands for, in the program's words; the table of literals has others, and an enum of its own.
#[derive(Clone, Copy)]
pub enum Value<'a> {
    Name,
    Integer(Integer),
    Float(f64),
    String(&'a [u8]),
    Regexp(Regexp, &'a [u8]),
}

impl<'a> Value<'a> {
    // The value of a token of a kind; none where it is no name and no literal. A string's is put into `text` where it has escapes.
    pub fn of(
        kind: SyntaxKind,
        source: &'a [u8],
        span: Span,
        text: &'a mut [u8],
    ) -> Result<Option<Value<'a>>, Refusal> {
        Ok(Some(match kind {
            SyntaxKind::IDENT
            | SyntaxKind::PATTERN_IDENT
            | SyntaxKind::PATTERN_COUNT
            | SyntaxKind::PATTERN_OFFSET
            | SyntaxKind::PATTERN_LENGTH => {
                get_source_str(source, span)?;
                Value::Name
            }
            SyntaxKind::INTEGER_LIT => Value::Integer(integer_lit(source, span)?),
            SyntaxKind::FLOAT_LIT => Value::Float(float_lit(source, span)?),
            SyntaxKind::STRING_LIT => Value::String(string(source, span, text)?),
            SyntaxKind::REGEXP => {
                let regexp = regexp_lit(source, span)?;
                Value::Regexp(regexp, get_source(source, regexp.body))
            }
            _ => return Ok(None),
        }))
    }
}

fn string<'a>(source: &'a [u8], span: Span, text: &'a mut [u8]) -> Result<&'a [u8], Refusal> {
    let mut lent = Lent {
        items: &mut *text,
        used: 0,
    };
    Ok(match string_lit(source, span, &mut lent)? {
        StringValue::Source(part) => get_source(source, part),
        StringValue::Decoded { len, .. } => text.get(..len).unwrap_or(&[]),
    })
}

impl fmt::Display for Value<'_> {
    fn fmt<W: fmt::Write>(&self, f: &mut fmt::Formatter<W>) -> fmt::Result {
        match self {
            Value::Name => f.write_str("name"),
            Value::Integer(integer) if integer.unsigned => {
                write!(f, "unsigned integer {}", integer.value.cast_unsigned())
            }
            Value::Integer(integer) => write!(f, "integer {}", integer.value),
            Value::Float(value) => write!(f, "float {value}"),
            Value::String(bytes) => write!(f, "string {}", Shown(bytes)),
            Value::Regexp(regexp, body) => {
                let i = if regexp.case_insensitive { " i" } else { "" };
                let s = if regexp.dot_matches_new_line {
                    " s"
                } else {
                    ""
                };
                write!(f, "regexp {}{i}{s}", Shown(body))
            }
        }
    }
}
