ghost use Rattle.std.specs.Prelude.{◌≡◌, ◌≤◌, length, IfOk};
ghost use Rattle.syntax.specs.Spans.{length_of};
ghost use Rattle.literal.specs.Texts.{part_of, place_in, seen, text_of};
ghost use Rattle.literal.specs.Utf8.{valid_prefix, Longest};

use refusal::Refusal;
use std::str::from_utf8;
use syntax::Span;

// The bytes of the source that a span covers: all of them where it lies inside the source.
// Two parameters and no struct: the source stays the same for a whole condition, the span changes with each call.
pub fn get_source(source: &[u8], span: Span) -> &[u8]
    ensures { result.now ≡ part_of source.now span }
{
    let end = span.end().min(source.len());
    let start = span.start().min(end);
    &source[start..end]
}

// The place between two distances from the start of a span.
pub(crate) fn place_in(span: Span, from: usize, to: usize) -> Span
    requires { (from ≤ length_of span) × (to ≤ length_of span) }
    ensures { result ≡ place_in span from to }
{
    Span {
        start: span.start + from as u32,
        end: span.start + to as u32,
    }
}

// The length of the longest front that is well-formed UTF-8.
pub fn valid_prefix(bytes: &[u8]) -> usize
    ensures value { result ≡ valid_prefix bytes.now }
    ensures longest { Longest bytes.now result }
{
    match from_utf8(bytes) {
        Ok(_) => bytes.len(),
        Err(e) => e.valid_up_to(),
    }
}

// The same bytes as text; refused at the byte behind the longest well-formed front.
pub fn get_source_str(source: &[u8], span: Span) -> Result<&str, Refusal>
    ensures value { seen result ≡ text_of source.now span }
    ensures bound { IfOk result (λ t. length t.now ≤ length_of span) }
{
    from_utf8(get_source(source, span)).map_err(|e| {
        let front = e.valid_up_to();
        Refusal::InvalidUTF8(place_in(span, front, front + 1))
    })
}
