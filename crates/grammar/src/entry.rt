use syntax::Span;

// What an error list holds: 0 and the message of an Error event, or a refusal's number and no message; and the place.
// Numbers and no enum, since these three are the format of the error list, of which `a_condition_has_one_answer` speaks.
#[derive(Clone, Copy, Debug, PartialEq, Eq)]
pub struct Entry {
    pub number: u8,
    pub message: u16,
    pub span: Span,
}
