use crate::failure::Failure;
use kinds::UnknownKind;
use source::{append, append_end};
use std::alloc::Global;
use std::str::FromStr;
use syntax::{Event, Span};
use thiserror::Error;

// What is wrong with a line of a listing.
#[derive(Clone, Copy, Debug, PartialEq, Eq, Error)]
pub enum Flaw {
    #[error("it is not UTF-8")]
    NotText,
    #[error("it begins with none of begin, end, token and error")]
    Event,
    #[error("it names {0}")]
    Kind(#[from] UnknownKind),
    #[error("the message is no number up to 65535")]
    Message,
    #[error("a place is no number up to 4294967295")]
    Place,
    #[error("it has fewer than four words")]
    Missing,
    #[error("it has more than four words")]
    Surplus,
}

// The packed form of the events that a listing names, and the end.
pub fn pack(heap: Global, listing: &[u8]) -> Result<Vec<u8>, Failure> {
    let text = std::str::from_utf8(listing).map_err(|error| Failure::Line {
        number: line_at(listing, error.valid_up_to()),
        flaw: Flaw::NotText,
    })?;
    let mut bytes = Vec::new(heap);
    for (number, line) in (1..).zip(text.lines()) {
        let event = event(line).map_err(|flaw| Failure::Line { number, flaw })?;
        if let Some(event) = event {
            append(&mut bytes, event)?;
        }
    }
    append_end(&mut bytes)?;
    Ok(bytes)
}

// The number of the line that holds the byte at a place, from 1.
fn line_at(listing: &[u8], place: usize) -> usize {
    let before = listing.iter().take(place);
    before
        .filter(|byte| **byte == b'\n')
        .count()
        .saturating_add(1)
}

// The event of a line; none where the line is empty or a comment.
fn event(line: &str) -> Result<Option<Event>, Flaw> {
    let mut words = line.split_whitespace();
    let Some(first) = words.next().filter(|word| !word.starts_with('#')) else {
        return Ok(None);
    };
    let step: Step = first.parse()?;
    let (Some(what), Some(start), Some(end)) = (words.next(), words.next(), words.next()) else {
        return Err(Flaw::Missing);
    };
    if words.next().is_some() {
        return Err(Flaw::Surplus);
    }
    let start = number(start).ok_or(Flaw::Place)?;
    let end = number(end).ok_or(Flaw::Place)?;
    Ok(Some(step.event(what, Span { start, end })?))
}

// The first word of an event's line.
#[derive(Clone, Copy)]
enum Step {
    Begin,
    End,
    Token,
    Error,
}

impl FromStr for Step {
    type Err = Flaw;

    fn from_str(word: &str) -> Result<Step, Flaw> {
        match word {
            "begin" => Ok(Step::Begin),
            "end" => Ok(Step::End),
            "token" => Ok(Step::Token),
            "error" => Ok(Step::Error),
            _ => Err(Flaw::Event),
        }
    }
}

impl Step {
    // The event whose second word is `what`.
    fn event(self, what: &str, span: Span) -> Result<Event, Flaw> {
        Ok(match self {
            Step::Begin => Event::Begin {
                kind: what.parse()?,
                span,
            },
            Step::End => Event::End {
                kind: what.parse()?,
                span,
            },
            Step::Token => Event::Token {
                kind: what.parse()?,
                span,
            },
            Step::Error => Event::Error {
                message: number(what).ok_or(Flaw::Message)?,
                span,
            },
        })
    }
}

// A number with no sign: `parse` takes one.
fn number<N: FromStr>(word: &str) -> Option<N>
where
    N::Err: Drop,
{
    if word.starts_with('+') {
        return None;
    }
    word.parse().ok()
}
