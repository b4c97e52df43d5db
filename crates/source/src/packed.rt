ghost use Rattle.std.specs.Prelude.{◌≡◌, length, slice_index};
ghost use Rattle.source.specs.Reading.{given, content_of, front_of, events_in, close_in, ReadOneWay};

use crate::close::Fault;
use crate::event_source::EventSource;
use syntax::{Event, Span, SyntaxKind};

// Events in packed bytes, of which the first is the next record's.
#[derive(Drop)]
pub struct Packed<'a> {
    bytes: &'a [u8],
}

impl<'a> Packed<'a> {
    pub fn new(bytes: &'a [u8]) -> Packed<'a>
        ensures value { result.bytes.now ≡ bytes.now }
        ensures cases { ReadOneWay }
    {
        Packed { bytes }
    }

    // How many bytes are not taken yet.
    pub fn left(&self) -> usize
        ensures { result ≡ length self.now.bytes.now }
    {
        self.bytes.len()
    }
}

// The event of a whole record with a tag from 1 to 4.
// The tags stay numbers, here and in `pack.rt`: as an enum, matched in full, they make reading slower by half.
fn event(whole: &[u8; 13]) -> Result<Event, Fault>
    ensures { given result ≡ content_of (slice_index whole.now 0) whole.now }
{
    let [tag, _, _, m, n, s, t, u, v, w, x, y, z] = *whole;
    let number = u16::from_be_bytes([m, n]);
    let span = Span {
        start: u32::from_be_bytes([s, t, u, v]),
        end: u32::from_be_bytes([w, x, y, z]),
    };
    if tag == 4 {
        return Ok(Event::Error {
            message: number,
            span,
        });
    }
    let kind = SyntaxKind::from_number(number).ok_or(Fault::UnknownKind)?;
    match tag {
        1 => Ok(Event::Begin { kind, span }),
        2 => Ok(Event::End { kind, span }),
        3 => Ok(Event::Token { kind, span }),
        _ => Err(Fault::UnknownKind),
    }
}

// What stands first in the bytes.
fn front(bytes: &[u8]) -> Result<Option<Event>, Fault>
    ensures { result ≡ front_of bytes.now }
{
    let [tag, high, low, ..] = bytes else {
        return Err(Fault::Cut);
    };
    if *tag > 4 {
        return Err(Fault::UnknownTag);
    }
    let size = u16::from_be_bytes([*high, *low]);
    if *tag == 0 {
        return if size == 0 {
            Ok(None)
        } else {
            Err(Fault::WrongLength)
        };
    }
    if size != 10 {
        return Err(Fault::WrongLength);
    }
    let whole = bytes.first_chunk().ok_or(Fault::Cut)?;
    Ok(Some(event(whole)?))
}

impl<'a> EventSource for Packed<'a> {
    ghost events = { λ s. events_in s.bytes.now 0 };

    ghost close = { λ s. close_in s.bytes.now 0 };

    fn look(&self) -> Result<Option<Event>, Fault> {
        front(self.bytes)
    }

    fn take(&mut self) -> Result<Option<Event>, Fault> {
        let next = front(self.bytes);
        if let Ok(Some(_)) = next {
            self.bytes = &self.bytes[13..];
        }
        next
    }
}
