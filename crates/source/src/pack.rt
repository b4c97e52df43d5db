ghost use Rattle.std.specs.Prelude.{◌≡◌, None, true, List, [], ◌∷◌, ◌++◌, is_ok, if◌then◌else◌};
ghost use Rattle.syntax.specs.declared.event.Event.{Event};
ghost use Rattle.source.specs.Means.{Means};
ghost use Rattle.source.specs.Records.{tag_of, number_in, record_of, end_record, written};

use std::alloc::AllocError;
use syntax::Event;

// The format's number for what an event is.
fn tag(event: &Event) -> u8
    ensures { result ≡ tag_of event.now }
{
    match event {
        Event::Begin { .. } => 1,
        Event::End { .. } => 2,
        Event::Token { .. } => 3,
        Event::Error { .. } => 4,
    }
}

// The kind's number, or the message.
fn number(event: &Event) -> u16
    ensures { result ≡ number_in event.now }
{
    match event {
        Event::Begin { kind, .. } | Event::End { kind, .. } | Event::Token { kind, .. } => {
            kind.number()
        }
        Event::Error { message, .. } => *message,
    }
}

fn record(event: &Event) -> [u8; 13]
    ensures { result ≡ record_of event.now }
{
    let span = event.span();
    let [m, n] = number(event).to_be_bytes();
    let [s, t, u, v] = span.start.to_be_bytes();
    let [w, x, y, z] = span.end.to_be_bytes();
    [tag(event), 0, 10, m, n, s, t, u, v, w, x, y, z]
}

// Appends an event's record; for want of memory, nothing.
pub fn append(bytes: &mut Vec<u8>, event: Event) -> Result<(), AllocError>
    ensures items { bytes.new.items ≡ (if is_ok result then bytes.old.items ++ record_of event else bytes.old.items) }
    ensures ok { (es : List Event) → bytes.old.items ≡ written es → is_ok result ≡ true → bytes.new.items ≡ written (es ++ event ∷ []) }
{
    bytes.extend_from_slice(&record(&event))
}

// Appends the end's record: what was written before it, and then the end, is what the bytes mean.
pub fn append_end(bytes: &mut Vec<u8>) -> Result<(), AllocError>
    ensures items { bytes.new.items ≡ (if is_ok result then bytes.old.items ++ end_record else bytes.old.items) }
    ensures ok { (es : List Event) → bytes.old.items ≡ written es → is_ok result ≡ true → Means bytes.new.items es None }
{
    bytes.extend_from_slice(&[0, 0, 0])
}
