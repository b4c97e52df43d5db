use source::{EventSource, Fault, Packed, Row, append, append_end};
use std::test::Fail;
use syntax::{Event, Span, SyntaxKind};

// How many events a source gives, and the fault that it closes with, if any.
fn drain<S: EventSource>(source: &mut S) -> (usize, Option<Fault>) {
    let mut events = 0usize;
    while let Ok(Some(_event)) = source.take() {
        events = events.saturating_add(1);
    }
    (events, source.look().err())
}

fn read(bytes: &[u8]) -> (usize, Option<Fault>) {
    drain(&mut Packed::new(bytes))
}

#[test]
fn heads(rt: HostRuntime) {
    for bytes in [&[][..], &[0], &[9, 0], &[1, 0, 10]] {
        assert_eq!(rt; read(bytes), (0, Some(Fault::Cut)), "{bytes:?}");
    }
    for bytes in [&[0, 0, 0][..], &[0, 0, 0, 9, 9]] {
        assert_eq!(rt; read(bytes), (0, None), "{bytes:?}");
    }
    for bytes in [&[5, 0, 10], &[255, 255, 255]] {
        assert_eq!(rt; read(bytes), (0, Some(Fault::UnknownTag)), "{bytes:?}");
    }
    for bytes in [
        &[0, 0, 10],
        &[0, 1, 0],
        &[1, 0, 0],
        &[4, 0, 9],
        &[4, 0, 11],
        &[4, 10, 0],
    ] {
        assert_eq!(rt; read(bytes), (0, Some(Fault::WrongLength)), "{bytes:?}");
    }
}

#[test]
fn payloads(rt: HostRuntime) {
    let cut = [3, 0, 10, 0, 126, 0, 0, 0, 1, 0, 0, 0];
    assert_eq!(rt; read(&cut), (0, Some(Fault::Cut)));
    let known = [3, 0, 10, 0, 126, 0, 0, 0, 1, 0, 0, 0, 2];
    assert_eq!(rt; read(&known), (1, Some(Fault::Cut)));
    let unknown = [3, 0, 10, 0, 127, 0, 0, 0, 1, 0, 0, 0, 2, 0, 0, 0];
    assert_eq!(rt; read(&unknown), (0, Some(Fault::UnknownKind)));
    let message = [4, 0, 10, 0, 127, 0, 0, 0, 1, 0, 0, 0, 2, 0, 0, 0];
    assert_eq!(rt; read(&message), (1, None));
    let then_tag = [4, 0, 10, 0, 127, 0, 0, 0, 1, 0, 0, 0, 2, 5, 0, 0];
    assert_eq!(rt; read(&then_tag), (1, Some(Fault::UnknownTag)));
}

#[test]
fn largest(rt: HostRuntime) -> Result<(), Fail> {
    let span = Span {
        start: u32::MAX,
        end: 16909060,
    };
    let message = u16::MAX;
    let kind = SyntaxKind::SOURCE_FILE;
    let mut bytes = Vec::new(rt.alloc());
    append(&mut bytes, Event::Error { message, span })?;
    append(&mut bytes, Event::End { kind, span })?;
    append_end(&mut bytes)?;
    let mut source = Packed::new(bytes.as_slice());
    assert_eq!(rt; source.take(), Ok(Some(Event::Error { message, span })));
    assert_eq!(rt; source.look(), Ok(Some(Event::End { kind, span })));
    assert_eq!(rt; source.left(), 16);
    assert_eq!(rt; read(bytes.as_slice()), (2, None));
    Ok(())
}

// The row's events, then the end, and the end again.
#[test]
fn rows(rt: HostRuntime) {
    for events in [&[][..], &[Event::blank(), Event::blank()]] {
        let mut row = Row::new(events);
        assert_eq!(rt; drain(&mut row), (events.len(), None));
        assert_eq!(rt; drain(&mut row), (0, None));
    }
}

// The numbers and words that the documents give.
#[test]
fn faults(rt: HostRuntime) -> Result<(), Fail> {
    let faults = [
        (Fault::Cut, 1, "Cut"),
        (Fault::UnknownTag, 2, "UnknownTag"),
        (Fault::WrongLength, 3, "WrongLength"),
        (Fault::UnknownKind, 4, "UnknownKind"),
    ];
    for (fault, number, word) in faults {
        assert_eq!(rt; fault.number(), number);
        assert_eq!(rt; fault.to_string(rt.alloc())?.as_str(), word);
    }
    Ok(())
}
