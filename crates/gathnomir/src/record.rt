use crate::shown::Shown;
use crate::value::Value;
use source::{EventSource, Packed};
use std::alloc::{AllocError, Global};
use std::io;
use std::io::Write;
use std::num::Saturating;
use syntax::{Event, Span, SyntaxKind};

// Prints each packed event, how they close, and totals.
pub fn print<W: Write + Drop>(heap: Global, out: W, source: &[u8], bytes: &[u8]) -> io::Result<()> {
    let mut packed = Packed::new(bytes);
    let mut record = Record {
        out,
        heap,
        source,
        open: Vec::new(heap),
        totals: Totals::default(),
    };
    while let Ok(Some(event)) = packed.take() {
        record.event(event)?;
    }
    let at = bytes.len().saturating_sub(packed.left());
    match packed.look() {
        Ok(_) => writeln!(record.out, "closed: end at byte {at}")?,
        Err(fault) => {
            let number = fault.number();
            writeln!(record.out, "closed: fault {number} {fault} at byte {at}")?;
        }
    }
    record.totals()?;
    record.out.flush()
}

// What was seen of the events so far, and where they are printed.
#[derive(Drop)]
struct Record<'a, W> {
    out: W,
    heap: Global,
    source: &'a [u8],
    // The nodes that are open, the innermost last.
    open: Vec<SyntaxKind>,
    totals: Totals,
}

#[derive(Clone, Copy, Default)]
struct Totals {
    begins: Saturating<usize>,
    ends: Saturating<usize>,
    tokens: Saturating<usize>,
    errors: Saturating<usize>,
    trivia: Saturating<usize>,
    reach: usize,
    gaps: Saturating<usize>,
    conditions: Saturating<usize>,
    deepest: usize,
    reversed: Saturating<usize>,
    outside: Saturating<usize>,
}

impl Totals {
    fn events(&self) -> Saturating<usize> {
        self.begins + self.ends + self.tokens + self.errors
    }
}

impl<W: Write + Drop> Record<'_, W> {
    fn event(&mut self, event: Event) -> io::Result<()> {
        let number = self.totals.events();
        write!(self.out, "{number:>6}  ")?;
        match event {
            Event::Begin { kind, span } => self.begin(kind, span),
            Event::End { kind, span } => self.end(kind, span),
            Event::Token { kind, span } => self.token(kind, span, event.is_trivia()),
            Event::Error { message, span } => self.error(message, span),
        }
    }

    fn begin(&mut self, kind: SyntaxKind, span: Span) -> io::Result<()> {
        self.totals.begins += 1;
        self.indent()?;
        let (range, note) = (span.range(), self.note(span));
        writeln!(self.out, "begin {kind} {range:?}{note}")?;
        if kind == SyntaxKind::BOOLEAN_EXPR && !self.open.contains(&kind) {
            self.totals.conditions += 1;
        }
        self.open.push(kind)?;
        self.totals.deepest = self.totals.deepest.max(self.open.len());
        Ok(())
    }

    fn end(&mut self, kind: SyntaxKind, span: Span) -> io::Result<()> {
        self.totals.ends += 1;
        let closes = self.open.pop();
        self.indent()?;
        let (range, note) = (span.range(), self.note(span));
        write!(self.out, "end {kind} {range:?}{note}")?;
        match closes {
            None => writeln!(self.out, " (nothing open)"),
            Some(open) if open != kind => writeln!(self.out, " (open: {open})"),
            Some(_) => writeln!(self.out),
        }
    }

    fn token(&mut self, kind: SyntaxKind, span: Span, trivia: bool) -> io::Result<()> {
        self.totals.tokens += 1;
        self.indent()?;
        write!(self.out, "token {kind} {:?}", span.range())?;
        if let Some(text) = self.source.get(span.range()) {
            // First, so that nothing of the text is said where there is no room.
            let mut room = self.room(kind, span)?;
            write!(self.out, " {}", Shown(text))?;
            self.value(kind, span, room.as_mut_slice())?;
            self.cover(span);
        }
        if trivia {
            self.totals.trivia += 1;
            self.out.write_all(b" trivia")?;
        }
        let note = self.note(span);
        writeln!(self.out, "{note}")
    }

    // Room for what a string stands for, as long as its token.
    fn room(&self, kind: SyntaxKind, span: Span) -> Result<Vec<u8>, AllocError> {
        let length = match kind {
            SyntaxKind::STRING_LIT => span.len(),
            _ => 0,
        };
        vec![in self.heap; 0; length]
    }

    // Prints what a name or a literal stands for, or why it is refused.
    fn value(&mut self, kind: SyntaxKind, span: Span, room: &mut [u8]) -> io::Result<()> {
        match Value::of(kind, self.source, span, room) {
            Ok(None) => Ok(()),
            Ok(Some(value)) => write!(self.out, " = {value}"),
            Err(refusal) => {
                let (number, place) = (refusal.number(), refusal.place().range());
                write!(self.out, " = refused {number} {refusal} at {place:?}")
            }
        }
    }

    fn error(&mut self, message: u16, span: Span) -> io::Result<()> {
        self.totals.errors += 1;
        self.indent()?;
        let (range, note) = (span.range(), self.note(span));
        writeln!(self.out, "error {message} {range:?}{note}")
    }

    fn indent(&mut self) -> io::Result<()> {
        for _ in &self.open {
            self.out.write_all(b"  ")?;
        }
        Ok(())
    }

    // Counts a span that does not lie within the source, and says so.
    fn note(&mut self, span: Span) -> &'static str {
        if span.end < span.start {
            self.totals.reversed += 1;
            " (reversed)"
        } else if span.end() > self.source.len() {
            self.totals.outside += 1;
            " (outside the source)"
        } else {
            ""
        }
    }

    // Counts the bytes between the tokens before and this one.
    fn cover(&mut self, span: Span) {
        let gap = span.start().saturating_sub(self.totals.reach);
        self.totals.gaps += gap;
        self.totals.reach = self.totals.reach.max(span.end());
    }

    fn totals(&mut self) -> io::Result<()> {
        let Totals {
            begins,
            ends,
            tokens,
            errors,
            trivia,
            reach,
            gaps,
            conditions,
            deepest,
            reversed,
            outside,
        } = self.totals;
        let events = self.totals.events();
        let other = tokens - trivia;
        let length = self.source.len();
        let gaps = gaps + Saturating(length.saturating_sub(reach));
        let open = self.open.len();
        writeln!(
            self.out,
            "events: {events} ({begins} begin, {ends} end, {tokens} token, {errors} error)"
        )?;
        writeln!(
            self.out,
            "tokens: {trivia} trivia, {other} other; gaps {gaps} bytes of {length}"
        )?;
        writeln!(
            self.out,
            "nodes: {conditions} conditions, {deepest} deepest, {open} open at the close"
        )?;
        writeln!(
            self.out,
            "spans: {reversed} reversed, {outside} outside the source"
        )
    }
}
