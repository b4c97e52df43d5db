ghost use Rattle.std.specs.Prelude.{◌≡◌, ◌+◌, ◌<◌, true, false, [], ◌∷◌, length, take as first_of, drop};
ghost use Rattle.std.specs.List.{prefix_len};
ghost use Rattle.operators.specs.Levels.{among};
ghost use Rattle.grammar.specs.Extents.{entries_in};
ghost use Rattle.grammar.specs.Tests.{is_damaged, last_end, names, opens as opens_from};
ghost use Rattle.reader.specs.States.{is_error, misplaced, is_past_depth, judged};
ghost use Rattle.reader.specs.Symbols.Sym.{one};
ghost use Rattle.reader.specs.Contract.{state_of, Kept, Peeked, Saw, Takes, There, Anywhere, Parses, Compared, Finished};
ghost use Rattle.reader.specs.declared.mark.Mark.TheVariants.{Begin as BeginOf, End as EndOf, Token as TokenOf};

use crate::mark::Mark;
use kinds::SyntaxKind;
use literal::get_source_str;
use operators::level;
use refusal::Refusal;
use syntax::{Event, Span};

// How many nodes may be open.
const LIMIT: usize = 3000;

// A row of events over a source, and how far it is read: an index, since contracts speak of the events before it too.
#[derive(Drop)]
pub struct Reader<'a> {
    pub source: &'a [u8],
    pub row: &'a [Event],
    pub at: usize,
    // Where the last token ended, and how many nodes are open.
    pub last: u32,
    pub opens: usize,
}

fn is_error(event: &Event) -> bool
    ensures { result ≡ is_error event.now }
{
    matches!(event, Event::Error { .. })
}

// So many events of a row, or all of them.
fn before(row: &[Event], at: usize) -> &[Event]
    ensures { result.now ≡ first_of at row.now }
{
    &row[..at.min(row.len())]
}

// What stands behind so many events. A part and no `skip`, which would step over these events, at each call anew.
fn behind(row: &[Event], at: usize) -> &[Event]
    ensures { result.now ≡ drop at row.now }
{
    &row[at.min(row.len())..]
}

// How many Error events there are. By addition: `filter` branches at each event, and takes half as long again.
fn count_errors(events: &[Event]) -> usize
    ensures { result ≡ length (entries_in events.now) }
{
    let mut count = 0;
    for event in events {
        count += usize::from(is_error(event));
    }
    count
}

fn is_damaged(event: Event) -> bool
    ensures { result ≡ is_damaged event }
{
    matches!(event, Event::Begin { kind, .. } if kind == SyntaxKind::ERROR)
}

impl<'a> Reader<'a> {
    pub fn new(source: &'a [u8], row: &'a [Event]) -> Self
        ensures { result ≡ record { source = source.entry; row = row.entry; at = 0; last = 0; opens = 0 } }
    {
        Reader {
            source,
            row,
            at: 0,
            last: 0,
            opens: 0,
        }
    }

    fn is_misplaced(&self, event: Event) -> bool
        ensures { result ≡ misplaced (state_of self.now) event }
    {
        matches!(event, Event::Token { span, .. }
            if span.end < span.start || self.source.len() < span.end() || span.start < self.last)
    }

    fn is_too_deep(&self, event: Event) -> bool
        ensures { result ≡ is_past_depth (state_of self.now) event }
    {
        matches!(event, Event::Begin { .. }) && LIMIT <= self.opens
    }

    // What is tested of an event wherever it stands.
    fn judge(&self, event: Event) -> Result<(), Refusal>
        ensures { result ≡ judged (state_of self.now) event }
    {
        if is_damaged(event) {
            Err(Refusal::Damaged(event.span()))
        } else if self.is_misplaced(event) {
            Err(Refusal::BadSpan(event.span()))
        } else {
            Ok(())
        }
    }

    // Counts the event, and goes past it.
    fn count(&mut self, event: Event)
        requires shallow { is_past_depth (state_of self.old) event ≡ false }
        requires at_in_bounds { self.old.at < length self.old.row.now }
        ensures kept { Kept self.old self.new }
        ensures place { self.new.at ≡ self.old.at + 1 }
        ensures last { self.new.last ≡ last_end self.old.last (event ∷ []) }
        ensures opens { self.new.opens ≡ opens_from self.old.opens (event ∷ []) }
    {
        match event {
            Event::Begin { .. } => self.opens += 1,
            Event::End { .. } => self.opens = self.opens.saturating_sub(1),
            Event::Token { span, .. } => self.last = span.end,
            Event::Error { .. } => {}
        }
        self.at += 1;
    }

    // How many Error events come next.
    fn errors_ahead(&self) -> usize
        ensures { result ≡ prefix_len is_error (drop self.now.at self.now.row.now) }
    {
        let rest = behind(self.row, self.at);
        rest.iter().take_while(|event| is_error(event)).count()
    }

    // Passes over Error events, and shows the next event.
    fn peek(&mut self) -> Option<Event>
        ensures { Peeked self.old self.new result }
    {
        // Mostly the next event is no Error event, and nothing has to be counted.
        match self.row.get(self.at) {
            Some(event) if !is_error(event) => Some(*event),
            _ => {
                self.at += self.errors_ahead();
                self.row.get(self.at).copied()
            }
        }
    }

    // Whether the next event is as asked.
    pub fn sees(&mut self, mark: Mark) -> bool
        ensures { Saw mark self.old self.new result }
    {
        self.peek().is_some_and(|event| mark.fits(event))
    }

    // Takes the next event, which has to be as asked and to pass the tests; answers its place.
    pub fn take(&mut self, mark: Mark) -> Result<Span, Refusal>
        ensures { Takes mark There self.old self.new result }
    {
        let Some(event) = self.peek() else {
            return Err(Refusal::OutOfPlace(Span::default()));
        };
        self.judge(event)?;
        let span = event.span();
        if !mark.fits(event) {
            return Err(Refusal::OutOfPlace(span));
        }
        if self.is_too_deep(event) {
            return Err(Refusal::TooDeep(span));
        }
        self.count(event);
        Ok(span)
    }

    // begin and end differ in one constant: they are two, so that calls read as the grammar does.
    pub fn begin(&mut self, kind: SyntaxKind) -> Result<(), Refusal>
        ensures { Takes (BeginOf kind) Anywhere self.old self.new result }
    {
        self.take(Mark::Begin(kind))?;
        Ok(())
    }

    pub fn end(&mut self, kind: SyntaxKind) -> Result<(), Refusal>
        ensures { Takes (EndOf kind) Anywhere self.old self.new result }
    {
        self.take(Mark::End(kind))?;
        Ok(())
    }

    pub fn expect(&mut self, kind: SyntaxKind) -> Result<Span, Refusal>
        ensures { Takes (TokenOf kind) There self.old self.new result }
    {
        self.take(Mark::Token(kind))
    }

    // A token that is a name, and so has to be text.
    pub fn identifier(&mut self, kind: SyntaxKind) -> Result<Span, Refusal>
        requires { among kind names ≡ true }
        ensures { Parses true (one (TokenOf kind)) (λ s y. y ≡ s) self.old self.new result }
    {
        let span = self.expect(kind)?;
        get_source_str(self.source, span)?;
        Ok(span)
    }

    // The next event's kind and level, if it is an operator of at least some level.
    pub fn operator(&mut self, least: u8) -> Option<(SyntaxKind, u8)>
        ensures { Compared least self.old self.new result }
    {
        let Event::Token { kind, .. } = self.peek()? else {
            return None;
        };
        let strength = level(kind)?;
        (least <= strength).then_some((kind, strength))
    }

    // Nothing may be left.
    pub fn finish(&mut self) -> Result<(), Refusal>
        ensures { Finished self.old self.new result }
    {
        let Some(event) = self.peek() else {
            return Ok(());
        };
        self.judge(event)?;
        Err(Refusal::OutOfPlace(event.span()))
    }

    // How many Error events were passed over.
    pub fn errors(&self) -> usize
        ensures { result ≡ length (entries_in (first_of self.now.at self.now.row.now)) }
    {
        count_errors(before(self.row, self.at))
    }
}
