ghost use Rattle.std.specs.Prelude.{◌≡◌, Some};
ghost use Rattle.syntax.specs.Spans.{length_of, is_empty, range_of, shown, combined, covers, contains_of, subspan_of, moved as moved_by, offset_of};

use std::fmt;
use std::ops::Range;

// Where a token or node stands in the source: the first byte, and the one behind the last.
#[derive(Clone, Copy, Default, Debug, PartialEq, Eq, Hash)]
pub struct Span {
    pub start: u32,
    pub end: u32,
}

impl Span {
    pub fn start(&self) -> usize
        ensures { result ≡ self.now.start }
    {
        self.start as usize
    }

    pub fn end(&self) -> usize
        ensures { result ≡ self.now.end }
    {
        self.end as usize
    }

    pub fn len(&self) -> usize
        ensures { result ≡ length_of self.now }
    {
        self.end().saturating_sub(self.start())
    }

    pub fn is_empty(&self) -> bool
        ensures { result ≡ is_empty self.now }
    {
        !(self.start < self.end)
    }

    pub fn range(&self) -> Range<usize>
        ensures { result ≡ range_of self.now }
    {
        self.start()..self.end()
    }

    // From this span's start to the other's end.
    pub fn combine(&self, other: &Span) -> Span
        ensures { result ≡ combined self.now other.now }
    {
        Span {
            start: self.start,
            end: other.end,
        }
    }

    fn covers(&self, place: u32) -> bool
        ensures { result ≡ covers self.now place }
    {
        self.start <= place && place < self.end
    }

    // Whether this span covers the first and the last byte of the other.
    pub fn contains(&self, other: &Span) -> bool
        ensures { result ≡ contains_of self.now other.now }
    {
        self.covers(other.start) && self.covers(other.end.saturating_sub(1))
    }

    // The part between two places counted from this span's start; absent where one lies outside it.
    pub fn subspan(&self, start: usize, end: usize) -> Option<Span>
        ensures { result ≡ subspan_of self.now start end }
    {
        if self.start > self.end || start > self.len() || end > self.len() {
            return None;
        }
        Some(Span {
            start: self.start + start as u32,
            end: self.start + end as u32,
        })
    }

    // Both ends moved by `offset`; absent where one would leave the 32 bits.
    pub fn offset(self, offset: isize) -> Option<Span>
        ensures { result ≡ offset_of self offset }
    {
        let start = moved(self.start, offset)?;
        let end = moved(self.end, offset)?;
        Some(Span { start, end })
    }
}

// Writes `[start..end]`.
impl fmt::Display for Span {
    ghost output = { λ s. Some (shown s) };

    fn fmt<W: fmt::Write>(&self, f: &mut fmt::Formatter<W>) -> fmt::Result {
        let start = self.start;
        let end = self.end;
        write!(f, "[{start}..{end}]")
    }
}

fn moved(place: u32, by: isize) -> Option<u32>
    ensures { result ≡ moved_by place by }
{
    let moved = isize::try_from(place).ok()?.checked_add(by)?;
    u32::try_from(moved).ok()
}
