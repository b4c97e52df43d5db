ghost use Rattle.std.specs.Prelude.{◌≡◌, Some};
ghost use Rattle.refusal.specs.Refusals.{facts_of};
ghost use Rattle.refusal.specs.declared.refusal.Refusal.{Refusal};

use source::Fault;
use std::error::Error;
use std::fmt;
use syntax::Span;

// Why a condition is refused.
#[derive(Clone, Copy, Debug, PartialEq, Eq)]
pub enum Refusal {
    Damaged(Span),
    OutOfPlace(Span),
    TooDeep(Span),
    BadSpan(Span),
    InvalidUTF8(Span),
    InvalidInteger(Span),
    InvalidFloat(Span),
    InvalidEscape(Span),
    InvalidModifier(Span),
    BadToken(Span),
    TooLong,
    // What the tree needs.
    Full { slots: usize, text: usize },
    SourceTooLarge,
    SourceFault(Fault),
    FloatTooLong(Span),
}

// The part of the work that a refusal comes from.
#[derive(Clone, Copy, Debug, PartialEq, Eq)]
pub enum Layer {
    Grammar,
    Literal,
    Space,
    Source,
}

// What is said of a refusal.
#[derive(Clone, Copy)]
struct Facts {
    number: u8,
    word: &'static str,
    layer: Layer,
    place: Span,
}

impl Refusal {
    // Its number, word, layer, and the place where it arose, or 0 and 0.
    fn facts(&self) -> Facts
        ensures number { result.number ≡ (facts_of self.now).number }
        ensures word { result.word.now ≡ (facts_of self.now).word }
        ensures layer { result.layer ≡ (facts_of self.now).layer }
        ensures place { result.place ≡ (facts_of self.now).place }
    {
        let nowhere = Span::default();
        let (number, word, layer, place) = match self {
            Refusal::Damaged(place) => (1, "Damaged", Layer::Grammar, *place),
            Refusal::OutOfPlace(place) => (2, "OutOfPlace", Layer::Grammar, *place),
            Refusal::TooDeep(place) => (3, "TooDeep", Layer::Grammar, *place),
            Refusal::BadSpan(place) => (4, "BadSpan", Layer::Grammar, *place),
            Refusal::InvalidUTF8(place) => (5, "InvalidUTF8", Layer::Literal, *place),
            Refusal::InvalidInteger(place) => (6, "InvalidInteger", Layer::Literal, *place),
            Refusal::InvalidFloat(place) => (7, "InvalidFloat", Layer::Literal, *place),
            Refusal::InvalidEscape(place) => (8, "InvalidEscape", Layer::Literal, *place),
            Refusal::InvalidModifier(place) => (9, "InvalidModifier", Layer::Literal, *place),
            Refusal::BadToken(place) => (10, "BadToken", Layer::Literal, *place),
            Refusal::TooLong => (11, "TooLong", Layer::Space, nowhere),
            Refusal::Full { .. } => (12, "Full", Layer::Space, nowhere),
            Refusal::SourceTooLarge => (13, "SourceTooLarge", Layer::Space, nowhere),
            Refusal::SourceFault(_) => (14, "SourceFault", Layer::Source, nowhere),
            Refusal::FloatTooLong(place) => (15, "FloatTooLong", Layer::Literal, *place),
        };
        Facts {
            number,
            word,
            layer,
            place,
        }
    }

    pub fn number(&self) -> u8
        ensures { result ≡ (facts_of self.now).number }
    {
        self.facts().number
    }

    pub fn word(&self) -> &'static str
        ensures { result.now ≡ (facts_of self.now).word }
    {
        self.facts().word
    }

    pub fn layer(&self) -> Layer
        ensures { result ≡ (facts_of self.now).layer }
    {
        self.facts().layer
    }

    // Where it arose, or 0 and 0.
    pub fn place(&self) -> Span
        ensures { result ≡ (facts_of self.now).place }
    {
        self.facts().place
    }
}

// Writes the word.
impl fmt::Display for Refusal {
    ghost output = { λ r. Some (facts_of r).word };

    fn fmt<W: fmt::Write>(&self, f: &mut fmt::Formatter<W>) -> fmt::Result {
        f.write_str(self.word())
    }
}

impl Error for Refusal {}

impl From<Fault> for Refusal {
    ghost from_gives = { λ fault r. r ≡ Refusal.SourceFault fault };

    fn from(fault: Fault) -> Refusal {
        Refusal::SourceFault(fault)
    }
}
