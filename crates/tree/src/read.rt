ghost use Rattle.std.specs.Prelude.{◌≡◌, ℕ, length, MatchOption};
ghost use Rattle.std.specs.Option.{option_map};
ghost use Rattle.tree.specs.Parts.{cut};
ghost use Rattle.tree.specs.Reads.{leaf_of, leaf_in, reading_of, seen, float_of, count_from, operands_of, Children};
ghost use Rattle.tree.specs.Reads.Reading.{as_string};
ghost use Rattle.tree.specs.Tells.{Tells, Counts};

use crate::node::NodeKind;
use crate::slot::{CASE_INSENSITIVE, DECODED, DOT_MATCHES_NEW_LINE, Slot, UNSIGNED};
use syntax::Span;

// Which bytes a string's value is a part of: the source, or the decoded text.
#[derive(Clone, Copy, Debug, PartialEq, Eq)]
pub enum Origin {
    Source,
    Decoded,
}

// What a slot says by bytes of the source or of the decoded text.
#[derive(Clone, Copy, Debug, PartialEq, Eq)]
pub enum Content<'a> {
    Name(&'a [u8]),
    String {
        origin: Origin,
        value: &'a [u8],
        place: usize,
    },
    Regexp {
        body: &'a [u8],
        case_insensitive: bool,
        dot_matches_new_line: bool,
    },
    // The value as the slot has it, a flag beside 64 bits: of an unsigned number its pattern. That is the slot format.
    Number {
        value: i64,
        unsigned: bool,
        text: &'a [u8],
    },
}

// A tree in slots, and the source and the decoded text that its slots name parts of.
#[derive(Clone, Copy, Debug)]
pub struct Tree<'s, 'a> {
    pub slots: &'s [Slot],
    pub source: &'a [u8],
    pub text: &'a [u8],
}

// The bytes at a place, if it lies within them.
pub fn part(bytes: &[u8], place: Span) -> Option<&[u8]>
    ensures { option_map (λ x. x.now) result ≡ cut bytes.now place }
{
    bytes.get(place.range())
}

// How many slots a link leads to, one sibling after another: absent where one leaves the slots or there are more than they.
fn siblings(slots: &[Slot], mut link: usize) -> Option<usize>
    ensures { result ≡ count_from slots.now (length slots.now) link }
{
    for count in 0..=slots.len() {
        if link == 0 {
            return Some(count);
        }
        link = slots.get(link - 1)?.next;
    }
    None
}

impl<'a> Tree<'_, 'a> {
    fn string(&self, slot: &Slot) -> Option<Content<'a>>
        ensures { option_map seen result ≡ leaf_in as_string slot.now self.now.source.now self.now.text.now }
    {
        let (origin, bytes) = if slot.has(DECODED) {
            (Origin::Decoded, self.text)
        } else {
            (Origin::Source, self.source)
        };
        Some(Content::String {
            origin,
            value: part(bytes, slot.name)?,
            place: slot.name.start(),
        })
    }

    // The content of one slot.
    pub fn slot_leaf(&self, slot: &Slot) -> Option<Content<'a>>
        ensures { option_map seen result ≡ leaf_in (reading_of slot.now.kind) slot.now self.now.source.now self.now.text.now }
    {
        match slot.kind {
            NodeKind::Ident
            | NodeKind::PatternMatch
            | NodeKind::PatternCount
            | NodeKind::PatternOffset
            | NodeKind::PatternLength
            | NodeKind::FuncCall
            | NodeKind::SetItem
            | NodeKind::WithDeclaration => Some(Content::Name(part(self.source, slot.name)?)),
            NodeKind::LiteralString => self.string(slot),
            NodeKind::Regexp => Some(Content::Regexp {
                body: part(self.source, slot.name)?,
                case_insensitive: slot.has(CASE_INSENSITIVE),
                dot_matches_new_line: slot.has(DOT_MATCHES_NEW_LINE),
            }),
            NodeKind::LiteralInteger => Some(Content::Number {
                value: slot.value,
                unsigned: slot.has(UNSIGNED),
                text: part(self.source, slot.name)?,
            }),
            _ => None,
        }
    }

    // The content of a slot: a name, a string's value, a regexp or a number.
    // Absent for other kinds, and where there is no such slot or no such place.
    pub fn leaf(&self, number: usize) -> Option<Content<'a>>
        ensures value { option_map seen result ≡ leaf_of self.now.slots.now number self.now.source.now self.now.text.now }
        ensures tells { Tells self.now.slots.now number self.now.source.now self.now.text.now (option_map seen result) }
    {
        self.slot_leaf(self.slots.get(number)?)
    }

    // The value of a slot that holds a float.
    pub fn float(&self, number: usize) -> Option<f64>
        ensures { result ≡ float_of self.now.slots.now number }
    {
        let slot = self.slots.get(number)?;
        (slot.kind == NodeKind::LiteralFloat).then_some(slot.float)
    }

    // How many children a slot has. Absent where links leave the slots or run longer than them.
    pub fn operands(&self, number: usize) -> Option<usize>
        ensures value { result ≡ operands_of self.now.slots.now number }
        ensures counts { Counts self.now.slots.now number result }
        ensures cases { MatchOption result ((n : ℕ) → Children self.now.slots.now number n → ⊥) (λ n. Children self.now.slots.now number n) }
    {
        siblings(self.slots, self.slots.get(number)?.first)
    }
}
