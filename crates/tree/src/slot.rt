ghost use Rattle.std.specs.Prelude.{◌≡◌};
ghost use Rattle.tree.specs.Labels.{blank_slot, plain, slot_of};
ghost use Rattle.tree.specs.Reads.{has as has_flag};

use crate::node::NodeKind;
use syntax::Span;

// The flags of a slot, which are added up: the slot format.
pub const UNSIGNED: u8 = 1;

pub const CASE_INSENSITIVE: u8 = 2;

pub const DOT_MATCHES_NEW_LINE: u8 = 4;

pub const WILDCARD: u8 = 8;

pub const OBJECT: u8 = 16;

pub const DECODED: u8 = 32;

// A node of a tree. Links are a slot's number and one, 0 for none; what a node does not use is zero: the slot format,
// in lent memory with no heap.
#[derive(Clone, Copy, Debug, PartialEq)]
pub struct Slot {
    pub span: Span,
    pub name: Span,
    pub first: usize,
    pub next: usize,
    pub value: i64,
    pub float: f64,
    pub kind: NodeKind,
    pub flags: u8,
}

impl Slot {
    // A node with no name, number, flags or links.
    pub fn new(kind: NodeKind, span: Span) -> Slot
        ensures { result ≡ slot_of (plain kind span) 0 0 0 }
    {
        Slot {
            span,
            name: Span::default(),
            first: 0,
            next: 0,
            value: 0,
            float: 0.0,
            kind,
            flags: 0,
        }
    }

    // What an unused slot holds: zeros.
    pub fn blank() -> Slot
        ensures { result ≡ blank_slot }
    {
        Slot::new(NodeKind::Blank, Span::default())
    }

    // Whether a flag is set.
    pub fn has(&self, flag: u8) -> bool
        ensures { result ≡ has_flag flag self.now }
    {
        self.flags & flag != 0
    }
}
