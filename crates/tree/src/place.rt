ghost use Rattle.std.specs.Prelude.{◌≡◌, ◌&&◌, length, nat_le};
ghost use Rattle.lent.specs.Lists.{counted};
ghost use Rattle.tree.specs.Laws.{Lays, Grows, Writes, Completes};
ghost use Rattle.tree.specs.Memory.{memory_of, linked, placed, pushed, adopted, adopted_root, tidied, cleared, Leaves};

use crate::slot::Slot;
use lent::{blank_from, put};

// Lent slots and text that a tree is placed in, and a root that is not placed yet while all below it is.
// `used` and `written` count on where the memory is full.
// Two `Lent`s were tried: what the slots hold is lost where a placer is dropped, so that a caller's proof does not close.
#[derive(Drop)]
pub struct Placer<'s> {
    pub slots: &'s mut [Slot],
    pub used: usize,
    pub text: &'s mut [u8],
    pub written: usize,
    pub root: Slot,
}

// A node put aside until its next child is the root, and the link to its last child, if it has one.
#[derive(Clone, Copy, Debug, PartialEq)]
pub struct Aside {
    pub root: Slot,
    pub last: usize,
}

// Gives a sibling to the slot that a link leads to, if there is one.
fn link(slots: &mut [Slot], last: usize, next: usize)
    ensures { slots.new ≡ linked slots.old last next }
{
    if last != 0 && last <= slots.len() {
        slots[last - 1].next = next;
    }
}

impl Placer<'_> {
    // Places the root behind the slots used, as far as there is one, and answers the link to it.
    pub fn place(&mut self) -> usize
        ensures after { Leaves (placed self.old.root (memory_of self.old)) self.old.root self.old self.new }
        ensures value { result ≡ counted self.old.used }
        ensures lays { Lays self.old.root (memory_of self.old) (memory_of self.new) }
    {
        self.used = put(self.slots, self.used, self.root);
        self.used
    }

    // The root, put aside. Its last child, if it has one, stands in the slot used last.
    pub fn put_aside(&self) -> Aside
        ensures { result ≡ record { root = self.now.root; last = self.now.used } }
    {
        Aside {
            root: self.root,
            last: self.used,
        }
    }

    // Places the root as the next child of a node put aside, which becomes the root.
    pub fn adopt(&mut self, parent: Aside)
        ensures after { Leaves (adopted parent.root parent.last self.old.root (memory_of self.old)) (adopted_root parent.root (counted self.old.used)) self.old self.new }
        ensures grows { Grows parent.root parent.last self.old.root (memory_of self.old) self.new.root (memory_of self.new) }
    {
        let child = self.place();
        self.root = parent.root;
        if parent.root.first == 0 {
            self.root.first = child;
        } else {
            link(self.slots, parent.last, child);
        }
    }

    // Places the root as the first child of a new node, which becomes the root.
    pub fn raise(&mut self, parent: Slot)
        ensures after { Leaves (adopted parent self.old.used self.old.root (memory_of self.old)) (adopted_root parent (counted self.old.used)) self.old self.new }
        ensures grows { Grows parent self.old.used self.old.root (memory_of self.old) self.new.root (memory_of self.new) }
    {
        self.adopt(Aside {
            root: parent,
            last: self.used,
        });
    }

    // A byte of decoded text, behind what was written, as far as there is room.
    pub fn push(&mut self, byte: u8)
        ensures after { Leaves (pushed byte (memory_of self.old)) self.old.root self.old self.new }
        ensures writes { Writes byte (memory_of self.old) (memory_of self.new) }
    {
        self.written = put(self.text, self.written, byte);
    }

    // Whether the memory held all that was placed and written.
    pub fn fits(&self) -> bool
        ensures { result ≡ nat_le self.now.used (length self.now.slots.now) && nat_le self.now.written (length self.now.text.now) }
    {
        self.used <= self.slots.len() && self.written <= self.text.len()
    }

    // Blanks the memory behind what was placed and written.
    pub fn tidy(&mut self)
        ensures after { Leaves (tidied (memory_of self.old)) self.old.root self.old self.new }
        ensures completes { Completes (memory_of self.old) (memory_of self.new) }
    {
        blank_from(self.slots, self.used, Slot::blank());
        blank_from(self.text, self.written, 0);
    }

    // Forgets what was placed and written, and blanks all the memory.
    pub fn clear(&mut self)
        ensures { Leaves (cleared (memory_of self.old)) self.old.root self.old self.new }
    {
        self.used = 0;
        self.written = 0;
        self.tidy();
    }
}
