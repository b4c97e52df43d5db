// The tree of a condition placed by hand, shown as an outline and in one line, until real conditions are read.
ghost use Rattle.std.specs.Prelude.{◌≡◌, ◌+◌, ◌^◌, ◌<◌};
ghost use Rattle.syntax.specs.Spans.{span_of};
ghost use Rattle.tree.specs.Labels.{plain, slot_of};
ghost use Rattle.tree.specs.Memory.{memory_of, Pending};
ghost use Rattle.gathnomir.specs.Demo.{with_name, inner_tree};

use crate::failure::Failure;
use outline::{Form, show};
use syntax::Span;
use tree::{DECODED, NodeKind, Placer, Slot, Tree};

const SOURCE: &[u8] = b"a - (b - c) or \"x\\n\" contains $p";

// The number of the condition's root.
const ROOT: usize = 8;

fn node(kind: NodeKind, start: u32, end: u32) -> Slot
    ensures { result ≡ slot_of (plain kind (span_of start end)) 0 0 0 }
{
    Slot::new(kind, Span { start, end })
}

// A node whose name is all of its text.
fn named(kind: NodeKind, start: u32, end: u32) -> Slot
    ensures { result ≡ slot_of (with_name kind (span_of start end)) 0 0 0 }
{
    let slot = node(kind, start, end);
    Slot {
        name: slot.span,
        ..slot
    }
}

// b - c
fn inner(placer: &mut Placer)
    ensures { placer.old.used + 3 < 2 ^ 64 → Pending inner_tree (memory_of placer.old) placer.new.root (memory_of placer.new) }
{
    placer.root = named(NodeKind::Ident, 5, 6);
    placer.raise(node(NodeKind::Sub, 5, 10));
    let left = placer.put_aside();
    placer.root = named(NodeKind::Ident, 9, 10);
    placer.adopt(left);
}

// a - (b - c)
fn difference(placer: &mut Placer) {
    placer.root = named(NodeKind::Ident, 0, 1);
    placer.raise(node(NodeKind::Sub, 0, 10));
    let left = placer.put_aside();
    inner(placer);
    placer.adopt(left);
}

// "x\n" contains $p
fn search(placer: &mut Placer) {
    placer.push(b'x');
    placer.push(b'\n');
    placer.root = Slot {
        name: Span { start: 0, end: 2 },
        flags: DECODED,
        ..node(NodeKind::LiteralString, 15, 20)
    };
    placer.raise(node(NodeKind::Contains, 15, 32));
    let left = placer.put_aside();
    placer.root = named(NodeKind::PatternMatch, 30, 32);
    placer.adopt(left);
}

fn condition(placer: &mut Placer) {
    difference(placer);
    placer.raise(node(NodeKind::Or, 0, 32));
    let left = placer.put_aside();
    search(placer);
    placer.adopt(left);
    let _root = placer.place();
    placer.tidy();
}

// The same slots with a sibling's link that goes back, and one that leaves the slots.
fn damage(slots: &mut [Slot; 12]) {
    slots[4].next = 5;
    slots[2].next = 13;
}

// Prints the tree in both forms, and in one line with broken links.
pub fn print(rt: &HostRuntime) -> Result<(), Failure> {
    let heap = rt.alloc();
    let mut slots = [Slot::blank(); 12];
    let mut text = [0u8; 4];
    let mut placer = Placer {
        slots: &mut slots,
        used: 0,
        text: &mut text,
        written: 0,
        root: Slot::blank(),
    };
    condition(&mut placer);
    let fits = placer.fits();
    let used = placer.used;
    let written = placer.written;
    println!(rt; "{used} slots, {written} bytes of text, fits: {fits}")?;
    let tree = Tree {
        slots: &slots,
        source: SOURCE,
        text: &text,
    };
    rt.println(show(heap, Form::Outline, tree, ROOT)?)?;
    rt.println(show(heap, Form::Line, tree, ROOT)?)?;
    damage(&mut slots);
    let damaged = Tree {
        slots: &slots,
        source: SOURCE,
        text: &text,
    };
    rt.println(show(heap, Form::Line, damaged, ROOT)?)?;
    Ok(())
}
