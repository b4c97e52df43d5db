ghost use Rattle.std.specs.Prelude.{◌≡◌, ◌+◌, ◌-◌, ◌^◌, ◌<◌, ◌≤◌, length, IfOk, Some, string_bytes};
ghost use Rattle.std.specs.Fmt.{WritesOnOk};
ghost use Rattle.outline.specs.Shown.{spaces, said_text, indent_text, node_text, broken_text, enter_text, leave_text, separator as separator_text, trees_text, tree_text, show_text};
ghost use Rattle.outline.specs.Whole.{Whole};

use crate::leaf::{Escaped, Leaf, flagged};
use std::alloc::{AllocError, Global};
use std::fmt::{self, Display};
use std::ops::Range;
use tree::{NodeKind, OBJECT, Slot, Tree, WILDCARD, part};

// How a tree is written: a node to a line, indented, with its place; or all of it in one line.
#[derive(Clone, Copy, Debug, PartialEq, Eq)]
pub enum Form {
    Outline,
    Line,
}

impl Form {
    fn indent(self, depth: usize) -> Indent
        ensures { spaces result.0 ≡ indent_text self depth }
    {
        match self {
            Form::Outline => Indent(depth),
            Form::Line => Indent(0),
        }
    }

    fn punctuation(self) -> Punctuation
        ensures enter { result.enter.now ≡ enter_text self }
        ensures separator { result.separator.now ≡ separator_text self }
        ensures leave { result.leave.now ≡ leave_text self }
    {
        match self {
            Form::Outline => Punctuation {
                enter: "\n",
                separator: "\n",
                leave: "",
            },
            Form::Line => Punctuation {
                enter: "(",
                separator: ", ",
                leave: ")",
            },
        }
    }
}

// What stands before the trees below a node, between two of them, and behind them.
#[derive(Clone, Copy)]
struct Punctuation {
    enter: &'static str,
    separator: &'static str,
    leave: &'static str,
}

// How deep a line is indented.
#[derive(Clone, Copy)]
struct Indent(usize);

impl fmt::Display for Indent {
    ghost output = { λ i. Some (spaces i.0) };

    fn fmt<W: fmt::Write>(&self, f: &mut fmt::Formatter<W>) -> fmt::Result {
        for _i in 0..self.0 {
            f.write_str("  ")?;
        }
        Ok(())
    }
}

// What a slot says: its content, or a float as the source has it.
#[derive(Clone, Copy)]
struct Said<'a> {
    tree: Tree<'a, 'a>,
    slot: &'a Slot,
}

impl fmt::Display for Said<'_> {
    ghost output = { λ s. Some (said_text s.slot.now s.tree.source.now s.tree.text.now) };

    fn fmt<W: fmt::Write>(&self, f: &mut fmt::Formatter<W>) -> fmt::Result {
        let Said { tree, slot } = *self;
        match tree.slot_leaf(slot) {
            Some(content) => write!(f, "{}", Leaf(content)),
            None if slot.kind == NodeKind::LiteralFloat => match part(tree.source, slot.span) {
                Some(bytes) => write!(f, " {}", Escaped(bytes)),
                None => Ok(()),
            },
            None => Ok(()),
        }
    }
}

// The tree that a slot holds, in a form.
#[derive(Clone, Copy)]
struct Shown<'a> {
    form: Form,
    tree: Tree<'a, 'a>,
    number: usize,
}

impl fmt::Display for Shown<'_> {
    ghost output = { λ s. Some (show_text s) };

    fn fmt<W: fmt::Write>(&self, f: &mut fmt::Formatter<W>) -> fmt::Result {
        match self.tree.slots.get(self.number) {
            Some(slot) => self.tree(f, 0, 0..self.number, slot),
            None => self.broken(f, 0, self.number.saturating_add(1)),
        }
    }
}

impl Shown<'_> {
    // All of a slot but its links. Not within `tree`, whose frame stands once for each level.
    #[inline(never)]
    fn node<W: fmt::Write>(
        &self,
        f: &mut fmt::Formatter<W>,
        depth: usize,
        slot: &Slot,
    ) -> fmt::Result
        ensures { WritesOnOk W.write_str_gives f.old result (node_text self.now depth slot.now) f.new }
    {
        let Slot { kind, span, .. } = *slot;
        let said = Said {
            tree: self.tree,
            slot,
        };
        let wildcard = flagged(slot.has(WILDCARD), "*");
        let object = flagged(slot.has(OBJECT), " method");
        match self.form {
            Form::Outline => {
                let indent = Indent(depth);
                // The span's ends, not `{:?}` of its range, whose contract says no bytes.
                write!(f, "{indent}{kind} {}..{}", span.start, span.end)?;
            }
            Form::Line => kind.fmt(f)?,
        }
        said.fmt(f)?;
        f.write_str(wildcard)?;
        f.write_str(object)
    }

    // A link that does not lead where it has to.
    fn broken<W: fmt::Write>(
        &self,
        f: &mut fmt::Formatter<W>,
        depth: usize,
        link: usize,
    ) -> fmt::Result
        ensures { WritesOnOk W.write_str_gives f.old result (broken_text self.now depth link) f.new }
    {
        let indent = self.form.indent(depth);
        write!(f, "{indent}<broken link {link}>")
    }

    // A node and all below it, which has to stand in the slots `below`.
    #[cycle(trees)]
    fn tree<W: fmt::Write>(
        &self,
        f: &mut fmt::Formatter<W>,
        depth: usize,
        below: Range<usize>,
        slot: &Slot,
    ) -> fmt::Result
        requires { (depth + 1 + below.end < 2 ^ 64) × (below.end ≤ length self.now.tree.slots.now) }
        ensures { WritesOnOk W.write_str_gives f.old result (tree_text self.now depth below.start below.end slot.now) f.new }
    {
        self.node(f, depth, slot)?;
        if slot.first == 0 {
            return Ok(());
        }
        let Punctuation { enter, leave, .. } = self.form.punctuation();
        f.write_str(enter)?;
        self.row(f, depth + 1, below, slot.first)?;
        f.write_str(leave)
    }

    // The trees that a link leads to, one behind another, as far as they stand in the slots `within`. Trees in lent
    // memory have links, so they are followed here.
    #[cycle(trees)]
    fn row<W: fmt::Write>(
        &self,
        f: &mut fmt::Formatter<W>,
        depth: usize,
        mut within: Range<usize>,
        mut link: usize,
    ) -> fmt::Result
        requires { (depth + within.end < 2 ^ 64) × (within.end ≤ length self.now.tree.slots.now) }
        ensures { WritesOnOk W.write_str_gives f.old result (trees_text self.now (within.end - within.start) depth within.start within.end link) f.new }
    {
        while let Some(number) = link.checked_sub(1) {
            if !within.contains(&number) {
                return self.broken(f, depth, link);
            }
            let slot = &self.tree.slots[number];
            self.tree(f, depth, within.start..number, slot)?;
            if slot.next != 0 {
                f.write_str(self.form.punctuation().separator)?;
            }
            within.start = link;
            link = slot.next;
        }
        Ok(())
    }
}

// The tree that a slot holds, as an outline or in one line. A link that leaves the slots, or does not lead to a slot
// before its parent's and behind its earlier siblings', is shown as broken and not followed.
pub fn show(heap: Global, form: Form, tree: Tree, number: usize) -> Result<String, AllocError>
    ensures made { IfOk result (λ s. string_bytes s ≡ show_text (record { form = form; tree = tree.entry; number = number })) }
    ensures whole { IfOk result (λ s. Whole (record { form = form; tree = tree.entry; number = number }) (string_bytes s)) }
{
    Shown { form, tree, number }.to_string(heap)
}
