// How nodes grow in a placer.
ghost use Rattle.std.specs.Prelude.{◌≡◌};
ghost use Rattle.tree.specs.Labels.{slot_of};
ghost use Rattle.grammar.specs.Nodes.{named as named_label, unary};
ghost use Rattle.builder.specs.Growth.{Furthers, Raises, Changes, opened_by};

use kinds::SyntaxKind;
use operators::{goes_on, node};
use syntax::Span;
use tree::{Aside, NodeKind, Placer, Slot};

// A node with a name.
pub(crate) fn named(kind: NodeKind, span: Span, name: Span) -> Slot
    ensures { result ≡ slot_of (named_label kind span name) 0 0 0 }
{
    Slot {
        name,
        ..Slot::new(kind, span)
    }
}

// The root becomes the next child of `parent`, which is the root then and reaches to its end.
pub(crate) fn further(parent: Aside, out: &mut Placer)
    ensures { Furthers parent out.old out.new }
{
    let span = parent.root.span.combine(&out.root.span);
    out.adopt(parent);
    out.root.span = span;
}

// A node that has nothing below it yet becomes the root, above the root, and reaches to its end.
pub(crate) fn above(parent: Slot, out: &mut Placer)
    ensures { Raises parent out.old out.new }
{
    further(
        Aside {
            root: parent,
            last: 0,
        },
        out,
    );
}

// A new node above the root.
pub(crate) fn raise(kind: NodeKind, span: Span, out: &mut Placer)
    ensures { Changes 1 (unary kind span) out.old out.new }
{
    above(Slot::new(kind, span), out);
}

// Makes the root the node that an operator's right side becomes a child of.
pub(crate) fn open(op: SyntaxKind, out: &mut Placer)
    ensures { Changes 1 (opened_by op) out.old out.new }
{
    if !goes_on(op, out.root.kind) {
        raise(node(op).unwrap_or(NodeKind::Blank), out.root.span, out);
    }
}
