ghost use Rattle.std.specs.Prelude.{◌≡◌, true};
ghost use Rattle.reader.specs.declared.mark.Mark.TheVariants.{Token as TokenOf, End as EndOf};
ghost use Rattle.reader.specs.Symbols.Sym.{one, seq};
ghost use Rattle.reader.specs.Contract.{plain, settles};
ghost use Rattle.grammar.specs.Nodes.{leaf, name_leaf};
ghost use Rattle.std.specs.Prelude.{Ok as OkOf};
ghost use Rattle.literal.specs.Floats.{float_of};
ghost use Rattle.literal.specs.Integers.{integer_of};
ghost use Rattle.literal.specs.Regexps.{regexp_of};
ghost use Rattle.grammar.specs.Nodes.{float_tree, integer_tree, regexp_tree, integer_label};
ghost use Rattle.tree.specs.Labels.{slot_of};
ghost use Rattle.std.specs.Prelude.{false};
ghost use Rattle.kinds.specs.declared.kind.SyntaxKind.TheVariants.{IDENT, FLOAT_LIT, INTEGER_LIT, REGEXP, TERM};
ghost use Rattle.tree.specs.declared.node.NodeKind.TheVariants.{Ident};
ghost use Rattle.builder.specs.Builds.{Builds, Makes};
ghost use Rattle.builder.specs.Leaves.{float_label, regexp_label};

// What is read without going deeper.
use crate::grow::named;
use kinds::SyntaxKind;
use literal::{Integer, Regexp, float_lit, integer_lit, regexp_lit};
use reader::Reader;
use refusal::Refusal;
use syntax::Span;
use tree::{CASE_INSENSITIVE, DOT_MATCHES_NEW_LINE, NodeKind, Placer, Slot, UNSIGNED};

// A keyword that is a node, and the end of the node around it.
pub(crate) fn keyword(
    kind: SyntaxKind,
    node: NodeKind,
    close: SyntaxKind,
    input: &mut Reader,
    out: &mut Placer,
) -> Result<(), Refusal>
    requires { plain (TokenOf kind) ≡ true }
    ensures { Builds (settles (EndOf close)) 0 (seq (one (TokenOf kind)) (one (EndOf close))) (λ a y. Makes (leaf node a.0) out.old out.new) input.old out.old input.new out.new result }
{
    let span = input.expect(kind)?;
    out.root = Slot::new(node, span);
    input.end(close)
}

// A name that is a node.
pub(crate) fn identifier(input: &mut Reader, out: &mut Placer) -> Result<(), Refusal>
    ensures { Builds true 0 (one (TokenOf IDENT)) (λ s y. Makes (name_leaf Ident s) out.old out.new) input.old out.old input.new out.new result }
{
    let name = input.identifier(SyntaxKind::IDENT)?;
    out.root = named(NodeKind::Ident, name, name);
    Ok(())
}

// The slot of a float literal.
fn float_slot(float: f64, span: Span) -> Slot
    ensures { result ≡ slot_of (float_label float span) 0 0 0 }
{
    Slot {
        float,
        ..Slot::new(NodeKind::LiteralFloat, span)
    }
}

// FLOAT_LIT, and the end of its term.
pub(crate) fn float_term(input: &mut Reader, out: &mut Placer) -> Result<(), Refusal>
    ensures { Builds false 0 (seq (one (TokenOf FLOAT_LIT)) (one (EndOf TERM))) (λ a y. Makes (float_tree (float_of input.old.source.now a.0) a.0) out.old out.new) input.old out.old input.new out.new result }
{
    let span = input.expect(SyntaxKind::FLOAT_LIT)?;
    let float = float_lit(input.source, span)?;
    out.root = float_slot(float, span);
    input.end(SyntaxKind::TERM)
}

// The slot of an integer literal.
fn integer_slot(integer: Integer, span: Span) -> Slot
    ensures { result ≡ slot_of (integer_label integer span) 0 0 0 }
{
    Slot {
        value: integer.value,
        flags: if integer.unsigned { UNSIGNED } else { 0 },
        ..named(NodeKind::LiteralInteger, span, integer.name)
    }
}

// INTEGER_LIT, and the end of its term.
pub(crate) fn integer_term(input: &mut Reader, out: &mut Placer) -> Result<Integer, Refusal>
    ensures { Builds false 0 (seq (one (TokenOf INTEGER_LIT)) (one (EndOf TERM))) (λ a y. (integer_of input.old.source.now a.0 ≡ OkOf y) × Makes (integer_tree (integer_of input.old.source.now a.0) a.0) out.old out.new) input.old out.old input.new out.new result }
{
    let span = input.expect(SyntaxKind::INTEGER_LIT)?;
    let integer = integer_lit(input.source, span)?;
    out.root = integer_slot(integer, span);
    input.end(SyntaxKind::TERM)?;
    Ok(integer)
}

// The slot of a regexp.
fn regexp_slot(regexp: Regexp, span: Span) -> Slot
    ensures { result ≡ slot_of (regexp_label regexp span) 0 0 0 }
{
    let i = if regexp.case_insensitive {
        CASE_INSENSITIVE
    } else {
        0
    };
    let s = if regexp.dot_matches_new_line {
        DOT_MATCHES_NEW_LINE
    } else {
        0
    };
    Slot {
        flags: i + s,
        ..named(NodeKind::Regexp, span, regexp.body)
    }
}

// REGEXP, and the end of its term.
pub(crate) fn regexp_term(input: &mut Reader, out: &mut Placer) -> Result<(), Refusal>
    ensures { Builds false 0 (seq (one (TokenOf REGEXP)) (one (EndOf TERM))) (λ a y. Makes (regexp_tree (regexp_of input.old.source.now a.0) a.0) out.old out.new) input.old out.old input.new out.new result }
{
    let span = input.expect(SyntaxKind::REGEXP)?;
    let regexp = regexp_lit(input.source, span)?;
    out.root = regexp_slot(regexp, span);
    input.end(SyntaxKind::TERM)
}
