ghost use Rattle.std.specs.Prelude.{◌≡◌};
ghost use Rattle.operators.specs.Nodes.{merging_of, Own, is};

use crate::making::node;
use kinds::SyntaxKind;
use tree::NodeKind;

// The kind of left side that an operator goes on with, if it merges.
#[tactic(auto, unfolding(crate::specs::Nodes::node_of, crate::specs::Nodes::merging_of))]
pub fn merging(kind: SyntaxKind) -> Option<NodeKind>
    ensures value { result ≡ merging_of kind }
    ensures some { Own kind result }
{
    match kind {
        SyntaxKind::OR_KW
        | SyntaxKind::AND_KW
        | SyntaxKind::ADD
        | SyntaxKind::SUB
        | SyntaxKind::MUL
        | SyntaxKind::DIV
        | SyntaxKind::MOD
        | SyntaxKind::DOT => node(kind),
        _ => None,
    }
}

// Whether an operator goes on with a left side of a kind, so that its right side becomes a further operand there.
#[tactic(auto, using(crate::proofs::Equal::option_is))]
pub fn goes_on(kind: SyntaxKind, left: NodeKind) -> bool
    ensures { result ≡ is (merging_of kind) left }
{
    merging(kind) == Some(left)
}
