ghost use Rattle.std.specs.Prelude.{◌≡◌, is_some};
ghost use Rattle.operators.specs.Levels.{is_operator};
ghost use Rattle.operators.specs.Nodes.{node_of};

use kinds::SyntaxKind;
use tree::NodeKind;

// The kind of node that an operator makes.
#[tactic(auto, unfolding(crate::specs::Nodes::node_of, crate::specs::Levels::level_of))]
pub fn node(kind: SyntaxKind) -> Option<NodeKind>
    ensures value { result ≡ node_of kind }
    ensures test { is_some result ≡ is_operator kind }
{
    match kind {
        SyntaxKind::OR_KW => Some(NodeKind::Or),
        SyntaxKind::AND_KW => Some(NodeKind::And),
        SyntaxKind::EQ => Some(NodeKind::Eq),
        SyntaxKind::NE => Some(NodeKind::Ne),
        SyntaxKind::CONTAINS_KW => Some(NodeKind::Contains),
        SyntaxKind::ICONTAINS_KW => Some(NodeKind::IContains),
        SyntaxKind::STARTSWITH_KW => Some(NodeKind::StartsWith),
        SyntaxKind::ISTARTSWITH_KW => Some(NodeKind::IStartsWith),
        SyntaxKind::ENDSWITH_KW => Some(NodeKind::EndsWith),
        SyntaxKind::IENDSWITH_KW => Some(NodeKind::IEndsWith),
        SyntaxKind::IEQUALS_KW => Some(NodeKind::IEquals),
        SyntaxKind::MATCHES_KW => Some(NodeKind::Matches),
        SyntaxKind::LT => Some(NodeKind::Lt),
        SyntaxKind::LE => Some(NodeKind::Le),
        SyntaxKind::GT => Some(NodeKind::Gt),
        SyntaxKind::GE => Some(NodeKind::Ge),
        SyntaxKind::BITWISE_OR => Some(NodeKind::BitwiseOr),
        SyntaxKind::BITWISE_XOR => Some(NodeKind::BitwiseXor),
        SyntaxKind::BITWISE_AND => Some(NodeKind::BitwiseAnd),
        SyntaxKind::SHL => Some(NodeKind::Shl),
        SyntaxKind::SHR => Some(NodeKind::Shr),
        SyntaxKind::ADD => Some(NodeKind::Add),
        SyntaxKind::SUB => Some(NodeKind::Sub),
        SyntaxKind::MUL => Some(NodeKind::Mul),
        SyntaxKind::DIV => Some(NodeKind::Div),
        SyntaxKind::MOD => Some(NodeKind::Mod),
        SyntaxKind::DOT => Some(NodeKind::FieldAccess),
        _ => None,
    }
}
