ghost use Rattle.std.specs.Prelude.{◌≡◌};
ghost use Rattle.operators.specs.Levels.{level_of, OfTable};

use kinds::SyntaxKind;

// How strongly an operator binds, from 1 (weakest) to 11; other kinds are no operators.
// A number, since a reader asks for the next level up (a level and one), and the rows of the table are counted.
#[tactic(auto, using(crate::proofs::Table::of_table), unfolding(crate::specs::Levels::level_of))]
pub fn level(kind: SyntaxKind) -> Option<u8>
    ensures value { result ≡ level_of kind }
    ensures cases { OfTable kind result }
{
    match kind {
        SyntaxKind::OR_KW => Some(1),
        SyntaxKind::AND_KW => Some(2),
        SyntaxKind::EQ
        | SyntaxKind::NE
        | SyntaxKind::CONTAINS_KW
        | SyntaxKind::ICONTAINS_KW
        | SyntaxKind::STARTSWITH_KW
        | SyntaxKind::ISTARTSWITH_KW
        | SyntaxKind::ENDSWITH_KW
        | SyntaxKind::IENDSWITH_KW
        | SyntaxKind::IEQUALS_KW
        | SyntaxKind::MATCHES_KW => Some(3),
        SyntaxKind::LT | SyntaxKind::LE | SyntaxKind::GT | SyntaxKind::GE => Some(4),
        SyntaxKind::BITWISE_OR => Some(5),
        SyntaxKind::BITWISE_XOR => Some(6),
        SyntaxKind::BITWISE_AND => Some(7),
        SyntaxKind::SHL | SyntaxKind::SHR => Some(8),
        SyntaxKind::ADD | SyntaxKind::SUB => Some(9),
        SyntaxKind::MUL | SyntaxKind::DIV | SyntaxKind::MOD => Some(10),
        SyntaxKind::DOT => Some(11),
        _ => None,
    }
}
