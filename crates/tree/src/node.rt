ghost use Rattle.std.specs.Prelude.{◌≡◌, Some};
ghost use Rattle.tree.specs.Kinds.{number_of, kind_of, name_of, same};

use std::fmt;

// What a node is: the blank first, then the original's kinds of expression in its order, then their parts.
#[derive(Clone, Copy, Debug, PartialEq, Eq)]
#[repr(u8)]
pub enum NodeKind {
    Blank,
    True,
    False,
    Filesize,
    Entrypoint,
    LiteralString,
    LiteralInteger,
    LiteralFloat,
    Regexp,
    Ident,
    PatternMatch,
    PatternCount,
    PatternOffset,
    PatternLength,
    Lookup,
    FieldAccess,
    FuncCall,
    Defined,
    Not,
    And,
    Or,
    Minus,
    Add,
    Sub,
    Mul,
    Div,
    Mod,
    BitwiseNot,
    Shl,
    Shr,
    BitwiseAnd,
    BitwiseOr,
    BitwiseXor,
    Eq,
    Ne,
    Lt,
    Gt,
    Le,
    Ge,
    Contains,
    IContains,
    StartsWith,
    IStartsWith,
    EndsWith,
    IEndsWith,
    IEquals,
    Matches,
    Of,
    ForOf,
    ForIn,
    With,
    Range,
    At,
    In,
    QuantifierNone,
    QuantifierAll,
    QuantifierAny,
    QuantifierPercentage,
    QuantifierExpr,
    Them,
    Set,
    SetItem,
    BoolTuple,
    ExprTuple,
    WithDeclaration,
}

impl NodeKind {
    // The kind's place in the order above, from 0.
    pub fn number(self) -> u8
        ensures value { result ≡ number_of self }
        ensures back { kind_of result ≡ Some self }
        ensures same { (k : NodeKind) → ⟦<NodeKind as PartialEq>⟧.eq self k ≡ same self k }
    {
        self as u8
    }

    // The kind's name, as it is written above. A derived Debug writes it too, but its contract says nothing of that.
    pub fn name(self) -> &'static str
        ensures { result.now ≡ name_of self }
    {
        match self {
            NodeKind::Blank => "Blank",
            NodeKind::True => "True",
            NodeKind::False => "False",
            NodeKind::Filesize => "Filesize",
            NodeKind::Entrypoint => "Entrypoint",
            NodeKind::LiteralString => "LiteralString",
            NodeKind::LiteralInteger => "LiteralInteger",
            NodeKind::LiteralFloat => "LiteralFloat",
            NodeKind::Regexp => "Regexp",
            NodeKind::Ident => "Ident",
            NodeKind::PatternMatch => "PatternMatch",
            NodeKind::PatternCount => "PatternCount",
            NodeKind::PatternOffset => "PatternOffset",
            NodeKind::PatternLength => "PatternLength",
            NodeKind::Lookup => "Lookup",
            NodeKind::FieldAccess => "FieldAccess",
            NodeKind::FuncCall => "FuncCall",
            NodeKind::Defined => "Defined",
            NodeKind::Not => "Not",
            NodeKind::And => "And",
            NodeKind::Or => "Or",
            NodeKind::Minus => "Minus",
            NodeKind::Add => "Add",
            NodeKind::Sub => "Sub",
            NodeKind::Mul => "Mul",
            NodeKind::Div => "Div",
            NodeKind::Mod => "Mod",
            NodeKind::BitwiseNot => "BitwiseNot",
            NodeKind::Shl => "Shl",
            NodeKind::Shr => "Shr",
            NodeKind::BitwiseAnd => "BitwiseAnd",
            NodeKind::BitwiseOr => "BitwiseOr",
            NodeKind::BitwiseXor => "BitwiseXor",
            NodeKind::Eq => "Eq",
            NodeKind::Ne => "Ne",
            NodeKind::Lt => "Lt",
            NodeKind::Gt => "Gt",
            NodeKind::Le => "Le",
            NodeKind::Ge => "Ge",
            NodeKind::Contains => "Contains",
            NodeKind::IContains => "IContains",
            NodeKind::StartsWith => "StartsWith",
            NodeKind::IStartsWith => "IStartsWith",
            NodeKind::EndsWith => "EndsWith",
            NodeKind::IEndsWith => "IEndsWith",
            NodeKind::IEquals => "IEquals",
            NodeKind::Matches => "Matches",
            NodeKind::Of => "Of",
            NodeKind::ForOf => "ForOf",
            NodeKind::ForIn => "ForIn",
            NodeKind::With => "With",
            NodeKind::Range => "Range",
            NodeKind::At => "At",
            NodeKind::In => "In",
            NodeKind::QuantifierNone => "QuantifierNone",
            NodeKind::QuantifierAll => "QuantifierAll",
            NodeKind::QuantifierAny => "QuantifierAny",
            NodeKind::QuantifierPercentage => "QuantifierPercentage",
            NodeKind::QuantifierExpr => "QuantifierExpr",
            NodeKind::Them => "Them",
            NodeKind::Set => "Set",
            NodeKind::SetItem => "SetItem",
            NodeKind::BoolTuple => "BoolTuple",
            NodeKind::ExprTuple => "ExprTuple",
            NodeKind::WithDeclaration => "WithDeclaration",
        }
    }
}

impl fmt::Display for NodeKind {
    ghost output = { λ kind. Some (name_of kind) };

    fn fmt<W: fmt::Write>(&self, f: &mut fmt::Formatter<W>) -> fmt::Result {
        f.write_str(self.name())
    }
}
