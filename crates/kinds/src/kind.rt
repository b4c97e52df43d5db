ghost use Rattle.std.specs.Prelude.{◌≡◌, ◌<◌, ◌≤◌, Some, MatchOption, codes};
ghost use Rattle.std.specs.Result.{result_ok};
ghost use Rattle.kinds.specs.Kinds.{number_of, kind_of, same};
ghost use Rattle.kinds.specs.Names.{name_of, kind_named};
ghost use Rattle.kinds.specs.declared.kind.SyntaxKind.{SyntaxKind};

use std::error::Error;
use std::fmt;
use std::str::FromStr;

// Each kind of node or token of a syntax tree, under the original's names and in its order.
#[derive(Clone, Copy, Debug, PartialEq, Eq, Hash)]
#[allow(non_camel_case_types)]
pub enum SyntaxKind {
    ALL_KW,
    AND_KW,
    ANY_KW,
    ASCII_KW,
    AT_KW,
    BASE64_KW,
    BASE64WIDE_KW,
    CONDITION_KW,
    CONTAINS_KW,
    DEFINED_KW,
    ENDSWITH_KW,
    ENTRYPOINT_KW,
    FALSE_KW,
    FILESIZE_KW,
    FOR_KW,
    FULLWORD_KW,
    GLOBAL_KW,
    ICONTAINS_KW,
    IENDSWITH_KW,
    IEQUALS_KW,
    IMPORT_KW,
    IN_KW,
    INCLUDE_KW,
    ISTARTSWITH_KW,
    MATCHES_KW,
    META_KW,
    NOCASE_KW,
    NONE_KW,
    NOT_KW,
    OF_KW,
    OR_KW,
    PRIVATE_KW,
    RULE_KW,
    STARTSWITH_KW,
    STRINGS_KW,
    THEM_KW,
    TRUE_KW,
    WIDE_KW,
    XOR_KW,
    WITH_KW,

    // Arithmetic operators
    ADD,
    SUB,
    MUL,
    DIV,
    MOD,
    MINUS,

    // Bitwise operators
    SHL,
    SHR,
    BITWISE_AND,
    BITWISE_OR,
    BITWISE_XOR,
    BITWISE_NOT,

    // Comparison operators.
    EQ,
    NE,
    LT,
    LE,
    GT,
    GE,

    // Punctuation
    AMPERSAND,
    ASTERISK,
    CARET,
    COLON,
    COMMA,
    BACKSLASH,
    DOT,
    EQUAL,
    HYPHEN,
    PERCENT,
    PIPE,
    PLUS,
    TILDE,

    L_BRACE,
    R_BRACE,
    L_BRACKET,
    R_BRACKET,
    L_PAREN,
    R_PAREN,

    FLOAT_LIT,
    STRING_LIT,
    INTEGER_LIT,

    COMMENT,
    WHITESPACE,
    NEWLINE,

    IDENT,
    PATTERN_IDENT,
    PATTERN_LENGTH,
    PATTERN_OFFSET,
    PATTERN_COUNT,

    IMPORT_STMT,
    INCLUDE_STMT,
    RULE_DECL,
    RULE_MODS,
    RULE_TAGS,
    CONDITION_BLK,
    PATTERN_DEF,
    PATTERNS_BLK,
    PATTERN_MODS,
    PATTERN_MOD,
    RANGE,
    REGEXP,
    EXPR,
    PRIMARY_EXPR,
    TERM,
    FUNC_CALL,
    META_DEF,
    META_BLK,
    SOURCE_FILE,
    BOOLEAN_EXPR,
    BOOLEAN_TERM,
    FOR_EXPR,
    OF_EXPR,
    WITH_EXPR,
    WITH_DECLS,
    WITH_DECL,
    ITERABLE,
    QUANTIFIER,
    EXPR_TUPLE,
    BOOLEAN_EXPR_TUPLE,
    PATTERN_IDENT_TUPLE,

    HEX_ALTERNATIVE,
    HEX_JUMP,
    HEX_BYTE,
    HEX_PATTERN,
    HEX_SUB_PATTERN,

    ERROR,
    UNKNOWN,
    INVALID_UTF8,
}

// Each kind with its name, in order. Not a const: that is written anew at each use.
static KINDS: [(SyntaxKind, &str); 127] = [
    (SyntaxKind::ALL_KW, "ALL_KW"),
    (SyntaxKind::AND_KW, "AND_KW"),
    (SyntaxKind::ANY_KW, "ANY_KW"),
    (SyntaxKind::ASCII_KW, "ASCII_KW"),
    (SyntaxKind::AT_KW, "AT_KW"),
    (SyntaxKind::BASE64_KW, "BASE64_KW"),
    (SyntaxKind::BASE64WIDE_KW, "BASE64WIDE_KW"),
    (SyntaxKind::CONDITION_KW, "CONDITION_KW"),
    (SyntaxKind::CONTAINS_KW, "CONTAINS_KW"),
    (SyntaxKind::DEFINED_KW, "DEFINED_KW"),
    (SyntaxKind::ENDSWITH_KW, "ENDSWITH_KW"),
    (SyntaxKind::ENTRYPOINT_KW, "ENTRYPOINT_KW"),
    (SyntaxKind::FALSE_KW, "FALSE_KW"),
    (SyntaxKind::FILESIZE_KW, "FILESIZE_KW"),
    (SyntaxKind::FOR_KW, "FOR_KW"),
    (SyntaxKind::FULLWORD_KW, "FULLWORD_KW"),
    (SyntaxKind::GLOBAL_KW, "GLOBAL_KW"),
    (SyntaxKind::ICONTAINS_KW, "ICONTAINS_KW"),
    (SyntaxKind::IENDSWITH_KW, "IENDSWITH_KW"),
    (SyntaxKind::IEQUALS_KW, "IEQUALS_KW"),
    (SyntaxKind::IMPORT_KW, "IMPORT_KW"),
    (SyntaxKind::IN_KW, "IN_KW"),
    (SyntaxKind::INCLUDE_KW, "INCLUDE_KW"),
    (SyntaxKind::ISTARTSWITH_KW, "ISTARTSWITH_KW"),
    (SyntaxKind::MATCHES_KW, "MATCHES_KW"),
    (SyntaxKind::META_KW, "META_KW"),
    (SyntaxKind::NOCASE_KW, "NOCASE_KW"),
    (SyntaxKind::NONE_KW, "NONE_KW"),
    (SyntaxKind::NOT_KW, "NOT_KW"),
    (SyntaxKind::OF_KW, "OF_KW"),
    (SyntaxKind::OR_KW, "OR_KW"),
    (SyntaxKind::PRIVATE_KW, "PRIVATE_KW"),
    (SyntaxKind::RULE_KW, "RULE_KW"),
    (SyntaxKind::STARTSWITH_KW, "STARTSWITH_KW"),
    (SyntaxKind::STRINGS_KW, "STRINGS_KW"),
    (SyntaxKind::THEM_KW, "THEM_KW"),
    (SyntaxKind::TRUE_KW, "TRUE_KW"),
    (SyntaxKind::WIDE_KW, "WIDE_KW"),
    (SyntaxKind::XOR_KW, "XOR_KW"),
    (SyntaxKind::WITH_KW, "WITH_KW"),
    (SyntaxKind::ADD, "ADD"),
    (SyntaxKind::SUB, "SUB"),
    (SyntaxKind::MUL, "MUL"),
    (SyntaxKind::DIV, "DIV"),
    (SyntaxKind::MOD, "MOD"),
    (SyntaxKind::MINUS, "MINUS"),
    (SyntaxKind::SHL, "SHL"),
    (SyntaxKind::SHR, "SHR"),
    (SyntaxKind::BITWISE_AND, "BITWISE_AND"),
    (SyntaxKind::BITWISE_OR, "BITWISE_OR"),
    (SyntaxKind::BITWISE_XOR, "BITWISE_XOR"),
    (SyntaxKind::BITWISE_NOT, "BITWISE_NOT"),
    (SyntaxKind::EQ, "EQ"),
    (SyntaxKind::NE, "NE"),
    (SyntaxKind::LT, "LT"),
    (SyntaxKind::LE, "LE"),
    (SyntaxKind::GT, "GT"),
    (SyntaxKind::GE, "GE"),
    (SyntaxKind::AMPERSAND, "AMPERSAND"),
    (SyntaxKind::ASTERISK, "ASTERISK"),
    (SyntaxKind::CARET, "CARET"),
    (SyntaxKind::COLON, "COLON"),
    (SyntaxKind::COMMA, "COMMA"),
    (SyntaxKind::BACKSLASH, "BACKSLASH"),
    (SyntaxKind::DOT, "DOT"),
    (SyntaxKind::EQUAL, "EQUAL"),
    (SyntaxKind::HYPHEN, "HYPHEN"),
    (SyntaxKind::PERCENT, "PERCENT"),
    (SyntaxKind::PIPE, "PIPE"),
    (SyntaxKind::PLUS, "PLUS"),
    (SyntaxKind::TILDE, "TILDE"),
    (SyntaxKind::L_BRACE, "L_BRACE"),
    (SyntaxKind::R_BRACE, "R_BRACE"),
    (SyntaxKind::L_BRACKET, "L_BRACKET"),
    (SyntaxKind::R_BRACKET, "R_BRACKET"),
    (SyntaxKind::L_PAREN, "L_PAREN"),
    (SyntaxKind::R_PAREN, "R_PAREN"),
    (SyntaxKind::FLOAT_LIT, "FLOAT_LIT"),
    (SyntaxKind::STRING_LIT, "STRING_LIT"),
    (SyntaxKind::INTEGER_LIT, "INTEGER_LIT"),
    (SyntaxKind::COMMENT, "COMMENT"),
    (SyntaxKind::WHITESPACE, "WHITESPACE"),
    (SyntaxKind::NEWLINE, "NEWLINE"),
    (SyntaxKind::IDENT, "IDENT"),
    (SyntaxKind::PATTERN_IDENT, "PATTERN_IDENT"),
    (SyntaxKind::PATTERN_LENGTH, "PATTERN_LENGTH"),
    (SyntaxKind::PATTERN_OFFSET, "PATTERN_OFFSET"),
    (SyntaxKind::PATTERN_COUNT, "PATTERN_COUNT"),
    (SyntaxKind::IMPORT_STMT, "IMPORT_STMT"),
    (SyntaxKind::INCLUDE_STMT, "INCLUDE_STMT"),
    (SyntaxKind::RULE_DECL, "RULE_DECL"),
    (SyntaxKind::RULE_MODS, "RULE_MODS"),
    (SyntaxKind::RULE_TAGS, "RULE_TAGS"),
    (SyntaxKind::CONDITION_BLK, "CONDITION_BLK"),
    (SyntaxKind::PATTERN_DEF, "PATTERN_DEF"),
    (SyntaxKind::PATTERNS_BLK, "PATTERNS_BLK"),
    (SyntaxKind::PATTERN_MODS, "PATTERN_MODS"),
    (SyntaxKind::PATTERN_MOD, "PATTERN_MOD"),
    (SyntaxKind::RANGE, "RANGE"),
    (SyntaxKind::REGEXP, "REGEXP"),
    (SyntaxKind::EXPR, "EXPR"),
    (SyntaxKind::PRIMARY_EXPR, "PRIMARY_EXPR"),
    (SyntaxKind::TERM, "TERM"),
    (SyntaxKind::FUNC_CALL, "FUNC_CALL"),
    (SyntaxKind::META_DEF, "META_DEF"),
    (SyntaxKind::META_BLK, "META_BLK"),
    (SyntaxKind::SOURCE_FILE, "SOURCE_FILE"),
    (SyntaxKind::BOOLEAN_EXPR, "BOOLEAN_EXPR"),
    (SyntaxKind::BOOLEAN_TERM, "BOOLEAN_TERM"),
    (SyntaxKind::FOR_EXPR, "FOR_EXPR"),
    (SyntaxKind::OF_EXPR, "OF_EXPR"),
    (SyntaxKind::WITH_EXPR, "WITH_EXPR"),
    (SyntaxKind::WITH_DECLS, "WITH_DECLS"),
    (SyntaxKind::WITH_DECL, "WITH_DECL"),
    (SyntaxKind::ITERABLE, "ITERABLE"),
    (SyntaxKind::QUANTIFIER, "QUANTIFIER"),
    (SyntaxKind::EXPR_TUPLE, "EXPR_TUPLE"),
    (SyntaxKind::BOOLEAN_EXPR_TUPLE, "BOOLEAN_EXPR_TUPLE"),
    (SyntaxKind::PATTERN_IDENT_TUPLE, "PATTERN_IDENT_TUPLE"),
    (SyntaxKind::HEX_ALTERNATIVE, "HEX_ALTERNATIVE"),
    (SyntaxKind::HEX_JUMP, "HEX_JUMP"),
    (SyntaxKind::HEX_BYTE, "HEX_BYTE"),
    (SyntaxKind::HEX_PATTERN, "HEX_PATTERN"),
    (SyntaxKind::HEX_SUB_PATTERN, "HEX_SUB_PATTERN"),
    (SyntaxKind::ERROR, "ERROR"),
    (SyntaxKind::UNKNOWN, "UNKNOWN"),
    (SyntaxKind::INVALID_UTF8, "INVALID_UTF8"),
];

impl SyntaxKind {
    // The kind's place in the order above, from 0.
    pub fn number(self) -> u16
        ensures value { result ≡ number_of self }
        ensures bound { result < 127 }
        ensures same { (k : SyntaxKind) → ⟦<SyntaxKind as PartialEq>⟧.eq self k ≡ same self k }
    {
        self as u16
    }

    // The kind of a number, if it has one.
    pub fn from_number(number: u16) -> Option<SyntaxKind>
        ensures value { result ≡ kind_of number }
        ensures some { (k : SyntaxKind) → number ≡ number_of k → result ≡ Some k }
        ensures back { MatchOption result (127 ≤ number) (λ k. number ≡ number_of k) }
    {
        // As a slice, since the proof needs a name for the rows.
        KINDS
            .as_slice()
            .get(usize::from(number))
            .map(|(kind, _)| *kind)
    }

    pub fn name(self) -> &'static str
        ensures { result.now ≡ name_of self }
    {
        KINDS[self as usize].1
    }

    // The kind with a name, if any.
    pub fn from_name(name: &str) -> Option<SyntaxKind>
        ensures value { result ≡ kind_named name.now }
        ensures some { (k : SyntaxKind) → name.now ≡ name_of k → result ≡ Some k }
    {
        KINDS
            .iter()
            .find(|(_, text)| *text == name)
            .map(|(kind, _)| *kind)
    }
}

// A number or a name of no kind.
#[derive(Clone, Copy, Debug, PartialEq, Eq)]
pub struct UnknownKind;

impl From<SyntaxKind> for u16 {
    ghost from_gives = { λ k n. n ≡ number_of k };

    fn from(kind: SyntaxKind) -> u16 {
        kind.number()
    }
}

impl TryFrom<u16> for SyntaxKind {
    type Error = UnknownKind;

    ghost try_from_gives = { λ n r. result_ok r ≡ kind_of n };

    fn try_from(number: u16) -> Result<SyntaxKind, UnknownKind> {
        SyntaxKind::from_number(number).ok_or(UnknownKind)
    }
}

impl FromStr for SyntaxKind {
    type Err = UnknownKind;

    ghost from_str_gives = { λ name r. result_ok r ≡ kind_named name };

    fn from_str(name: &str) -> Result<SyntaxKind, UnknownKind> {
        SyntaxKind::from_name(name).ok_or(UnknownKind)
    }
}

// Writes the kind's name.
impl fmt::Display for SyntaxKind {
    ghost output = { λ k. Some (name_of k) };

    fn fmt<W: fmt::Write>(&self, f: &mut fmt::Formatter<W>) -> fmt::Result {
        f.write_str(self.name())
    }
}

impl fmt::Display for UnknownKind {
    ghost output = { λ _. Some (codes "no kind of node or token") };

    fn fmt<W: fmt::Write>(&self, f: &mut fmt::Formatter<W>) -> fmt::Result {
        f.write_str("no kind of node or token")
    }
}

impl Error for UnknownKind {}
