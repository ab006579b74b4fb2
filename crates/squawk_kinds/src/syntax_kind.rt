//! Kinds of tokens and nodes.
ghost use Rattle.std.specs.Prelude.{◌≡◌};
ghost use Rattle.squawk_kinds.specs.Kinds.{is_trivia};

use std::marker::Model;

/// The kind of a token or of a node: a number of 16 bits. Every such number is a kind.
///
/// A kind up to [`SyntaxKind::WHITESPACE`] is a token kind. The caller's tokens have kinds 200 to 638, the
/// caller's nodes kinds from 700 on. The other numbers are the engine's, also those without a constant,
/// though nothing refuses them. Contracts see a kind as its number.
#[derive(Clone, Copy, PartialEq, Eq, PartialOrd, Ord, Hash, Debug)]
pub struct SyntaxKind(pub u16);

impl Model for SyntaxKind {
    ghost use Rattle.std.specs.Prelude.{ℕ};

    ghost Value = { ℕ };

    ghost view = { λ k. k.0 };

    ghost inverse = { λ number. record { 0 = number } };
}

impl SyntaxKind {
    // The end of an input, an open marker, and a token of no other kind.
    pub const EOF: SyntaxKind = SyntaxKind(0);

    pub const TOMBSTONE: SyntaxKind = SyntaxKind(1);

    pub const ERROR: SyntaxKind = SyntaxKind(2);

    pub const IDENT: SyntaxKind = SyntaxKind(3);

    pub const COMMENT: SyntaxKind = SyntaxKind(4);

    // Signs.
    pub const SEMICOLON: SyntaxKind = SyntaxKind(5);

    pub const COMMA: SyntaxKind = SyntaxKind(6);

    pub const DOT: SyntaxKind = SyntaxKind(7);

    pub const DOT_DOT: SyntaxKind = SyntaxKind(8);

    pub const L_PAREN: SyntaxKind = SyntaxKind(9);

    pub const R_PAREN: SyntaxKind = SyntaxKind(10);

    pub const L_BRACK: SyntaxKind = SyntaxKind(11);

    pub const R_BRACK: SyntaxKind = SyntaxKind(12);

    pub const L_CURLY: SyntaxKind = SyntaxKind(13);

    pub const R_CURLY: SyntaxKind = SyntaxKind(14);

    pub const AT: SyntaxKind = SyntaxKind(15);

    pub const POUND: SyntaxKind = SyntaxKind(16);

    pub const TILDE: SyntaxKind = SyntaxKind(17);

    pub const QUESTION: SyntaxKind = SyntaxKind(18);

    pub const COLON: SyntaxKind = SyntaxKind(19);

    pub const EQ: SyntaxKind = SyntaxKind(20);

    pub const BANG: SyntaxKind = SyntaxKind(21);

    pub const L_ANGLE: SyntaxKind = SyntaxKind(22);

    pub const R_ANGLE: SyntaxKind = SyntaxKind(23);

    pub const MINUS: SyntaxKind = SyntaxKind(24);

    pub const AMP: SyntaxKind = SyntaxKind(25);

    pub const PIPE: SyntaxKind = SyntaxKind(26);

    pub const PLUS: SyntaxKind = SyntaxKind(27);

    pub const STAR: SyntaxKind = SyntaxKind(28);

    pub const SLASH: SyntaxKind = SyntaxKind(29);

    pub const CARET: SyntaxKind = SyntaxKind(30);

    pub const PERCENT: SyntaxKind = SyntaxKind(31);

    pub const BACKTICK: SyntaxKind = SyntaxKind(32);

    // Literals, and what stands like one.
    pub const INT_NUMBER: SyntaxKind = SyntaxKind(33);

    pub const NUMERIC_NUMBER: SyntaxKind = SyntaxKind(34);

    pub const STRING: SyntaxKind = SyntaxKind(35);

    pub const NATIONAL_STRING: SyntaxKind = SyntaxKind(36);

    pub const BYTE_STRING: SyntaxKind = SyntaxKind(37);

    pub const BIT_STRING: SyntaxKind = SyntaxKind(38);

    pub const DOLLAR_QUOTED_STRING: SyntaxKind = SyntaxKind(39);

    pub const UNICODE_ESC_STRING: SyntaxKind = SyntaxKind(40);

    pub const ESC_STRING: SyntaxKind = SyntaxKind(41);

    pub const POSITIONAL_PARAM: SyntaxKind = SyntaxKind(42);

    pub const PSQL_COMMAND_TEXT: SyntaxKind = SyntaxKind(43);

    pub const PSQL_TERMINATOR_TEXT: SyntaxKind = SyntaxKind(44);

    // Signs of several raw tokens.
    pub const COLON_EQ: SyntaxKind = SyntaxKind(45);

    pub const NEQ: SyntaxKind = SyntaxKind(46);

    pub const NEQB: SyntaxKind = SyntaxKind(47);

    pub const LTEQ: SyntaxKind = SyntaxKind(48);

    pub const FAT_ARROW: SyntaxKind = SyntaxKind(49);

    pub const LESS_LESS: SyntaxKind = SyntaxKind(50);

    pub const GREATER_GREATER: SyntaxKind = SyntaxKind(51);

    pub const GTEQ: SyntaxKind = SyntaxKind(52);

    pub const LONG_ARROW: SyntaxKind = SyntaxKind(53);

    // The keywords that composite kinds are made of.
    pub const SIMILAR_KW: SyntaxKind = SyntaxKind(64);

    pub const TO_KW: SyntaxKind = SyntaxKind(65);

    pub const AT_KW: SyntaxKind = SyntaxKind(66);

    pub const TIME_KW: SyntaxKind = SyntaxKind(67);

    pub const ZONE_KW: SyntaxKind = SyntaxKind(68);

    pub const LOCAL_KW: SyntaxKind = SyntaxKind(69);

    pub const IS_KW: SyntaxKind = SyntaxKind(70);

    pub const NOT_KW: SyntaxKind = SyntaxKind(71);

    pub const NFC_KW: SyntaxKind = SyntaxKind(72);

    pub const NFD_KW: SyntaxKind = SyntaxKind(73);

    pub const NFKC_KW: SyntaxKind = SyntaxKind(74);

    pub const NFKD_KW: SyntaxKind = SyntaxKind(75);

    pub const NORMALIZED_KW: SyntaxKind = SyntaxKind(76);

    pub const JSON_KW: SyntaxKind = SyntaxKind(77);

    pub const OBJECT_KW: SyntaxKind = SyntaxKind(78);

    pub const ARRAY_KW: SyntaxKind = SyntaxKind(79);

    pub const VALUE_KW: SyntaxKind = SyntaxKind(80);

    pub const SCALAR_KW: SyntaxKind = SyntaxKind(81);

    pub const DISTINCT_KW: SyntaxKind = SyntaxKind(82);

    pub const FROM_KW: SyntaxKind = SyntaxKind(83);

    pub const OPERATOR_KW: SyntaxKind = SyntaxKind(84);

    pub const LIKE_KW: SyntaxKind = SyntaxKind(85);

    pub const ILIKE_KW: SyntaxKind = SyntaxKind(86);

    pub const IN_KW: SyntaxKind = SyntaxKind(87);

    // White space, the last token kind.
    pub const WHITESPACE: SyntaxKind = SyntaxKind(639);

    // Nodes that the engine makes itself.
    pub const SIMILAR_TO: SyntaxKind = SyntaxKind(640);

    pub const AT_TIME_ZONE: SyntaxKind = SyntaxKind(641);

    pub const AT_LOCAL: SyntaxKind = SyntaxKind(642);

    pub const IS_NOT_NORMALIZED: SyntaxKind = SyntaxKind(643);

    pub const IS_NORMALIZED: SyntaxKind = SyntaxKind(644);

    pub const COLON_COLON: SyntaxKind = SyntaxKind(645);

    pub const IS_JSON: SyntaxKind = SyntaxKind(646);

    pub const IS_NOT_JSON: SyntaxKind = SyntaxKind(647);

    pub const IS_NOT_JSON_OBJECT: SyntaxKind = SyntaxKind(648);

    pub const IS_NOT_JSON_ARRAY: SyntaxKind = SyntaxKind(649);

    pub const IS_NOT_JSON_VALUE: SyntaxKind = SyntaxKind(650);

    pub const IS_NOT_JSON_SCALAR: SyntaxKind = SyntaxKind(651);

    pub const IS_JSON_OBJECT: SyntaxKind = SyntaxKind(652);

    pub const IS_JSON_ARRAY: SyntaxKind = SyntaxKind(653);

    pub const IS_JSON_VALUE: SyntaxKind = SyntaxKind(654);

    pub const IS_JSON_SCALAR: SyntaxKind = SyntaxKind(655);

    pub const NOT_SIMILAR_TO: SyntaxKind = SyntaxKind(656);

    pub const IS_NOT_DISTINCT_FROM: SyntaxKind = SyntaxKind(657);

    pub const OPERATOR_CALL: SyntaxKind = SyntaxKind(658);

    pub const IS_DISTINCT_FROM: SyntaxKind = SyntaxKind(659);

    pub const NOT_LIKE: SyntaxKind = SyntaxKind(660);

    pub const NOT_ILIKE: SyntaxKind = SyntaxKind(661);

    pub const NOT_IN: SyntaxKind = SyntaxKind(662);

    pub const IS_NOT: SyntaxKind = SyntaxKind(663);

    pub const CUSTOM_OP: SyntaxKind = SyntaxKind(664);

    pub const UNICODE_NORMAL_FORM: SyntaxKind = SyntaxKind(665);

    /// Whether the kind is [`SyntaxKind::WHITESPACE`] or [`SyntaxKind::COMMENT`], which a parser
    /// doesn't see.
    pub fn is_trivia(self) -> bool
        ensures { result ≡ is_trivia self }
    {
        self == SyntaxKind::WHITESPACE || self == SyntaxKind::COMMENT
    }
}

impl From<u16> for SyntaxKind {
    ghost from_gives = { λ number kind. kind ≡ number };

    fn from(number: u16) -> SyntaxKind {
        SyntaxKind(number)
    }
}

impl From<SyntaxKind> for u16 {
    ghost from_gives = { λ kind number. number ≡ kind };

    fn from(kind: SyntaxKind) -> u16 {
        kind.0
    }
}
