//! The syntax kinds of raw tokens. What is inlined runs for each raw token.
ghost use Rattle.std.specs.Prelude.{◌≡◌, ◌≢◌, ℕ, List};
ghost use Rattle.squawk_kinds.specs.Kinds.{EOF};
ghost use Rattle.squawk_kinds.specs.Keywords.{Keywords};
ghost use Rattle.squawk_table.specs.TokenKinds.{IsConstant, IsNoIdent, kind_of, literal_kind_of};

use squawk_kinds::{SyntaxKind, Vocabulary};
use squawk_tokens::{LiteralKind, TokenKind};

/// The syntax kind of a raw token with this text.
#[inline(always)]
pub(super) fn syntax_kind<V: Vocabulary>(kind: &TokenKind, text: &str, vocabulary: &V) -> SyntaxKind
    ensures { result ≡ kind_of (V.keyword vocabulary.now) kind.now text.now }
{
    match *kind {
        TokenKind::Ident => vocabulary.from_keyword(text).unwrap_or(SyntaxKind::IDENT),
        _ => kind_without_text(kind),
    }
}

/// The syntax kind of a raw token other than an identifier.
#[inline(always)]
fn kind_without_text(kind: &TokenKind) -> SyntaxKind
    requires { IsNoIdent kind.now }
    ensures { (keyword : Keywords) → (text : List ℕ) → result ≡ kind_of keyword kind.now text }
{
    let constant = constant_kind(kind);
    if constant == SyntaxKind::EOF {
        return kind_by_fields(kind);
    }
    constant
}

/// The same, also of kinds whose fields count.
#[inline(never)]
fn kind_by_fields(kind: &TokenKind) -> SyntaxKind
    requires { IsNoIdent kind.now }
    ensures { (keyword : Keywords) → (text : List ℕ) → result ≡ kind_of keyword kind.now text }
{
    match *kind {
        TokenKind::PsqlCommand { ends_query: true } => SyntaxKind::PSQL_TERMINATOR_TEXT,
        TokenKind::PsqlCommand { ends_query: false } => SyntaxKind::PSQL_COMMAND_TEXT,
        TokenKind::Literal { kind } => literal_kind(kind),
        _ => constant_kind(kind),
    }
}

/// The syntax kind of a raw token, if its kind says it without fields, else [`SyntaxKind::EOF`].
///
/// All arms are constants and the function isn't inlined, so that it is a look-up in a table, without a
/// branch that mispredicts.
#[inline(never)]
fn constant_kind(kind: &TokenKind) -> SyntaxKind
    ensures constant { IsConstant kind.now → (keyword : Keywords) → (text : List ℕ) → result ≡ kind_of keyword kind.now text }
    ensures others { result ≢ EOF → IsConstant kind.now }
{
    match *kind {
        TokenKind::Unknown => SyntaxKind::ERROR,
        TokenKind::LineComment | TokenKind::BlockComment { .. } => SyntaxKind::COMMENT,
        TokenKind::Whitespace => SyntaxKind::WHITESPACE,
        TokenKind::QuotedIdent { .. } => SyntaxKind::IDENT,
        TokenKind::PositionalParam { .. } => SyntaxKind::POSITIONAL_PARAM,
        TokenKind::Semi => SyntaxKind::SEMICOLON,
        TokenKind::Comma => SyntaxKind::COMMA,
        TokenKind::Dot => SyntaxKind::DOT,
        TokenKind::DotDot => SyntaxKind::DOT_DOT,
        TokenKind::OpenParen => SyntaxKind::L_PAREN,
        TokenKind::CloseParen => SyntaxKind::R_PAREN,
        TokenKind::OpenBracket => SyntaxKind::L_BRACK,
        TokenKind::CloseBracket => SyntaxKind::R_BRACK,
        TokenKind::OpenCurly => SyntaxKind::L_CURLY,
        TokenKind::CloseCurly => SyntaxKind::R_CURLY,
        TokenKind::At => SyntaxKind::AT,
        TokenKind::Pound => SyntaxKind::POUND,
        TokenKind::Tilde => SyntaxKind::TILDE,
        TokenKind::Question => SyntaxKind::QUESTION,
        TokenKind::Colon => SyntaxKind::COLON,
        TokenKind::Eq => SyntaxKind::EQ,
        TokenKind::Bang => SyntaxKind::BANG,
        TokenKind::Lt => SyntaxKind::L_ANGLE,
        TokenKind::Gt => SyntaxKind::R_ANGLE,
        TokenKind::Minus => SyntaxKind::MINUS,
        TokenKind::And => SyntaxKind::AMP,
        TokenKind::Or => SyntaxKind::PIPE,
        TokenKind::Plus => SyntaxKind::PLUS,
        TokenKind::Star => SyntaxKind::STAR,
        TokenKind::Slash => SyntaxKind::SLASH,
        TokenKind::Caret => SyntaxKind::CARET,
        TokenKind::Percent => SyntaxKind::PERCENT,
        TokenKind::Backtick => SyntaxKind::BACKTICK,
        TokenKind::Eof => SyntaxKind::EOF,
        TokenKind::Ident | TokenKind::PsqlCommand { .. } | TokenKind::Literal { .. } => {
            SyntaxKind::EOF
        }
    }
}

/// The syntax kind of a literal.
fn literal_kind(kind: LiteralKind) -> SyntaxKind
    ensures { result ≡ literal_kind_of kind }
{
    match kind {
        LiteralKind::Int { .. } => SyntaxKind::INT_NUMBER,
        LiteralKind::Numeric { .. } => SyntaxKind::NUMERIC_NUMBER,
        LiteralKind::Str { .. } => SyntaxKind::STRING,
        LiteralKind::NationalStr { .. } => SyntaxKind::NATIONAL_STRING,
        LiteralKind::ByteStr { .. } => SyntaxKind::BYTE_STRING,
        LiteralKind::BitStr { .. } => SyntaxKind::BIT_STRING,
        LiteralKind::DollarQuotedString { .. } => SyntaxKind::DOLLAR_QUOTED_STRING,
        LiteralKind::UnicodeEscStr { .. } => SyntaxKind::UNICODE_ESC_STRING,
        LiteralKind::EscStr { .. } => SyntaxKind::ESC_STRING,
    }
}
