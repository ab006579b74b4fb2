//! What stands at the editor's place, by the rules on operators and composite kinds.

use crate::pieces::kinds_of;
use crate::source::Raw;
use squawk_parser::{SyntaxKind, TokenSet};

/// How many tokens a kind has where it stands, or 0, and whether it is a node with a token for each.
#[derive(Clone, Copy)]
pub struct Standing {
    pub len: usize,
    pub is_node: bool,
}

/// The tokens from a place on.
#[derive(Clone, Copy)]
pub struct Ahead<'i> {
    pub tokens: &'i [Raw],
    pub operator_first: TokenSet,
}

impl Ahead<'_> {
    pub fn kind(&self, n: usize) -> SyntaxKind {
        self.tokens
            .get(n)
            .map_or(SyntaxKind::EOF, |token| token.kind)
    }

    /// Whether nothing stands between a token and the next.
    fn is_joint(&self, n: usize) -> bool {
        match (self.tokens.get(n), self.tokens.get(n.saturating_add(1))) {
            (Some(token), Some(next)) => token.end == next.start,
            _ => false,
        }
    }

    /// Whether an operator may have the token.
    fn is_sign(&self, n: usize) -> bool {
        self.operator_first.contains(self.kind(n))
    }

    /// Whether the first so many tokens are the name of an operator.
    fn is_name(&self, len: usize) -> bool {
        let last = self.kind(len.saturating_sub(1));
        len == 1
            || last != SyntaxKind::PLUS && last != SyntaxKind::MINUS
            || self.tokens.iter().take(len).any(|t| is_special(t.kind))
    }

    /// The length of the operator: the longest beginning that is a name, of the signs that touch one another.
    fn operator_len(&self) -> usize {
        let mut longest = 0;
        for n in 0..self.tokens.len() {
            if !self.is_sign(n) || n > 0 && !self.is_joint(n.saturating_sub(1)) {
                return longest;
            }
            let len = n.saturating_add(1);
            if self.is_name(len) {
                longest = len;
            }
        }
        longest
    }

    /// How many tokens these words are, if they stand here.
    fn sequence(&self, words: &'static str) -> usize {
        let mut len = 0usize;
        for word in words.split(' ') {
            let (_, kind) = kinds_of(word);
            if self.kind(len) != kind {
                return 0;
            }
            len = len.saturating_add(1);
        }
        len
    }

    /// The same of words that touch one another and are no part of another operator.
    fn joint(&self, words: &'static str) -> usize {
        let len = self.sequence(words);
        let last = len.saturating_sub(1);
        let is_in_run = self.is_sign(0) && self.is_sign(len) && self.is_joint(last);
        if (0..last).all(|n| self.is_joint(n)) && (!is_in_run || self.operator_len() == len) {
            len
        } else {
            0
        }
    }

    /// The same of words with at most one normal form and `normalized` behind them.
    fn normalized(&self, words: &'static str) -> usize {
        let len = self.sequence(words);
        let forms = usize::from(is_normal_form(self.kind(len)));
        let end = len.saturating_add(forms);
        if len > 0 && self.kind(end) == SyntaxKind::NORMALIZED_KW {
            end.saturating_add(1)
        } else {
            0
        }
    }

    /// Whether the kind stands here, and what eating it makes.
    pub fn standing(&self, kind: SyntaxKind) -> Standing {
        match kind {
            SyntaxKind::COLON_EQ => token(self.joint(": =")),
            SyntaxKind::NEQ => token(self.joint("! =")),
            SyntaxKind::NEQB => token(self.joint("< >")),
            SyntaxKind::LTEQ => token(self.joint("< =")),
            SyntaxKind::FAT_ARROW => token(self.joint("= >")),
            SyntaxKind::LESS_LESS => token(self.joint("< <")),
            SyntaxKind::GREATER_GREATER => token(self.joint("> >")),
            SyntaxKind::GTEQ => token(self.joint("> =")),
            SyntaxKind::LONG_ARROW => token(self.joint("- > >")),
            SyntaxKind::COLON_COLON => node(self.joint(": :")),
            SyntaxKind::SIMILAR_TO => node(self.sequence("similar to")),
            SyntaxKind::NOT_SIMILAR_TO => node(self.sequence("not similar to")),
            SyntaxKind::AT_TIME_ZONE => node(self.sequence("at time zone")),
            SyntaxKind::AT_LOCAL => node(self.sequence("at local")),
            SyntaxKind::IS_NOT => node(self.sequence("is not")),
            SyntaxKind::IS_DISTINCT_FROM => node(self.sequence("is distinct from")),
            SyntaxKind::IS_NOT_DISTINCT_FROM => node(self.sequence("is not distinct from")),
            SyntaxKind::NOT_LIKE => node(self.sequence("not like")),
            SyntaxKind::NOT_ILIKE => node(self.sequence("not ilike")),
            SyntaxKind::NOT_IN => node(self.sequence("not in")),
            SyntaxKind::IS_NORMALIZED => node(self.normalized("is")),
            SyntaxKind::IS_NOT_NORMALIZED => node(self.normalized("is not")),
            SyntaxKind::CUSTOM_OP => node(self.operator_len()),
            _ => token(usize::from(self.kind(0) == kind)),
        }
    }
}

/// One token of so many.
fn token(len: usize) -> Standing {
    let is_node = false;
    Standing { len, is_node }
}

/// A node with so many tokens.
fn node(len: usize) -> Standing {
    let is_node = true;
    Standing { len, is_node }
}

/// Whether an operator that has the kind may end in `+` or `-`.
#[rattlefmt::skip]
fn is_special(kind: SyntaxKind) -> bool {
    matches!(
        kind,
        SyntaxKind::TILDE | SyntaxKind::BANG | SyntaxKind::AT | SyntaxKind::POUND | SyntaxKind::PERCENT
            | SyntaxKind::CARET | SyntaxKind::AMP | SyntaxKind::PIPE | SyntaxKind::BACKTICK | SyntaxKind::QUESTION
    )
}

pub fn is_normal_form(kind: SyntaxKind) -> bool {
    SyntaxKind::NFC_KW <= kind && kind <= SyntaxKind::NFKD_KW
}

/// Whether a call may eat the kind: it isn't the end, and no grammar says what follows it inside its node.
pub fn is_edible(kind: SyntaxKind) -> bool {
    let is_json = SyntaxKind::IS_JSON <= kind && kind <= SyntaxKind::IS_JSON_SCALAR;
    kind != SyntaxKind::EOF && kind != SyntaxKind::OPERATOR_CALL && !is_json
}
