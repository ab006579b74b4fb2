//! Which composite kinds rules name, and which signs are symbols by themselves.
use crate::sets::{both, set_of};
use rule_grammar::Part as Row;
use squawk_kinds::{SyntaxKind, TokenSet};
use std::alloc::{AllocError, Global};

/// What a table has of signs.
#[derive(Drop)]
pub(crate) struct Symbols {
    /// The operators of one token that rules name.
    pub(crate) plain: TokenSet,
    /// The numbers of the composite kinds that rules name.
    pub(crate) glued: Vec<u16>,
    /// The kinds that operators are made of, and those that composite kinds begin with.
    pub(crate) composed: TokenSet,
}

impl Symbols {
    /// Those that these rows and sets name, where operators are made of these kinds.
    pub(crate) fn new(
        alloc: Global,
        rows: &[Row],
        sets: &[TokenSet],
        operators: TokenSet,
    ) -> Result<Symbols, AllocError> {
        let mut symbols = Symbols {
            plain: TokenSet::EMPTY,
            glued: Vec::new(alloc),
            composed: operators,
        };
        for set in sets {
            symbols.plain = symbols.plain.union(both(*set, operators));
        }
        for row in rows {
            match row {
                Row::Token { kind } => symbols.add(*kind, operators)?,
                Row::List { separator, .. } => symbols.add(*separator, operators)?,
                _ => {}
            }
        }
        Ok(symbols)
    }

    fn add(&mut self, kind: SyntaxKind, operators: TokenSet) -> Result<(), AllocError> {
        match first_in(kind) {
            Some(first) => {
                self.composed = self.composed.union(set_of(first));
                if !self.glued.iter().any(|number| *number == kind.0) {
                    self.glued.push(kind.0)?;
                }
            }
            None => self.plain = self.plain.union(both(set_of(kind), operators)),
        }
        Ok(())
    }
}

/// The kind that a composite kind of signs begins with.
fn first_in(kind: SyntaxKind) -> Option<SyntaxKind> {
    match kind {
        SyntaxKind::COLON_EQ | SyntaxKind::COLON_COLON => Some(SyntaxKind::COLON),
        SyntaxKind::NEQ => Some(SyntaxKind::BANG),
        SyntaxKind::NEQB | SyntaxKind::LTEQ | SyntaxKind::LESS_LESS => Some(SyntaxKind::L_ANGLE),
        SyntaxKind::FAT_ARROW => Some(SyntaxKind::EQ),
        SyntaxKind::GTEQ | SyntaxKind::GREATER_GREATER => Some(SyntaxKind::R_ANGLE),
        SyntaxKind::LONG_ARROW => Some(SyntaxKind::MINUS),
        _ => None,
    }
}
