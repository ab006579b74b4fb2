//! A grammar of expressions that asks at each token which of many operators stands there.
ghost use Rattle.std.specs.Prelude.{◌≡◌, ◌≢◌, ◌<◌, List, IsTrue, false, not};
ghost use Rattle.squawk_kinds.specs.Kinds.{EOF};
ghost use Rattle.squawk_kinds.specs.TokenSets.{has};
ghost use Rattle.squawk_output.specs.Steps.{Step};
ghost use Rattle.squawk_parser.specs.Recorded.{Puts};
ghost use Rattle.squawk_parser.specs.State.{IsSound, kind_at};

use squawk_parser::{Grammar, Parser, SyntaxKind, TokenSet, WholeGrammar, Words, token_set};
use std::alloc::AllocError;
use std::marker::Model;

const SOURCE_FILE: SyntaxKind = SyntaxKind(700);

const OPERAND: SyntaxKind = SyntaxKind(705);

/// The kinds that an operand begins with.
const OPERANDS: TokenSet = token_set![
    SyntaxKind::IDENT,
    SyntaxKind::INT_NUMBER,
    SyntaxKind::STRING,
];

/// The kinds that operators are made of.
const OPERATORS: TokenSet = token_set![
    SyntaxKind::PLUS,
    SyntaxKind::MINUS,
    SyntaxKind::STAR,
    SyntaxKind::L_ANGLE,
    SyntaxKind::R_ANGLE,
    SyntaxKind::EQ,
    SyntaxKind::TILDE,
    SyntaxKind::BANG,
    SyntaxKind::AT,
    SyntaxKind::POUND,
    SyntaxKind::AMP,
    SyntaxKind::PIPE,
];

/// Operands and operators, each in a node of its own.
#[derive(Drop)]
pub struct Questions {
    operator_first: TokenSet,
}

impl Model for Questions {
    ghost use Rattle.std.specs.Prelude.{◌≡◌, false};
    ghost use Rattle.squawk_kinds.specs.Kinds.{EOF};
    ghost use Rattle.squawk_kinds.specs.TokenSets.{has};
    ghost use Rattle.squawk_kinds.specs.declared.token_set.TokenSet.{TokenSet};

    ghost Value = { TokenSet };

    ghost view = { λ q. q.operator_first };

    ghost invariant = { λ q. has q.operator_first EOF ≡ false };
}

impl Questions {
    pub fn new() -> Questions {
        Questions {
            operator_first: without_end(OPERATORS),
        }
    }
}

/// The set, or none where it has the end, which is no kind of an operator.
#[tactic(auto, using(squawk_parser::specs::Words::no_words_has_no_end))]
fn without_end(set: TokenSet) -> TokenSet
    ensures { has result EOF ≡ false }
{
    if set.contains(SyntaxKind::EOF) {
        TokenSet::EMPTY
    } else {
        set
    }
}

impl Grammar for Questions {
    ghost use Rattle.std.specs.Prelude.{[]};
    ghost use Rattle.squawk_parser.specs.Whole.{IsWholeFile};

    // One node over all tokens.
    ghost leaves = { λ _ _ input draft. IsWholeFile input draft };

    ghost runs = { λ _ _ _ _. Unit {0} };

    ghost meaning = { λ q. record { operator_first = q; names = [] } };

    fn words(&self) -> Words<'_> {
        Words {
            operator_first: self.operator_first,
            names: &[],
        }
    }

    fn entry_point(&self, p: &mut Parser<'_>) -> Result<(), AllocError> {
        let file = p.start();
        while p.current() != SyntaxKind::EOF {
            part(p);
        }
        file.complete(p, SOURCE_FILE);
        Ok(())
    }

    fn plpgsql_entry_point(&self, p: &mut Parser<'_>) -> Result<(), AllocError> {
        self.entry_point(p)
    }
}

impl WholeGrammar for Questions {
    ghost leaves_whole = { λ _ _ _ _ _ left. left };
}

/// An operand, an operator, or a token by itself.
fn part(p: &mut Parser<'_>)
    requires { kind_at p.old 0 ≢ EOF }
    ensures puts { (steps : List Step) × Puts steps p.old p.new }
    ensures eats { p.old.position < p.new.position }
{
    if p.at_ts(OPERANDS) {
        operand(p);
    } else if !operator(p) {
        p.bump_any();
    }
}

/// An operand, and a dot behind it if there is one.
fn operand(p: &mut Parser<'_>)
    requires { kind_at p.old 0 ≢ EOF }
    ensures puts { (steps : List Step) × Puts steps p.old p.new }
    ensures eats { p.old.position < p.new.position }
{
    let node = p.start();
    p.bump_any();
    more(p);
    node.complete(p, OPERAND);
}

/// A dot, if it comes next.
fn more(p: &mut Parser<'_>)
    requires { IsSound p.old }
    ensures puts { (steps : List Step) × Puts steps p.old p.new }
{
    p.eat(SyntaxKind::DOT);
}

/// Whether an operator came next, which was eaten then.
fn operator(p: &mut Parser<'_>) -> bool
    ensures puts { IsTrue result → (steps : List Step) × Puts steps p.old p.new }
    ensures eats { IsTrue result → p.old.position < p.new.position }
    ensures none { IsTrue (not result) → p.new ≡ p.old }
{
    glued(p) || phrase(p) || mark(p)
}

fn glued(p: &mut Parser<'_>) -> bool
    ensures puts { IsTrue result → (steps : List Step) × Puts steps p.old p.new }
    ensures eats { IsTrue result → p.old.position < p.new.position }
    ensures none { IsTrue (not result) → p.new ≡ p.old }
{
    p.eat(SyntaxKind::COLON_COLON)
        || p.eat(SyntaxKind::LTEQ)
        || p.eat(SyntaxKind::GTEQ)
        || p.eat(SyntaxKind::NEQ)
        || p.eat(SyntaxKind::NEQB)
        || p.eat(SyntaxKind::LONG_ARROW)
}

fn phrase(p: &mut Parser<'_>) -> bool
    ensures puts { IsTrue result → (steps : List Step) × Puts steps p.old p.new }
    ensures eats { IsTrue result → p.old.position < p.new.position }
    ensures none { IsTrue (not result) → p.new ≡ p.old }
{
    p.eat(SyntaxKind::IS_NOT_DISTINCT_FROM)
        || p.eat(SyntaxKind::IS_NOT)
        || p.eat(SyntaxKind::IS_DISTINCT_FROM)
        || p.eat(SyntaxKind::NOT_IN)
        || p.eat(SyntaxKind::NOT_LIKE)
        || p.eat(SyntaxKind::AT_TIME_ZONE)
}

fn mark(p: &mut Parser<'_>) -> bool
    ensures puts { IsTrue result → (steps : List Step) × Puts steps p.old p.new }
    ensures eats { IsTrue result → p.old.position < p.new.position }
    ensures none { IsTrue (not result) → p.new ≡ p.old }
{
    p.eat(SyntaxKind::COMMA) || p.eat(SyntaxKind::SEMICOLON) || p.eat(SyntaxKind::CUSTOM_OP)
}
