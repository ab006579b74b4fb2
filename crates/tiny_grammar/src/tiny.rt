//! Operands, with operators between them.
ghost use Rattle.std.specs.Prelude.{ℕ, List, ◌≡◌, ◌≤◌, ◌∷◌, ◌++◌, [], ◌⊎◌, length, IfOk, IfErr, IsTrue};
ghost use Rattle.squawk_kinds.specs.Kinds.{EOF};
ghost use Rattle.squawk_kinds.specs.TokenSets.{has};
ghost use Rattle.squawk_table.specs.ParserInput.{input_of, kind_in};
ghost use Rattle.squawk_table.specs.Shape.{Fits, no_keywords};
ghost use Rattle.squawk_output.specs.Steps.{Step, Enter, Exit, eaten, errors_in};
ghost use Rattle.squawk_parser.specs.Composed.{Adds, AddsNode, RecordsSteps};
ghost use Rattle.squawk_parser.specs.Parse.{IsParse, IsRefused};
ghost use Rattle.squawk_parser.specs.Recorded.{Puts};
ghost use Rattle.squawk_parser.specs.State.{State, HasNode, IsSound, ahead, fresh, kind_at};
ghost use Rattle.squawk_parser.specs.declared.parser.parse_error.ParseError.TheVariants.{OutOfMemory};
ghost use Rattle.tiny_grammar.specs.Expressions.{FailsTiny, HasTinyOperators, IsTiny, behind, bin, expression_in_order, expression_steps, is_operand, is_operator_kind, operand_step, operand_steps, operator_steps, part_in_order, right_steps, behind_expression, tail_steps};

use squawk_parser::{
    CompletedMarker, EntryPoint, Grammar, LexedStr, Output, ParseError, Parser, SyntaxKind,
    TokenSet, Vocabulary, WholeGrammar, Words, token_set,
};
use std::alloc::{AllocError, Global};
use std::marker::Model;

const SOURCE: SyntaxKind = SyntaxKind(720);

const BIN: SyntaxKind = SyntaxKind(721);

const OPERAND: SyntaxKind = SyntaxKind(722);

/// The kinds that operators are made of.
const OPERATORS: TokenSet = token_set![
    SyntaxKind::PLUS,
    SyntaxKind::MINUS,
    SyntaxKind::STAR,
    SyntaxKind::SLASH,
    SyntaxKind::L_ANGLE,
    SyntaxKind::R_ANGLE,
    SyntaxKind::EQ,
    SyntaxKind::TILDE,
    SyntaxKind::BANG,
    SyntaxKind::AT,
    SyntaxKind::POUND,
    SyntaxKind::PERCENT,
    SyntaxKind::CARET,
    SyntaxKind::AMP,
    SyntaxKind::PIPE,
    SyntaxKind::BACKTICK,
    SyntaxKind::QUESTION,
];

/// A grammar of operands with operators between them. An operator takes all that stands before it as
/// its left operand.
#[derive(Drop)]
pub struct Tiny {
    operator_first: TokenSet,
}

impl Model for Tiny {
    ghost use Rattle.std.specs.Prelude.{◌≡◌};
    ghost use Rattle.squawk_kinds.specs.TokenSets.{has};
    ghost use Rattle.squawk_kinds.specs.declared.token_set.TokenSet.{TokenSet};
    ghost use Rattle.tiny_grammar.specs.Expressions.{is_operator_kind};

    ghost Value = { TokenSet };

    ghost view = { λ tiny. tiny.operator_first };

    ghost invariant = { λ tiny. has tiny.operator_first ≡ is_operator_kind };
}

impl Tiny {
    /// The grammar, with the kinds that its operators are made of.
    pub fn new() -> Tiny
        ensures { has result ≡ is_operator_kind }
    {
        Tiny {
            operator_first: OPERATORS,
        }
    }

    /// The parse of a table's input. All of it is eaten, and stands in one root.
    pub fn parse<V: Vocabulary>(
        &self,
        alloc: Global,
        table: &LexedStr<'_>,
        vocabulary: &V,
        entry: EntryPoint,
    ) -> Result<Output, ParseError>
        ensures output { IfOk result (λ output. IsParse (IsTiny (input_of (V.contextual_keyword vocabulary.now) table.now)) (input_of (V.contextual_keyword vocabulary.now) table.now) output) }
        ensures within { IfOk result (λ output. (output.recorded ≤ 4294967295) × (errors_in output.steps ≤ 2147483648)) }
        ensures refused { IfErr result (λ reason. (reason ≡ OutOfMemory) ⊎ IsRefused (FailsTiny) (fresh (input_of (V.contextual_keyword vocabulary.now) table.now) (record { operator_first = self.now; names = [] }) 4294967295 2147483648) reason) }
        ensures fits { IfOk result (λ output. Fits table.now output.steps) }
        ensures whole { IfOk result (λ output. eaten output.steps ≡ length (input_of no_keywords table.now)) }
    {
        let input = table.to_input(alloc, vocabulary)?;
        let output = entry.parse(alloc, &input, self)?;
        Ok(output)
    }
}

impl Grammar for Tiny {
    ghost use Rattle.std.specs.Prelude.{[]};
    ghost use Rattle.squawk_kinds.specs.TokenSets.{has};
    ghost use Rattle.tiny_grammar.specs.Expressions.{FailsTiny, IsTiny};

    ghost leaves = { λ _ _ input draft. IsTiny input draft };

    ghost runs = { λ _ _ begun left. FailsTiny begun left };

    ghost meaning = { λ tiny. record { operator_first = tiny; names = [] } };

    fn words(&self) -> Words<'_> {
        Words {
            operator_first: self.operator_first,
            names: &[],
        }
    }

    fn entry_point(&self, p: &mut Parser<'_>) -> Result<(), AllocError> {
        // A look at the set shows which kinds it has.
        let _ = &self.operator_first;
        let root = p.start();
        expression(p);
        rest(p);
        root.complete(p, SOURCE);
        Ok(())
    }

    fn plpgsql_entry_point(&self, p: &mut Parser<'_>) -> Result<(), AllocError> {
        self.entry_point(p)
    }
}

impl WholeGrammar for Tiny {
    ghost leaves_whole = { λ _ _ _ _ _ left. left.whole };
}

/// An operand, and operators behind it, each with its right operand.
fn expression(p: &mut Parser<'_>)
    requires { HasTinyOperators p.old.words }
    ensures adds { Adds (expression_steps (ahead p.old 0)) p.old p.new }
    ensures records { RecordsSteps (expression_in_order (ahead p.old 0)) p.old p.new }
    ensures rest { ahead p.new 0 ≡ behind_expression (ahead p.old 0) }
{
    let mut left = operand(p);
    while p.at(SyntaxKind::CUSTOM_OP) {
        left = operation(left, p);
    }
}

/// An operator with its right operand, behind its left one.
fn operation(left: CompletedMarker, p: &mut Parser<'_>) -> CompletedMarker
    requires at_hand { HasNode p.old left }
    requires operators { HasTinyOperators p.old.words }
    requires operator { IsTrue (is_operator_kind (kind_in (ahead p.old 0) 0)) }
    ensures adds { (begun : State) (steps : List Step) → AddsNode steps left begun p.old
        → AddsNode (Enter bin ∷ (steps ++ right_steps (ahead p.old 0)) ++ Exit ∷ []) result begun p.new }
    ensures records { RecordsSteps (part_in_order (right_steps (ahead p.old 0))) p.old p.new }
    ensures behind { ahead p.new 0 ≡ behind (right_steps (ahead p.old 0)) (ahead p.old 0) }
{
    let node = left.precede(p);
    operator(p);
    operand(p);
    node.complete(p, BIN)
}

/// The operator at the position.
fn operator(p: &mut Parser<'_>)
    requires operators { HasTinyOperators p.old.words }
    requires operator { IsTrue (is_operator_kind (kind_in (ahead p.old 0) 0)) }
    ensures { Puts (operator_steps (ahead p.old 0)) p.old p.new }
{
    p.bump(SyntaxKind::CUSTOM_OP);
}

/// One token, or an error where none is an operand.
fn operand(p: &mut Parser<'_>) -> CompletedMarker
    ensures adds { AddsNode (operand_steps (ahead p.old 0)) result p.old p.new }
    ensures records { RecordsSteps (operand_steps (ahead p.old 0)) p.old p.new }
{
    let node = p.start();
    operand_token(p);
    node.complete(p, OPERAND)
}

/// The token of an operand, or the error.
fn operand_token(p: &mut Parser<'_>)
    ensures { Puts (operand_step (ahead p.old 0) ∷ []) p.old p.new }
{
    if is_operand(p.current()) {
        p.bump_any();
    } else {
        p.error("expected operand");
    }
}

/// Whether a token of the kind is an operand.
fn is_operand(kind: SyntaxKind) -> bool
    ensures { result ≡ is_operand kind }
{
    kind == SyntaxKind::IDENT || kind == SyntaxKind::INT_NUMBER
}

/// What is left, each token as an error.
fn rest(p: &mut Parser<'_>)
    requires { IsSound p.old }
    ensures puts { Puts (tail_steps (ahead p.old 0)) p.old p.new }
    ensures end { kind_at p.new 0 ≡ EOF }
{
    while p.current() != SyntaxKind::EOF {
        p.err_and_bump("expected end");
    }
}
