//! A recursive grammar of nested lists.
//!
//! ```text
//! file := {item}
//! item := IDENT | INT_NUMBER | list
//! list := '(' [item {',' item}] ')'
//! ```
#![tactic(auto)]

#[cfg(test)]
mod tests;

ghost use Rattle.std.specs.Prelude.{◌≡◌, ◌≢◌, ◌+◌, ◌^◌, ◌<◌, ◌≤◌, ◌==◌, ◌||◌, ◌∷◌, ℕ, List, IfErr, IfOk, drop, false, map, true};
ghost use Rattle.squawk_kinds.specs.Kinds.{COMMA, EOF, L_PAREN, R_PAREN};
ghost use Rattle.squawk_kinds.specs.TokenSets.{has};
ghost use Rattle.squawk_output.specs.Steps.{Step};
ghost use Rattle.squawk_table.specs.ParserInput.{kinds_in};
ghost use Rattle.squawk_table.specs.Shape.{no_keywords};
ghost use Rattle.squawk_parser.specs.Eaten.{one};
ghost use Rattle.squawk_parser.specs.Pipeline.{IsParsedInto, IsRefusal, as_into_error, given};
ghost use Rattle.squawk_parser.specs.Recorded.{Puts};
ghost use Rattle.squawk_parser.specs.State.{IsSound, ahead, kind_at};
ghost use Rattle.list_grammar.specs.DeepLists.{deep_steps, unclosed_behind, up_to_close};
ghost use Rattle.list_grammar.specs.Trees.{IsFile, Item, Items, Reads, deepest, depth_of, kinds_of, list, list_words, with_commas};

use squawk_parser::{
    EntryPoint, Grammar, NoKeywords, ParseWholeError, Parser, Sent, StepList, SyntaxKind, Token,
    TokenSet, WholeGrammar, Words, parse_whole_into, token_set,
};
use std::alloc::{AllocError, Global};

const SOURCE_FILE: SyntaxKind = SyntaxKind(710);

const LIST: SyntaxKind = SyntaxKind(711);

/// How deep lists may nest.
const DEPTH: u32 = 500;

/// The kinds at which a list goes on where an item is missing.
const RECOVERY: TokenSet = token_set![SyntaxKind::COMMA, SyntaxKind::R_PAREN];

/// A source file of items: names, numbers, and lists of items. Errors name kinds by these names.
#[derive(Clone, Copy)]
pub struct Lists<'n> {
    pub names: &'n [(SyntaxKind, &'n str)],
}

impl<'n> Grammar for Lists<'n> {
    ghost use Rattle.std.specs.Prelude.{map};
    ghost use Rattle.squawk_kinds.specs.TokenSets.{no_kinds};
    ghost use Rattle.list_grammar.specs.Trees.{IsFile};

    // One node over all tokens, and of well-formed lists exactly their tree.
    ghost leaves = { λ _ _ input draft. IsFile input draft };

    ghost runs = { λ _ _ _ _. Unit {0} };

    ghost meaning = { λ lists. record { operator_first = no_kinds; names = map (λ pair. (pair.0, pair.1.now)) lists.names.now } };

    #[tactic(auto, using(squawk_parser::specs::Words::no_words_has_no_end))]
    fn words(&self) -> Words<'_> {
        Words {
            operator_first: TokenSet::EMPTY,
            names: self.names,
        }
    }

    fn entry_point(&self, p: &mut Parser<'_>) -> Result<(), AllocError> {
        let file = p.start();
        while p.current() != SyntaxKind::EOF {
            item(p, TokenSet::EMPTY, DEPTH);
        }
        file.complete(p, SOURCE_FILE);
        Ok(())
    }

    fn plpgsql_entry_point(&self, p: &mut Parser<'_>) -> Result<(), AllocError> {
        self.entry_point(p)
    }
}

impl<'n> WholeGrammar for Lists<'n> {
    ghost leaves_whole = { λ _ _ _ _ _ left. left.whole };
}

/// A name, a number or a list. Lists nest at most so deep: one that is deeper is an error. Where none of these
/// stands, an error, with the token unless the set has its kind.
#[cycle(lists)]
fn item(p: &mut Parser<'_>, recovery: TokenSet, depth: u32)
    ensures puts { (steps : List Step) × Puts steps p.old p.new }
    ensures eats { has recovery (kind_at p.old 0) ≡ false → kind_at p.old 0 ≢ EOF
        → p.old.position < p.new.position }
    ensures reads { (item : Item) (rest : List ℕ) → depth_of item ≤ depth → Reads (kinds_of item) rest p.old p.new }
    ensures deep { depth ≡ 0 → kind_at p.old 0 ≡ L_PAREN → Puts (deep_steps (kinds_in (ahead p.old 0))) p.old p.new }
{
    match p.current() {
        SyntaxKind::IDENT | SyntaxKind::INT_NUMBER => p.bump_any(),
        SyntaxKind::L_PAREN if depth > 0 => list(p, depth - 1),
        SyntaxKind::L_PAREN => deep_list(p),
        _ => p.err_recover("expected an item", recovery),
    }
}

/// A list, from its opening parenthesis on. The lists in it nest at most so deep.
#[cycle(lists)]
fn list(p: &mut Parser<'_>, depth: u32)
    requires { kind_at p.old 0 ≡ L_PAREN }
    ensures puts { (steps : List Step) × Puts steps p.old p.new }
    ensures eats { p.old.position < p.new.position }
    ensures reads { (items : Items) (rest : List ℕ) → deepest items ≤ depth
        → Reads (kinds_of (list items)) rest p.old p.new }
{
    let node = p.start();
    p.bump_any();
    items(p, depth);
    p.expect(SyntaxKind::R_PAREN);
    node.complete(p, LIST);
}

/// The items of a list, and the commas between them.
#[cycle(lists)]
fn items(p: &mut Parser<'_>, depth: u32)
    requires { IsSound p.old }
    ensures puts { (steps : List Step) × Puts steps p.old p.new }
    ensures reads { (items : Items) (rest : List ℕ) → deepest items ≤ depth
        → Reads (drop 1 (with_commas items)) (R_PAREN ∷ rest) p.old p.new }
{
    if is_end(p.current()) {
        return;
    }
    item(p, RECOVERY, depth);
    while !is_end(p.current()) {
        next_item(p, depth);
    }
}

/// A comma and an item. Where the comma is missing, an error stands in its place.
#[cycle(lists)]
fn next_item(p: &mut Parser<'_>, depth: u32)
    requires end { kind_at p.old 0 ≢ EOF }
    requires closed { kind_at p.old 0 ≢ R_PAREN }
    ensures puts { (steps : List Step) × Puts steps p.old p.new }
    ensures eats { p.old.position < p.new.position }
    ensures reads { (item : Item) (rest : List ℕ) → depth_of item ≤ depth
        → Reads (COMMA ∷ kinds_of item) rest p.old p.new }
{
    p.expect(SyntaxKind::COMMA);
    item(p, RECOVERY, depth);
}

/// A list that is nested too deep: its tokens in a node, behind one error.
fn deep_list(p: &mut Parser<'_>)
    requires { kind_at p.old 0 ≡ L_PAREN }
    ensures puts { Puts (deep_steps (kinds_in (ahead p.old 0))) p.old p.new }
    ensures eats { p.old.position < p.new.position }
{
    let node = p.start();
    p.error("nested too deep");
    p.bump_any();
    up_to_close(p);
    node.complete(p, SyntaxKind::ERROR);
}

/// The tokens behind an opening parenthesis, up to the one that closes it, or to the end.
fn up_to_close(p: &mut Parser<'_>)
    requires sound { IsSound p.old }
    requires behind { 0 < p.old.position }
    ensures { Puts (map one (up_to_close 1 (kinds_in (ahead p.old 0)))) p.old p.new }
{
    let mut unclosed = 1usize;
    while unclosed > 0 && p.current() != SyntaxKind::EOF {
        let kind = p.current();
        p.bump_any();
        // The position, a `usize`, shows that so many can be counted.
        let _ = p.position();
        unclosed = unclosed_behind(unclosed, kind);
    }
}

/// How many parentheses are unclosed behind a token of the kind.
fn unclosed_behind(unclosed: usize, kind: SyntaxKind) -> usize
    requires some { 0 < unclosed }
    requires room { unclosed + 1 < 2 ^ 64 }
    ensures { result ≡ unclosed_behind unclosed kind }
{
    match kind {
        SyntaxKind::L_PAREN => unclosed + 1,
        SyntaxKind::R_PAREN => unclosed - 1,
        _ => unclosed,
    }
}

/// Whether a list has no more items where a token of the kind stands.
fn is_end(kind: SyntaxKind) -> bool
    ensures { result ≡ (kind == EOF || kind == R_PAREN) }
{
    kind == SyntaxKind::EOF || kind == SyntaxKind::R_PAREN
}

/// Sends the tree of a text with these raw tokens to a list of steps: all of the text, and of well-formed
/// lists exactly their tree.
pub fn send(
    alloc: Global,
    text: &str,
    tokens: &[Token],
    entry: EntryPoint,
    sink: &mut StepList,
) -> Result<Sent, ParseWholeError<AllocError>>
    ensures sent { IfOk result (IsParsedInto (given no_keywords no_keywords text.now tokens.now) IsFile
        (λ steps. sink.old ≡ steps) (λ steps. sink.new ≡ steps)) }
    ensures all { IfOk result (λ sent. sent.all ≡ true) }
    ensures refused { IfErr result (λ reason. IsRefusal (given no_keywords no_keywords text.now tokens.now)
        IsFile (λ _ _. Unit {0}) list_words (λ steps. sink.old ≡ steps) (λ steps. sink.new ≡ steps) (λ _ _ _. Unit {0})
        (sink.new ≡ sink.old) (as_into_error reason)) }
{
    let names = [(SyntaxKind::COMMA, ","), (SyntaxKind::R_PAREN, ")")];
    let lists = Lists { names: &names };
    parse_whole_into(alloc, text, tokens, &NoKeywords, &lists, entry, sink)
}
