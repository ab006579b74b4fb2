//! What a parser and its markers answer to a grammar in code, whose two entry points differ.
ghost use Rattle.std.specs.Prelude.{◌≡◌};
ghost use Rattle.squawk_output.specs.Draft.{open_markers_of};
ghost use Rattle.squawk_parser.specs.State.{HasNotFailed, IsSound, Keeps};

use row_fixtures::keywords::KEYWORDS;
use row_fixtures::kinds::{BINARY, NAME, NAME_REF};
use row_fixtures::lexer::tokens_of;
use row_fixtures::output::written;
use row_fixtures::words::no_words;
use squawk_parser::{
    CompletedMarker, EntryPoint, Grammar, LexedStr, Output, Parser, Part, SyntaxKind, Words,
    has_tail,
};
use std::alloc::AllocError;
use std::process::Abort;
use std::test::Fail;

/// The current token, as a tail.
#[derive(Clone, Copy)]
struct CurrentToken;

impl Part for CurrentToken {
    type Answer = ();

    ghost does = { λ _ _ _ _. Unit {0} };

    fn run(self, p: &mut Parser<'_>) {
        p.bump_any();
    }
}

fn bump_if_there(p: &mut Parser<'_>, kind: SyntaxKind)
    requires { IsSound p.old }
    ensures keeps { Keeps p.old p.new }
    ensures open_markers { HasNotFailed p.new → open_markers_of p.new.draft.items ≡ open_markers_of p.old.draft.items }
{
    if kind != SyntaxKind::EOF && !has_tail(kind) && p.at(kind) {
        p.bump(kind);
    }
}

/// A grammar that ends the test where an act has another answer than the wanted one.
#[derive(Drop)]
struct Acting<'a, R> {
    rt: &'a R,
}

impl<R: Abort> Acting<'_, R> {
    /// Eats the kind, or doesn't.
    fn eat(&self, p: &mut Parser<'_>, kind: SyntaxKind, wanted: bool)
        requires { IsSound p.old }
        ensures keeps { Keeps p.old p.new }
        ensures open_markers { HasNotFailed p.new → open_markers_of p.new.draft.items ≡ open_markers_of p.old.draft.items }
    {
        if kind != SyntaxKind::EOF && !has_tail(kind) {
            let answer = p.eat(kind);
            assert_eq!(self.rt; answer, wanted);
        }
    }

    /// Eats the kind with the current token as its tail, or doesn't.
    fn eat_with(&self, p: &mut Parser<'_>, kind: SyntaxKind, wanted: bool)
        requires { IsSound p.old }
        ensures keeps { Keeps p.old p.new }
        ensures open_markers { HasNotFailed p.new → open_markers_of p.new.draft.items ≡ open_markers_of p.old.draft.items }
    {
        if has_tail(kind) {
            let answer = p.eat_with(kind, CurrentToken);
            assert_eq!(self.rt; answer, wanted);
        }
    }

    /// Eats the kind, or records that it is expected.
    fn expect(&self, p: &mut Parser<'_>, kind: SyntaxKind, wanted: bool)
        requires { IsSound p.old }
        ensures keeps { Keeps p.old p.new }
        ensures open_markers { HasNotFailed p.new → open_markers_of p.new.draft.items ≡ open_markers_of p.old.draft.items }
    {
        if kind != SyntaxKind::EOF && !has_tail(kind) {
            let answer = p.expect(kind);
            assert_eq!(self.rt; answer, wanted);
        }
    }

    /// Eats the kind if it stands there, and is then at the position.
    fn bump(&self, p: &mut Parser<'_>, kind: SyntaxKind, position: usize)
        requires { IsSound p.old }
        ensures keeps { Keeps p.old p.new }
        ensures open_markers { HasNotFailed p.new → open_markers_of p.new.draft.items ≡ open_markers_of p.old.draft.items }
    {
        bump_if_there(p, kind);
        assert_eq!(self.rt; p.position(), position);
    }

    /// A node that is complete before the others.
    fn early(&self, p: &mut Parser<'_>) -> CompletedMarker
        requires { IsSound p.old }
        ensures keeps { Keeps p.old p.new }
        ensures open_markers { HasNotFailed p.new → open_markers_of p.new.draft.items ≡ open_markers_of p.old.draft.items }
    {
        let marker = p.start();
        self.eat(p, SyntaxKind::COMMA, false);
        marker.complete(p, SyntaxKind::from(BINARY))
    }

    /// A `NAME` behind one token that is extended to a marker before it.
    fn extend(&self, p: &mut Parser<'_>, early: &CompletedMarker)
        requires { IsSound p.old }
        ensures keeps { Keeps p.old p.new }
        ensures open_markers { HasNotFailed p.new → open_markers_of p.new.draft.items ≡ open_markers_of p.old.draft.items }
    {
        let marker = p.start();
        self.eat(p, SyntaxKind::IDENT, true);
        let begun = p.start();
        self.eat(p, SyntaxKind::IDENT, true);
        let node = begun.complete(p, SyntaxKind::from(NAME));
        assert_eq!(self.rt; u16::from(node.kind()), NAME);
        assert!(self.rt; marker.started_before(&node));
        assert!(self.rt; !marker.started_before(early));
        let _ = node.extend_to(p, marker);
    }

    /// A `NAME_REF` that is preceded by a marker which is given up.
    fn precede(&self, p: &mut Parser<'_>)
        requires { IsSound p.old }
        ensures keeps { Keeps p.old p.new }
        ensures open_markers { HasNotFailed p.new → open_markers_of p.new.draft.items ≡ open_markers_of p.old.draft.items }
    {
        let marker = p.start();
        self.eat(p, SyntaxKind::IDENT, true);
        let node = marker.complete(p, SyntaxKind::from(NAME_REF));
        let outer = node.precede(p);
        outer.abandon(p);
    }
}

impl<R: Abort> Grammar for Acting<'_, R> {
    ghost use Rattle.squawk_parser.specs.Words.{no_words};

    ghost leaves = { λ _ _ _ _. Unit {0} };

    ghost runs = { λ _ _ _ _. Unit {0} };

    ghost meaning = { λ _. no_words };

    fn words(&self) -> Words<'_> {
        no_words()
    }

    /// Over `a := b ; is json c`.
    fn entry_point(&self, p: &mut Parser<'_>) -> Result<(), AllocError> {
        self.eat(p, SyntaxKind::COMMA, false);
        self.eat(p, SyntaxKind::IDENT, true);
        self.expect(p, SyntaxKind::COMMA, false);
        self.expect(p, SyntaxKind::COLON_EQ, true);
        self.bump(p, SyntaxKind::COMMA, 3);
        self.bump(p, SyntaxKind::IDENT, 4);
        self.eat_with(p, SyntaxKind::IS_JSON, false);
        self.bump(p, SyntaxKind::SEMICOLON, 5);
        self.eat_with(p, SyntaxKind::IS_JSON, true);
        self.eat(p, SyntaxKind::IDENT, false);
        Ok(())
    }

    /// Over `a b c`.
    fn plpgsql_entry_point(&self, p: &mut Parser<'_>) -> Result<(), AllocError> {
        let early = self.early(p);
        self.extend(p, &early);
        self.precede(p);
        Ok(())
    }
}

/// The output of the grammar over a text with the keywords of composite kinds, from an entry point.
fn output_of(
    rt: &(impl Abort + AllocGlobal),
    entry_point: EntryPoint,
    text: &str,
) -> Result<Output, Fail> {
    let tokens = tokens_of(rt.alloc(), text)?;
    let table = LexedStr::new(rt.alloc(), text, &tokens, &KEYWORDS)?;
    let input = table.to_input(rt.alloc(), &KEYWORDS)?;
    Ok(entry_point.parse(rt.alloc(), &input, &Acting { rt })?)
}

/// Ends the test unless the steps of the output have the line.
fn assert_output(rt: &(impl Abort + AllocGlobal), output: &Output, line: &str) -> Result<(), Fail> {
    let steps = written(rt.alloc(), output)?;
    assert_eq!(rt; steps.line.as_str(), line);
    Ok(())
}

#[test]
fn acts_answer_whether_a_kind_stands_there(rt: HostRuntime) -> Result<(), Fail> {
    let output = output_of(&rt, EntryPoint::SourceFile, "a := b ; is json c")?;
    let line = "IDENT !'expected 6' COLON_EQ*2 IDENT SEMICOLON IS_JSON(IS_KW JSON_KW IDENT)";
    assert_output(&rt, &output, line)
}

#[test]
fn markers_know_which_was_started_before(rt: HostRuntime) -> Result<(), Fail> {
    let output = output_of(&rt, EntryPoint::Plpgsql, "a b c")?;
    assert_output(&rt, &output, "BINARY() NAME(IDENT IDENT) NAME_REF(IDENT)")
}
