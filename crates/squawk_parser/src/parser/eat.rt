//! Calls that eat a kind, composite or not, if it is at the position.
//!
//! What is inlined picks the form of a constant kind; what is cold runs at an error.
ghost use Rattle.std.specs.Prelude.{ℕ, ◌≡◌, ◌≢◌, ◌<◌, ◌∷◌, ◌++◌, [], codes, string_bytes, map, IfOk, IsTrue, IsSome, not};
ghost use Rattle.squawk_kinds.specs.KindNames.{kind_name};
ghost use Rattle.squawk_kinds.specs.Kinds.{EOF, R_PAREN, TOMBSTONE};
ghost use Rattle.squawk_kinds.specs.TokenSets.{has};
ghost use Rattle.squawk_output.specs.Steps.{Error};
ghost use Rattle.squawk_table.specs.ParserInput.{kind_in};
ghost use Rattle.squawk_parser.specs.CompositeForms.{element_of, tail_of};
ghost use Rattle.squawk_parser.specs.Composites.{ClosedBy, HasNoEndKind, NoTail, Operator, are_joint, normal_form, sequence_length, stands_at};
ghost use Rattle.squawk_parser.specs.Eaten.{EatsWith, closing_steps, eat_steps, element_steps, expect_steps, expected_text, form_steps, node, one, tail_of_kind};
ghost use Rattle.squawk_parser.specs.Recorded.{Puts};
ghost use Rattle.squawk_parser.specs.SomeSteps.{AddsSome, Spends};
ghost use Rattle.squawk_parser.specs.State.{IsSound, Keeps, ahead};

use crate::parser::Parser;
use crate::parser::composite::{Form, Parts, Tail, composite};
use crate::parser::part::Part;
use crate::parser::view::composites::is_normal_form;
use squawk_kinds::{KindNames, SyntaxKind};
use std::alloc::{AllocError, Global};

impl Parser<'_> {
    /// Eats the kind, composite or not, if it is at the position. Returns whether it is.
    ///
    /// The kind isn't [`SyntaxKind::EOF`] and has no tail: [`Parser::eat_with`] eats those.
    #[inline(always)]
    pub fn eat(&mut self, kind: SyntaxKind) -> bool
        requires end { kind ≢ EOF }
        requires tail { tail_of_kind kind ≡ NoTail }
        ensures at { result ≡ stands_at (has self.old.words.operator_first) kind (ahead self.old 0) }
        ensures keeps { Keeps self.old self.new }
        ensures puts { IsTrue result → Puts (eat_steps self.old.words kind (ahead self.old 0)) self.old self.new }
        ensures some { AddsSome self.old self.new }
        ensures spends { Spends 3 0 self.old self.new }
        ensures eats { IsTrue result → self.old.position < self.new.position }
        ensures none { IsTrue (not result) → self.new ≡ self.old }
    {
        self.witness_sound();
        if !self.at(kind) {
            return false;
        }
        self.bump(kind);
        true
    }

    /// Eats a kind with a tail, if it is at the position. Returns whether it is.
    ///
    /// The node has the kind's tokens and what the tail records. After the tail of
    /// [`SyntaxKind::OPERATOR_CALL`] a closing parenthesis is expected. If the kind isn't at the position, the
    /// tail isn't run.
    pub fn eat_with<F: Part<Answer = ()> + Drop>(&mut self, kind: SyntaxKind, tail: F) -> bool
        requires { tail_of_kind kind ≢ NoTail }
        ensures at { result ≡ stands_at (has self.old.words.operator_first) kind (ahead self.old 0) }
        ensures keeps { Keeps self.old self.new }
        ensures eats { IsTrue result → EatsWith (λ before after. F.does tail before after tt) kind self.old self.new }
        ensures forward { IsTrue result → self.old.position < self.new.position }
        ensures none { IsTrue (not result) → self.new ≡ self.old }
    {
        self.witness_sound();
        if !self.at(kind) {
            return false;
        }
        let Some(
            Form::Sequence {
                parts,
                tail: closing,
            },
        ) = composite(kind)
        else {
            unreachable!();
        };
        let node = self.start();
        self.eat_elements(&parts);
        tail.run(self);
        self.close(closing);
        node.complete(self, kind);
        true
    }

    /// Eats the kind, which is at the position.
    ///
    /// It isn't [`SyntaxKind::EOF`] and has no tail.
    pub fn bump(&mut self, kind: SyntaxKind)
        requires end { kind ≢ EOF }
        requires tail { tail_of_kind kind ≡ NoTail }
        requires at { IsTrue (stands_at (has self.old.words.operator_first) kind (ahead self.old 0)) }
        ensures puts { Puts (eat_steps self.old.words kind (ahead self.old 0)) self.old self.new }
        ensures some { AddsSome self.old self.new }
        ensures spends { Spends 3 0 self.old self.new }
        ensures eats { self.old.position < self.new.position }
    {
        self.witness_sound();
        match composite(kind) {
            None => self.do_bump(kind, 1),
            Some(Form::Glued(parts)) => self.do_bump(kind, parts.as_slice().len() as u8),
            Some(Form::Joint(parts)) => self.eat_joint(kind, &parts),
            Some(Form::Sequence { parts, tail: _ }) => {
                let node = self.start();
                self.eat_elements(&parts);
                node.complete(self, kind);
            }
            Some(Form::Operator) => self.eat_operator(kind),
        }
    }

    /// Eats the kind if it is at the position, else records the error that it is expected. Returns whether it is.
    ///
    /// The kind isn't [`SyntaxKind::EOF`] and has no tail.
    #[inline(always)]
    pub fn expect(&mut self, kind: SyntaxKind) -> bool
        requires end { kind ≢ EOF }
        requires tail { tail_of_kind kind ≡ NoTail }
        ensures at { result ≡ stands_at (has self.old.words.operator_first) kind (ahead self.old 0) }
        ensures puts { Puts (expect_steps self.old.words kind (ahead self.old 0)) self.old self.new }
        ensures some { AddsSome self.old self.new }
        ensures spends { Spends 3 1 self.old self.new }
        ensures eats { IsTrue result → self.old.position < self.new.position }
    {
        if self.eat(kind) {
            return true;
        }
        self.put_expected(kind);
        false
    }

    /// Records the error that the kind is expected.
    #[cold]
    #[inline(never)]
    fn put_expected(&mut self, kind: SyntaxKind)
        ensures { Puts (Error (expected_text self.old.words kind) ∷ []) self.old self.new }
    {
        if self.has_room_for_error() {
            let text = expected(self.alloc, &mut self.names, kind);
            self.put_error(text);
        }
    }

    /// Expects the token that closes a tail, if one does.
    fn close(&mut self, tail: Tail)
        requires sound { IsSound self.old }
        requires closed { (kind : ℕ) → tail_of tail ≡ ClosedBy kind → kind ≡ R_PAREN }
        ensures { Puts (closing_steps self.old.words (tail_of tail) (ahead self.old 0)) self.old self.new }
    {
        match tail {
            Tail::Nothing | Tail::Open => {}
            Tail::ClosedBy(kind) => {
                self.expect(kind);
            }
        }
    }

    /// Eats joint parts, in a node of this kind.
    fn eat_joint(&mut self, kind: SyntaxKind, parts: &Parts)
        requires kind { kind ≢ TOMBSTONE }
        requires no_end { HasNoEndKind parts.now }
        requires touch { IsTrue (are_joint parts.now (ahead self.old 0)) }
        ensures { Puts (node kind (map one parts.now)) self.old self.new }
    {
        let node = self.start();
        for part in parts.as_slice() {
            self.do_bump(*part, 1);
        }
        node.complete(self, kind);
    }

    /// Eats the operator at the position, in a node of this kind.
    fn eat_operator(&mut self, kind: SyntaxKind)
        requires { kind ≢ TOMBSTONE }
        ensures puts { Puts (form_steps (has self.old.words.operator_first) kind Operator (ahead self.old 0)) self.old self.new }
        ensures eats { IsTrue (has self.old.words.operator_first (kind_in (ahead self.old 0) 0)) → self.old.position < self.new.position }
    {
        let len = self.view(0).operator_len(&self.operator_first);
        let node = self.start();
        for _ in 0..len {
            self.bump_any();
        }
        node.complete(self, kind);
    }

    /// Eats the elements of a sequence, which is at the position.
    fn eat_elements(&mut self, parts: &Parts)
        requires sound { IsSound self.old }
        requires no_end { HasNoEndKind parts.now }
        requires stands { IsSome (sequence_length (map element_of parts.now) (ahead self.old 0)) }
        ensures { Puts (element_steps (map element_of parts.now) (ahead self.old 0)) self.old self.new }
    {
        for part in parts.as_slice() {
            if *part == SyntaxKind::UNICODE_NORMAL_FORM {
                self.eat_normal_form();
            } else {
                self.do_bump(*part, 1);
            }
        }
    }

    /// Eats the keyword of a normal form of Unicode, if one is at the position, in a node of its own.
    fn eat_normal_form(&mut self)
        requires { IsSound self.old }
        ensures { Puts (element_steps (normal_form ∷ []) (ahead self.old 0)) self.old self.new }
    {
        if is_normal_form(self.current()) {
            let node = self.start();
            self.bump_any();
            node.complete(self, SyntaxKind::UNICODE_NORMAL_FORM);
        }
    }
}

/// The text of the error that a kind is expected.
#[cold]
fn expected(
    alloc: Global,
    names: &mut KindNames<'_, '_>,
    kind: SyntaxKind,
) -> Result<String, AllocError>
    ensures text { IfOk result (λ s. string_bytes s ≡ codes "expected " ++ kind_name names.old kind) }
    ensures same { names.new ≡ names.old }
{
    if let Some(name) = names.name(kind) {
        return format!(in alloc; "expected {name}");
    }
    let number = u16::from(kind);
    format!(in alloc; "expected {number}")
}
