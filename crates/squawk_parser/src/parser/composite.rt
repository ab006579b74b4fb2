//! The composite kinds: which tokens each consists of, and what they become.
ghost use Rattle.std.specs.Prelude.{◌≡◌, ◌==◌, [], ◌∷◌, map, option_map};
ghost use Rattle.std.specs.List.{find};
ghost use Rattle.squawk_parser.specs.CompositeForms.{element_of, form_of};
ghost use Rattle.squawk_parser.specs.Composites.{composites, Glued, Joint, Sequence, NoTail, Open};

use squawk_kinds::SyntaxKind;
use std::marker::Model;

/// Two, three or four kinds, in their order.
#[derive(Drop)]
pub(super) struct Parts {
    kinds: [SyntaxKind; 4],
    len: usize,
}

impl Model for Parts {
    ghost use Rattle.std.specs.Prelude.{ℕ, List, take, ◌≤◌};

    ghost Value = { List ℕ };

    ghost view = { λ p. take p.len p.kinds };

    ghost invariant = { λ p. p.len ≤ 4 };
}

impl Parts {
    pub(super) fn as_slice(&self) -> &[SyntaxKind]
        ensures { result.now ≡ self.now }
    {
        &self.kinds[..self.len]
    }
}

/// What follows the elements of a sequence, inside its node.
#[derive(Drop)]
pub(super) enum Tail {
    Nothing,
    /// What the grammar's part records.
    Open,
    /// What the grammar's part records, and then a token of this kind, which is expected.
    ClosedBy(SyntaxKind),
}

/// How the tokens of a composite kind stand, and what they become.
#[derive(Drop)]
pub(super) enum Form {
    /// They are joint, and become one token.
    Glued(Parts),
    /// They are joint, and become a node of one token each.
    Joint(Parts),
    /// Trivia may stand between them; they become a node of one token each.
    ///
    /// A part [`SyntaxKind::UNICODE_NORMAL_FORM`] is at most one of the normal forms' keywords, in
    /// a node of its own.
    Sequence { parts: Parts, tail: Tail },
    /// They are an operator, and become a node of one token each.
    Operator,
}

/// The form of a composite kind; none of any other kind.
// A caller's constant kind picks its case.
#[inline(always)]
pub(super) fn composite(kind: SyntaxKind) -> Option<Form>
    ensures { option_map form_of result ≡ option_map (λ composite. composite.form) (find (λ composite. composite.kind == kind) composites) }
{
    let form = match kind {
        SyntaxKind::COLON_EQ => glued(two(SyntaxKind::COLON, SyntaxKind::EQ)),
        SyntaxKind::NEQ => glued(two(SyntaxKind::BANG, SyntaxKind::EQ)),
        SyntaxKind::NEQB => glued(two(SyntaxKind::L_ANGLE, SyntaxKind::R_ANGLE)),
        SyntaxKind::LTEQ => glued(two(SyntaxKind::L_ANGLE, SyntaxKind::EQ)),
        SyntaxKind::FAT_ARROW => glued(two(SyntaxKind::EQ, SyntaxKind::R_ANGLE)),
        SyntaxKind::LESS_LESS => glued(two(SyntaxKind::L_ANGLE, SyntaxKind::L_ANGLE)),
        SyntaxKind::GREATER_GREATER => glued(two(SyntaxKind::R_ANGLE, SyntaxKind::R_ANGLE)),
        SyntaxKind::GTEQ => glued(two(SyntaxKind::R_ANGLE, SyntaxKind::EQ)),
        SyntaxKind::LONG_ARROW => glued(three(
            SyntaxKind::MINUS,
            SyntaxKind::R_ANGLE,
            SyntaxKind::R_ANGLE,
        )),
        SyntaxKind::COLON_COLON => joint(two(SyntaxKind::COLON, SyntaxKind::COLON)),
        SyntaxKind::SIMILAR_TO => sequence(two(SyntaxKind::SIMILAR_KW, SyntaxKind::TO_KW)),
        SyntaxKind::NOT_SIMILAR_TO => sequence(three(
            SyntaxKind::NOT_KW,
            SyntaxKind::SIMILAR_KW,
            SyntaxKind::TO_KW,
        )),
        SyntaxKind::AT_TIME_ZONE => sequence(three(
            SyntaxKind::AT_KW,
            SyntaxKind::TIME_KW,
            SyntaxKind::ZONE_KW,
        )),
        SyntaxKind::AT_LOCAL => sequence(two(SyntaxKind::AT_KW, SyntaxKind::LOCAL_KW)),
        SyntaxKind::IS_NOT => sequence(two(SyntaxKind::IS_KW, SyntaxKind::NOT_KW)),
        SyntaxKind::IS_DISTINCT_FROM => sequence(three(
            SyntaxKind::IS_KW,
            SyntaxKind::DISTINCT_KW,
            SyntaxKind::FROM_KW,
        )),
        SyntaxKind::IS_NOT_DISTINCT_FROM => sequence(four(
            SyntaxKind::IS_KW,
            SyntaxKind::NOT_KW,
            SyntaxKind::DISTINCT_KW,
            SyntaxKind::FROM_KW,
        )),
        SyntaxKind::NOT_LIKE => sequence(two(SyntaxKind::NOT_KW, SyntaxKind::LIKE_KW)),
        SyntaxKind::NOT_ILIKE => sequence(two(SyntaxKind::NOT_KW, SyntaxKind::ILIKE_KW)),
        SyntaxKind::NOT_IN => sequence(two(SyntaxKind::NOT_KW, SyntaxKind::IN_KW)),
        SyntaxKind::IS_NORMALIZED => sequence(three(
            SyntaxKind::IS_KW,
            SyntaxKind::UNICODE_NORMAL_FORM,
            SyntaxKind::NORMALIZED_KW,
        )),
        SyntaxKind::IS_NOT_NORMALIZED => sequence(four(
            SyntaxKind::IS_KW,
            SyntaxKind::NOT_KW,
            SyntaxKind::UNICODE_NORMAL_FORM,
            SyntaxKind::NORMALIZED_KW,
        )),
        SyntaxKind::IS_JSON => with_tail(two(SyntaxKind::IS_KW, SyntaxKind::JSON_KW)),
        SyntaxKind::IS_JSON_OBJECT => with_tail(three(
            SyntaxKind::IS_KW,
            SyntaxKind::JSON_KW,
            SyntaxKind::OBJECT_KW,
        )),
        SyntaxKind::IS_JSON_ARRAY => with_tail(three(
            SyntaxKind::IS_KW,
            SyntaxKind::JSON_KW,
            SyntaxKind::ARRAY_KW,
        )),
        SyntaxKind::IS_JSON_VALUE => with_tail(three(
            SyntaxKind::IS_KW,
            SyntaxKind::JSON_KW,
            SyntaxKind::VALUE_KW,
        )),
        SyntaxKind::IS_JSON_SCALAR => with_tail(three(
            SyntaxKind::IS_KW,
            SyntaxKind::JSON_KW,
            SyntaxKind::SCALAR_KW,
        )),
        SyntaxKind::IS_NOT_JSON => with_tail(three(
            SyntaxKind::IS_KW,
            SyntaxKind::NOT_KW,
            SyntaxKind::JSON_KW,
        )),
        SyntaxKind::IS_NOT_JSON_OBJECT => with_tail(four(
            SyntaxKind::IS_KW,
            SyntaxKind::NOT_KW,
            SyntaxKind::JSON_KW,
            SyntaxKind::OBJECT_KW,
        )),
        SyntaxKind::IS_NOT_JSON_ARRAY => with_tail(four(
            SyntaxKind::IS_KW,
            SyntaxKind::NOT_KW,
            SyntaxKind::JSON_KW,
            SyntaxKind::ARRAY_KW,
        )),
        SyntaxKind::IS_NOT_JSON_VALUE => with_tail(four(
            SyntaxKind::IS_KW,
            SyntaxKind::NOT_KW,
            SyntaxKind::JSON_KW,
            SyntaxKind::VALUE_KW,
        )),
        SyntaxKind::IS_NOT_JSON_SCALAR => with_tail(four(
            SyntaxKind::IS_KW,
            SyntaxKind::NOT_KW,
            SyntaxKind::JSON_KW,
            SyntaxKind::SCALAR_KW,
        )),
        SyntaxKind::OPERATOR_CALL => Form::Sequence {
            parts: two(SyntaxKind::OPERATOR_KW, SyntaxKind::L_PAREN),
            tail: Tail::ClosedBy(SyntaxKind::R_PAREN),
        },
        SyntaxKind::CUSTOM_OP => Form::Operator,
        _ => return None,
    };
    Some(form)
}

fn glued(parts: Parts) -> Form
    ensures { form_of result ≡ Glued parts }
{
    Form::Glued(parts)
}

fn joint(parts: Parts) -> Form
    ensures { form_of result ≡ Joint parts }
{
    Form::Joint(parts)
}

fn sequence(parts: Parts) -> Form
    ensures { form_of result ≡ Sequence (map element_of parts) NoTail }
{
    Form::Sequence {
        parts,
        tail: Tail::Nothing,
    }
}

fn with_tail(parts: Parts) -> Form
    ensures { form_of result ≡ Sequence (map element_of parts) Open }
{
    Form::Sequence {
        parts,
        tail: Tail::Open,
    }
}

fn two(first: SyntaxKind, second: SyntaxKind) -> Parts
    ensures { result ≡ first ∷ second ∷ [] }
{
    Parts {
        kinds: [first, second, SyntaxKind::EOF, SyntaxKind::EOF],
        len: 2,
    }
}

fn three(first: SyntaxKind, second: SyntaxKind, third: SyntaxKind) -> Parts
    ensures { result ≡ first ∷ second ∷ third ∷ [] }
{
    Parts {
        kinds: [first, second, third, SyntaxKind::EOF],
        len: 3,
    }
}

fn four(first: SyntaxKind, second: SyntaxKind, third: SyntaxKind, fourth: SyntaxKind) -> Parts
    ensures { result ≡ first ∷ second ∷ third ∷ fourth ∷ [] }
{
    Parts {
        kinds: [first, second, third, fourth],
        len: 4,
    }
}
