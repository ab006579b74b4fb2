//! What stands on the right of `=`.
ghost use Rattle.std.specs.Prelude.{◌≡◌, ℕ, false, IfNone, IfOk, IfSome, OnErr};
ghost use Rattle.rule_text.specs.Reading.{Decides, Gives, IsMissed, behind_one, of_word, only, written_as};
ghost use Rattle.rule_text.specs.Written.{Arrow, Greedy, Guarding, IsAfterBars, Kinds, MoreKinds, OneKind, Separated, bar, begins_guard, begins_item, is_end, is_sign, sign_part, sort_at};
ghost use Rattle.rule_text.specs.Written.Form.{alternative, alternatives, arm, arms, atom, item, items, sequence};

use crate::error::WordError;
use crate::leaf::{becomes, greedy, guard, node_is, one, operand};
use crate::reader::Reader;
use crate::word::Sort;
use rule_parts::{Name, Part};

/// Alternatives between bars: all that stands in a group.
#[cycle(expression)]
fn alternatives(reader: &mut Reader<'_, '_>, floor: usize, depth: u32) -> Result<(), WordError>
    ensures { Decides (written_as alternatives floor) reader.old reader.new result }
{
    let start = reader.len();
    let guarded = begins_guard(reader.sort());
    alternative(reader, floor, depth, false)?;
    let Some(ordered) = ordered_by(reader) else {
        if guarded {
            return Err(reader.expected("| or /"));
        }
        return Ok(());
    };
    let size = reader.size_from(start);
    reader.wrap(start, Part::Arm { size })?;
    arms(reader, floor, depth, false, ordered)?;
    let size = reader.size_from(start);
    reader.wrap(start, Part::Choice { size, ordered })
}

/// Whether a word begins a guard or a look: one of several alternatives begins so.
pub(crate) fn begins_guard(sort: Sort) -> bool
    ensures { result ≡ begins_guard sort }
{
    matches!(sort, Sort::At | Sort::And)
}

/// Whether alternatives are ordered that the next word separates.
pub(crate) fn ordered_by(reader: &Reader<'_, '_>) -> Option<bool>
    ensures some { IfSome result (λ ordered. sort_at reader.now.words.now reader.now.at ≡ bar ordered) }
    ensures none { IfNone result (IsAfterBars reader.now.words.now reader.now.at) }
{
    match reader.sort() {
        Sort::Or => Some(false),
        Sort::Slash => Some(true),
        _ => None,
    }
}

/// Further alternatives, each after `|`, or after `/` if they are ordered.
#[cycle(expression)]
pub(crate) fn arms(
    reader: &mut Reader<'_, '_>,
    floor: usize,
    depth: u32,
    of_rule: bool,
    ordered: bool,
) -> Result<(), WordError>
    ensures { Decides (written_as (arms of_rule ordered) floor) reader.old reader.new result }
{
    while reader.is_at(bar(ordered)) {
        reader.bump();
        arm(reader, floor, depth, of_rule)?;
    }
    Ok(())
}

/// What separates alternatives.
fn bar(ordered: bool) -> Sort
    ensures is { result ≡ bar ordered }
    ensures some { is_end result ≡ false }
{
    if ordered { Sort::Slash } else { Sort::Or }
}

/// An alternative, as an arm.
#[cycle(expression)]
pub(crate) fn arm(
    reader: &mut Reader<'_, '_>,
    floor: usize,
    depth: u32,
    of_rule: bool,
) -> Result<(), WordError>
    ensures { Decides (written_as (arm of_rule) floor) reader.old reader.new result }
{
    let start = reader.len();
    alternative(reader, floor, depth, of_rule)?;
    let size = reader.size_from(start);
    reader.wrap(start, Part::Arm { size })
}

/// An alternative: a guard, if there is one, and items.
#[cycle(expression)]
pub(crate) fn alternative(
    reader: &mut Reader<'_, '_>,
    floor: usize,
    depth: u32,
    of_rule: bool,
) -> Result<(), WordError>
    ensures { Decides (written_as (alternative of_rule) floor) reader.old reader.new result }
{
    guard(reader)?;
    sequence(reader, floor, depth, of_rule)
}

/// The items of an alternative. Those of a rule are a node, if the kind of one is named in them.
#[cycle(expression)]
fn sequence(
    reader: &mut Reader<'_, '_>,
    floor: usize,
    depth: u32,
    of_rule: bool,
) -> Result<(), WordError>
    ensures { Decides (written_as (sequence of_rule) floor) reader.old reader.new result }
{
    let start = reader.len();
    items(reader, floor, depth)?;
    if !of_rule {
        return Ok(());
    }
    if !reader.names_a_kind(start) {
        return Ok(());
    }
    let size = reader.size_from(start);
    reader.wrap(start, Part::Node { size })
}

/// Items, one after another.
#[cycle(expression)]
pub(crate) fn items(reader: &mut Reader<'_, '_>, floor: usize, depth: u32) -> Result<(), WordError>
    ensures { Decides (written_as items floor) reader.old reader.new result }
{
    while begins_item(reader.sort()) {
        item(reader, floor, depth)?;
    }
    Ok(())
}

/// Whether a word begins an item.
fn begins_item(sort: Sort) -> bool
    ensures { result ≡ begins_item sort }
{
    matches!(
        sort,
        Sort::Kind
            | Sort::Class
            | Sort::Call
            | Sort::Operand
            | Sort::Equals
            | Sort::Tilde
            | Sort::OpenParen
            | Sort::OpenBrace
    )
}

/// A word or a group, and how often it may stand.
#[cycle(expression)]
fn item(reader: &mut Reader<'_, '_>, floor: usize, depth: u32) -> Result<(), WordError>
    ensures { Decides (written_as item floor) reader.old reader.new result }
{
    let start = reader.len();
    atom(reader, floor, depth)?;
    let size = reader.size_from(start);
    let sign = reader.sort();
    if !is_sign(sign) {
        return Ok(());
    }
    reader.bump();
    let greedy = greedy(reader);
    reader.wrap(start, sign_part(sign, size, greedy))
}

/// Whether a word says how often an item may stand.
fn is_sign(sort: Sort) -> bool
    ensures { result ≡ is_sign sort }
{
    matches!(sort, Sort::Question | Sort::Star | Sort::Plus)
}

/// The part that a sign puts in front of so many.
fn sign_part<'t>(sort: Sort, size: usize, greedy: bool) -> Part<'t>
    ensures { result ≡ sign_part sort size greedy }
{
    match sort {
        Sort::Question => Part::Optional { size, greedy },
        Sort::Star => Part::Repeat { size, greedy },
        _ => Part::Some { size, greedy },
    }
}

/// A word or a group.
#[cycle(expression)]
fn atom(reader: &mut Reader<'_, '_>, floor: usize, depth: u32) -> Result<(), WordError>
    ensures { Decides (of_word floor) reader.old reader.new result }
{
    let name = reader.name();
    match reader.sort() {
        Sort::Kind => one(reader, Part::Token { name }),
        Sort::Class => one(reader, Part::Class { name }),
        Sort::Call => one(reader, Part::Call { name }),
        Sort::Operand => operand(reader, floor),
        Sort::Equals => becomes(reader),
        Sort::Tilde => node_is(reader),
        Sort::OpenParen => group(reader, floor, depth),
        Sort::OpenBrace => list(reader, floor, depth),
        _ => Err(reader.expected("a name or a bracket")),
    }
}

/// `( .. )`
#[cycle(expression)]
fn group(reader: &mut Reader<'_, '_>, floor: usize, depth: u32) -> Result<(), WordError>
    requires { sort_at reader.old.words.now reader.old.at ≡ Sort.OpenParen }
    ensures { Decides (written_as (atom Sort.OpenParen) floor) reader.old reader.new result }
{
    nested(reader, floor, depth)?;
    reader.expect(Sort::CloseParen, ")")?;
    Ok(())
}

/// `{ .. }` or `{ .. % ';' }`
#[cycle(expression)]
fn list(reader: &mut Reader<'_, '_>, floor: usize, depth: u32) -> Result<(), WordError>
    requires { sort_at reader.old.words.now reader.old.at ≡ Sort.OpenBrace }
    ensures { Decides (written_as (atom Sort.OpenBrace) floor) reader.old reader.new result }
{
    let start = reader.len();
    nested(reader, floor, depth)?;
    let separator = separator(reader)?;
    reader.expect(Sort::CloseBrace, "% or }")?;
    let size = reader.size_from(start);
    reader.wrap(start, Part::List { size, separator })
}

/// The separator where the text names none.
const COMMA: Name<'static> = Name { text: ",", at: 0 };

fn separator<'t>(reader: &mut Reader<'_, 't>) -> Result<Name<'t>, WordError>
    ensures read { IfOk result (λ name. Gives Separated name reader.old reader.new) }
    ensures missed { OnErr result (IsMissed Separated reader.old.words.now reader.old.at) }
{
    if !reader.is_at(Sort::Percent) {
        return Ok(COMMA);
    }
    reader.bump();
    reader.expect(Sort::Kind, "a separator")
}

/// An opening bracket, and alternatives after it.
#[cycle(expression)]
fn nested(reader: &mut Reader<'_, '_>, floor: usize, depth: u32) -> Result<(), WordError>
    requires { is_end (sort_at reader.old.words.now reader.old.at) ≡ false }
    ensures { Decides (behind_one (written_as alternatives floor)) reader.old reader.new result }
{
    if depth == 0 {
        return Err(WordError::TooDeep { at: reader.place() });
    }
    reader.bump();
    alternatives(reader, floor, depth - 1)
}
