//! Words that hold no others: what expressions are made of.
ghost use Rattle.std.specs.Prelude.{◌≡◌, ℕ, false};
ghost use Rattle.rule_text.specs.Reading.{Decides, Gives, only, written_as};
ghost use Rattle.rule_text.specs.Written.{Arrow, Greedy, Guarding, Kinds, MoreKinds, OneKind, is_end, sort_at};
ghost use Rattle.rule_text.specs.Written.Form.{atom};

use crate::error::WordError;
use crate::look::look;
use crate::reader::Reader;
use crate::word::Sort;
use rule_parts::Part;

/// A word that is this part.
pub(crate) fn one<'t>(reader: &mut Reader<'_, 't>, part: Part<'t>) -> Result<(), WordError>
    ensures { is_end (sort_at reader.old.words.now reader.old.at) ≡ false → Decides (only part.entry) reader.old reader.new result }
{
    reader.push(part)?;
    reader.bump();
    Ok(())
}

/// `_`, which stands in operators alone.
pub(crate) fn operand(reader: &mut Reader<'_, '_>, floor: usize) -> Result<(), WordError>
    requires { sort_at reader.old.words.now reader.old.at ≡ Sort.Operand }
    ensures { Decides (written_as (atom Sort.Operand) floor) reader.old reader.new result }
{
    if floor == 0 {
        return Err(reader.expected("a name or a bracket"));
    }
    one(reader, Part::Operand { floor })
}

/// `=> KIND`
pub(crate) fn becomes(reader: &mut Reader<'_, '_>) -> Result<(), WordError>
    requires { sort_at reader.old.words.now reader.old.at ≡ Sort.Equals }
    ensures { Decides Arrow reader.old reader.new result }
{
    reader.bump();
    reader.expect(Sort::Greater, "=>")?;
    let name = reader.expect(Sort::Kind, "a kind")?;
    reader.push(Part::Becomes { name })
}

/// `~KIND` or `~(KIND | KIND)`
pub(crate) fn node_is(reader: &mut Reader<'_, '_>) -> Result<(), WordError>
    requires { sort_at reader.old.words.now reader.old.at ≡ Sort.Tilde }
    ensures { (floor : ℕ) → Decides (written_as (atom Sort.Tilde) floor) reader.old reader.new result }
{
    let start = reader.len();
    reader.bump();
    kinds(reader)?;
    let size = reader.size_from(start);
    reader.wrap(start, Part::Is { size })
}

/// A kind of node, or some in parentheses.
fn kinds(reader: &mut Reader<'_, '_>) -> Result<(), WordError>
    ensures { Decides Kinds reader.old reader.new result }
{
    if !reader.is_at(Sort::OpenParen) {
        return kind(reader);
    }
    reader.bump();
    kind(reader)?;
    more_kinds(reader)?;
    reader.expect(Sort::CloseParen, "| or )")?;
    Ok(())
}

/// Further kinds of nodes, each after `|`.
fn more_kinds(reader: &mut Reader<'_, '_>) -> Result<(), WordError>
    ensures { Decides MoreKinds reader.old reader.new result }
{
    while reader.is_at(Sort::Or) {
        reader.bump();
        kind(reader)?;
    }
    Ok(())
}

/// A kind of node.
fn kind(reader: &mut Reader<'_, '_>) -> Result<(), WordError>
    ensures { Decides OneKind reader.old reader.new result }
{
    let name = reader.expect(Sort::Kind, "the kind of a node")?;
    reader.push(Part::Kind { name })
}

/// `@name`, `&(A B)`, or nothing.
pub(crate) fn guard(reader: &mut Reader<'_, '_>) -> Result<(), WordError>
    ensures { Decides Guarding reader.old reader.new result }
{
    match reader.sort() {
        Sort::At => named_guard(reader),
        Sort::And => look(reader),
        _ => Ok(()),
    }
}

/// `@name`
fn named_guard(reader: &mut Reader<'_, '_>) -> Result<(), WordError>
    requires { sort_at reader.old.words.now reader.old.at ≡ Sort.At }
    ensures { Decides Guarding reader.old reader.new result }
{
    reader.bump();
    let name = reader.expect(Sort::Call, "the name of a guard")?;
    reader.push(Part::Guarded { name })
}

/// Whether the sign before is greedy.
pub(crate) fn greedy(reader: &mut Reader<'_, '_>) -> bool
    ensures { Gives Greedy result reader.old reader.new }
{
    if !reader.is_at(Sort::Plus) {
        return false;
    }
    reader.bump();
    true
}
