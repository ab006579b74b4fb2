//! Classes and rules.
ghost use Rattle.std.specs.Prelude.{◌≡◌, ◌≤◌, false, IfErr, IfNone, IfOk, IfSome, OnErr, OnOk, length};
ghost use Rattle.rule_text.specs.Read.{IsRead, Refuses};
ghost use Rattle.rule_text.specs.Reading.{Decides, Gives, IsMissed, of_first};
ghost use Rattle.rule_text.specs.Rules.{Called, Definition, Head, Member, Members, Rules, Texts};
ghost use Rattle.rule_text.specs.Written.{is_end, sort_at};

use crate::body::body;
use crate::error::{ReadError, WordError};
use crate::leaf::becomes;
use crate::reader::Reader;
use crate::word::{Sort, words_of};
use rule_parts::{Name, Part};
use sql_lexer::tokenize;
use std::alloc::Global;

/// The parts of the rules that a text is, each in front of what is in it.
///
/// A rule begins with its name in front of a line, and a class or a guard with `class`, `words` or `guard` there. White
/// space and comments may stand between any two words.
pub fn read(alloc: Global, text: &str) -> Result<Vec<Part<'_>>, ReadError>
    ensures reads { IfOk result (λ parts. IsRead text.now parts.items) }
    ensures refused { IfErr result (Refuses text.now) }
{
    let tokens = tokenize(alloc, text)?;
    let words = words_of(alloc, text, &tokens)?;
    let mut reader = Reader::new(alloc, text, &words);
    definitions(&mut reader)?;
    Ok(reader.into_parts())
}

/// Classes, guards and rules, one after another.
fn definitions(reader: &mut Reader<'_, '_>) -> Result<(), WordError>
    ensures reads { Decides Rules reader.old reader.new result }
    ensures all { OnOk result (length reader.new.words.now ≤ reader.new.at) }
{
    while !reader.is_done() {
        definition(reader)?;
    }
    Ok(())
}

/// A class, a guard or a rule.
fn definition(reader: &mut Reader<'_, '_>) -> Result<(), WordError>
    ensures { Decides of_first reader.old reader.new result }
{
    match reader.sort() {
        Sort::ClassOf => class(reader),
        Sort::WordsOf => words(reader),
        Sort::GuardOf => guard(reader),
        Sort::Rule => rule(reader),
        _ => Err(reader.expected("a class or a rule, in front of a line")),
    }
}

/// A name of this sort and `=`, after the first word of a line.
fn head<'t>(
    reader: &mut Reader<'_, 't>,
    sort: Sort,
    what: &'static str,
) -> Result<Name<'t>, WordError>
    requires at { is_end (sort_at reader.old.words.now reader.old.at) ≡ false }
    requires named { is_end sort ≡ false }
    ensures read { IfOk result (λ name. Gives (Head sort) name reader.old reader.new) }
    ensures missed { OnErr result (IsMissed (Head sort) reader.old.words.now reader.old.at) }
{
    reader.bump();
    let name = reader.expect(sort, what)?;
    reader.expect(Sort::Equals, "=")?;
    Ok(name)
}

/// `class Name = KIND Other -KIND => KIND`
fn class(reader: &mut Reader<'_, '_>) -> Result<(), WordError>
    requires { sort_at reader.old.words.now reader.old.at ≡ Sort.ClassOf }
    ensures { Decides (Definition Sort.ClassOf) reader.old reader.new result }
{
    let name = head(reader, Sort::Class, "the name of a class")?;
    let start = reader.len();
    members(reader)?;
    let size = reader.size_from(start);
    reader.wrap(start, Part::Set { name, size })
}

/// The members of a class, and a kind after them.
fn members(reader: &mut Reader<'_, '_>) -> Result<(), WordError>
    ensures { Decides Members reader.old reader.new result }
{
    while let Some(part) = member(reader) {
        reader.push(part)?;
        reader.bump();
    }
    if reader.is_at(Sort::Equals) {
        becomes(reader)
    } else {
        Ok(())
    }
}

/// The member that the next word is.
fn member<'t>(reader: &Reader<'_, 't>) -> Option<Part<'t>>
    ensures is { IfSome result (λ part. Member reader.now.words.now reader.now.at part) }
    ensures no { IfNone result ((part : Part) → Member reader.now.words.now reader.now.at part → ⊥) }
{
    let name = reader.name();
    match reader.sort() {
        Sort::Kind => Some(Part::Token { name }),
        Sort::Class => Some(Part::Class { name }),
        Sort::Call => Some(Part::Call { name }),
        Sort::Minus => Some(Part::Without),
        _ => None,
    }
}

/// `words Name = text text`
fn words(reader: &mut Reader<'_, '_>) -> Result<(), WordError>
    requires { sort_at reader.old.words.now reader.old.at ≡ Sort.WordsOf }
    ensures { Decides (Definition Sort.WordsOf) reader.old reader.new result }
{
    let name = head(reader, Sort::Class, "the name of a class")?;
    let start = reader.len();
    texts(reader)?;
    let size = reader.size_from(start);
    reader.wrap(start, Part::Words { name, size })
}

/// The texts of a class of words.
fn texts(reader: &mut Reader<'_, '_>) -> Result<(), WordError>
    ensures { Decides Texts reader.old reader.new result }
{
    while reader.is_at(Sort::Call) {
        let name = reader.name();
        reader.push(Part::Token { name })?;
        reader.bump();
    }
    Ok(())
}

/// `guard name = (First) Next`
fn guard(reader: &mut Reader<'_, '_>) -> Result<(), WordError>
    requires { sort_at reader.old.words.now reader.old.at ≡ Sort.GuardOf }
    ensures { Decides (Definition Sort.GuardOf) reader.old reader.new result }
{
    let name = head(reader, Sort::Call, "the name of a guard")?;
    reader.expect(Sort::OpenParen, "(")?;
    let first = reader.expect(Sort::Class, "a class")?;
    reader.expect(Sort::CloseParen, ")")?;
    let next = reader.expect(Sort::Class, "a class")?;
    reader.push(Part::Guard { name, first, next })
}

/// `rule "message" = ..`
fn rule(reader: &mut Reader<'_, '_>) -> Result<(), WordError>
    requires { sort_at reader.old.words.now reader.old.at ≡ Sort.Rule }
    ensures { Decides (Definition Sort.Rule) reader.old reader.new result }
{
    let name = reader.name();
    reader.bump();
    let message = message(reader, name);
    reader.expect(Sort::Equals, "=")?;
    let start = reader.len();
    body(reader)?;
    let size = reader.size_from(start);
    let rule = Part::Rule {
        name,
        message,
        size,
    };
    reader.wrap(start, rule)
}

/// What errors call the rule.
fn message<'t>(reader: &mut Reader<'_, 't>, name: Name<'t>) -> Name<'t>
    ensures { Gives (Called name.entry) result reader.old reader.new }
{
    if !reader.is_at(Sort::Message) {
        return name;
    }
    let message = reader.name();
    reader.bump();
    message
}
