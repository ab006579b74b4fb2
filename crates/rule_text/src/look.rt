//! Looks: tokens that stand in front of an alternative.
ghost use Rattle.std.specs.Prelude.{◌≡◌};
ghost use Rattle.rule_text.specs.Reading.{Decides, only};
ghost use Rattle.rule_text.specs.Written.{Guarding, MoreTokens, OneToken, Tokens, is_end, is_token, sort_at};

use crate::error::WordError;
use crate::leaf::one;
use crate::reader::Reader;
use crate::word::Sort;
use rule_parts::Part;

/// `&(A B)`
pub(crate) fn look(reader: &mut Reader<'_, '_>) -> Result<(), WordError>
    requires { sort_at reader.old.words.now reader.old.at ≡ Sort.And }
    ensures { Decides Guarding reader.old reader.new result }
{
    let start = reader.len();
    reader.bump();
    tokens(reader)?;
    let size = reader.size_from(start);
    reader.wrap(start, Part::Look { size })
}

/// Tokens in parentheses.
fn tokens(reader: &mut Reader<'_, '_>) -> Result<(), WordError>
    ensures { Decides Tokens reader.old reader.new result }
{
    reader.expect(Sort::OpenParen, "(")?;
    token(reader)?;
    more_tokens(reader)?;
    reader.expect(Sort::CloseParen, "a token or )")?;
    Ok(())
}

/// Further tokens.
fn more_tokens(reader: &mut Reader<'_, '_>) -> Result<(), WordError>
    ensures { Decides MoreTokens reader.old reader.new result }
{
    while is_token(reader.sort()) {
        token(reader)?;
    }
    Ok(())
}

/// Whether a word is a token, or a class of them.
fn is_token(sort: Sort) -> bool
    ensures { result ≡ is_token sort }
{
    matches!(sort, Sort::Kind | Sort::Class)
}

/// A token, or one of a class.
fn token(reader: &mut Reader<'_, '_>) -> Result<(), WordError>
    ensures { Decides OneToken reader.old reader.new result }
{
    let name = reader.name();
    match reader.sort() {
        Sort::Kind => one(reader, Part::Token { name }),
        Sort::Class => one(reader, Part::Class { name }),
        _ => Err(reader.expected("a token")),
    }
}
