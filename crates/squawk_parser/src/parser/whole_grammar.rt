//! Grammars that always leave one root over all of an input.

use crate::parser::grammar::Grammar;

/// A grammar of which every run that doesn't fail leaves one node, errors aside, and eats all tokens.
///
/// It has no function, only a law: what `leaves` allows over an input is whole.
pub trait WholeGrammar: Grammar {
    ghost use Rattle.std.specs.Prelude.{List};
    ghost use Rattle.squawk_table.specs.ParserInput.{Entry, HasNoEndToken};
    ghost use Rattle.squawk_output.specs.Draft.{Draft};
    ghost use Rattle.squawk_parser.specs.Whole.{IsWholeFile};
    ghost use Rattle.squawk_parser.specs.declared.parser.grammar.EntryPoint.{EntryPoint};

    /// What a run leaves over an input is whole. No token of an input has the kind `EOF`.
    ghost leaves_whole: { (grammar : Self) (entry : EntryPoint) (input : List Entry) (draft : Draft)
        → HasNoEndToken input → Self.leaves grammar entry input draft → IsWholeFile input draft };
}
