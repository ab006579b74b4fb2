//! The raw tokens of a script, a statement at a time.
ghost use Rattle.std.specs.Prelude.{◌≡◌, ◌<◌, ◌≤◌, ℕ, nat_le, List, [], length, IfOk, IfErr, IsTrue, OnOk};
ghost use Rattle.squawk_tokens.specs.AcceptedTokens.{AreAcceptedTokens};
ghost use Rattle.sql_lexer.specs.Lines.{EndsLine};
ghost use Rattle.sql_lexer.specs.ScriptLexing.{Cuts, begun_at, longer, script_place, tokens_left};

use crate::script::places::{Place, ends_statement, push_next};
use crate::script::script_place::ScriptPlace;
use crate::tokenizer::{LONGEST_TEXT, TokenizeError};
use squawk_tokens::Token;
use std::alloc::AllocError;
use std::marker::Model;

/// Cuts a text that `psql` reads or `pg_dump` writes into raw tokens, a statement at a time: those of
/// [`tokenize_script`](crate::tokenize_script).
#[derive(Drop)]
pub struct ScriptLexer<'t> {
    text: &'t str,
    /// How many bytes are cut.
    at: usize,
    place: Place,
}

impl<'t> Model for ScriptLexer<'t> {
    ghost use Rattle.sql_lexer.specs.ScriptLexing.{Lexing, IsLexing};

    ghost Value = { Lexing };

    ghost view = { λ l. record { text = l.text.now; at = l.at; place = l.place } };

    ghost invariant = { λ l. IsLexing (record { text = l.text.now; at = l.at; place = l.place }) };
}

impl<'t> ScriptLexer<'t> {
    /// A lexer that has cut nothing of a text at this place of a script. A text of more than `u32::MAX` bytes is refused.
    pub fn new(text: &'t str, place: ScriptPlace) -> Result<ScriptLexer<'t>, TokenizeError>
        ensures begins { IfOk result (λ lexer. lexer ≡ begun_at place text.now) }
        // So `check_tokens` accepts the tokens, and a table can be made of them.
        ensures accepted { IfOk result (λ lexer. AreAcceptedTokens text.now (tokens_left lexer)) }
        ensures refused { IfErr result (λ error. (error ≡ TokenizeError.TextTooLong) × (4294967295 < length text.now)) }
    {
        if text.len() > LONGEST_TEXT {
            return Err(TokenizeError::TextTooLong);
        }
        Ok(ScriptLexer {
            text,
            at: 0,
            place: place.place(),
        })
    }

    /// The same lexer once more. Each goes on by itself.
    pub fn fork(&self) -> ScriptLexer<'t>
        ensures { result ≡ self.now }
    {
        ScriptLexer {
            text: self.text,
            at: self.at,
            place: self.place,
        }
    }

    /// Where the script stands, if another text may begin there.
    pub fn place(&self) -> Option<ScriptPlace>
        ensures { result ≡ script_place self.now.place }
    {
        ScriptPlace::at(self.place)
    }

    /// How many bytes are cut.
    pub fn position(&self) -> usize
        ensures is { result ≡ self.now.at }
        ensures small { result ≤ 4294967295 }
    {
        self.at
    }

    /// Whether all of the text is cut.
    pub fn is_at_end(&self) -> bool
        ensures is { result ≡ nat_le (length self.now.text) self.now.at }
        ensures none_left { IsTrue result → tokens_left self.now ≡ [] }
    {
        self.at >= self.text.len()
    }

    /// Adds the tokens of the next statement to a list, up to the one that ends it, or to the end of the text.
    ///
    /// A script may come as several texts. Where one ends a line, and the statement ends before that, it doesn't depend on the
    /// texts after it. After an allocation failure the lexer is of no use.
    pub fn next_statement(&mut self, tokens: &mut Vec<Token>) -> Result<(), AllocError>
        ensures text { self.new.text ≡ self.old.text }
        ensures cuts { OnOk result (Cuts self.old self.new tokens.old.items tokens.new.items) }
        // Where the text ends a line, and some of it is left, the same is cut of any text that goes on.
        ensures longer { OnOk result (EndsLine self.old.text → self.new.at < length self.old.text → (rest : List ℕ)
            → Cuts (longer rest self.old) (longer rest self.new) tokens.old.items tokens.new.items) }
    {
        let bytes = self.text.as_bytes();
        let mut at = self.at;
        let mut place = self.place;
        while at < bytes.len() {
            let token = push_next(tokens, &mut place, &bytes[at..])?;
            at += token.len as usize;
            if ends_statement(token.kind, &place) {
                break;
            }
        }
        self.at = at;
        self.place = place;
        Ok(())
    }
}
