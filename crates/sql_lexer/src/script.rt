//! The raw tokens of a script: SQL, and the data of COPY between it.
ghost use Rattle.std.specs.Prelude.{◌≡◌, IfOk, IfErr};
ghost use Rattle.squawk_tokens.specs.AcceptedTokens.{AreAcceptedTokens};
ghost use Rattle.sql_lexer.specs.CopyData.{DataAreLines};
ghost use Rattle.sql_lexer.specs.Scripts.{script_tokens};
ghost use Rattle.sql_lexer.specs.StatementEnds.{StatementsEnd};
ghost use Rattle.sql_lexer.specs.Tokens.{RefusesText};

mod copy_commands;
pub mod lexer;
mod places;
pub mod script_place;
mod words;

use crate::script::lexer::ScriptLexer;
use crate::script::script_place::ScriptPlace;
use crate::tokenizer::{TokenizeError, give_back, room_for};
use squawk_tokens::Token;
use std::alloc::Global;

/// The raw tokens of a text that `psql` reads or `pg_dump` writes: those of `tokenize`, but for data.
///
/// Data follow a statement that begins with COPY, has `FROM STDIN` or `FROM STDOUT` outside of brackets and
/// ends with a semicolon, or `\copy` with the same words. They are the lines behind that statement's line, up to
/// a line that is `\.`, or else the end of the text; those of a second COPY on the line stand behind those of the
/// first. Each line is a command of psql, and the line `\.` is one that ends a query. A line ends at a newline,
/// with the carriage return before it; each line end is white space, and an empty line is no token. What stands
/// behind COPY on its line is cut as if the text ended there.
///
/// Where statements end is told by `statements`. A byte order mark that begins the text is white space.
///
/// It takes time proportional to the text's length, and no memory but the list's.
#[tactic(auto, using(crate::proofs::CopyData::data_are_lines, crate::proofs::StatementEnds::statements_end))]
pub fn tokenize_script(alloc: Global, text: &str) -> Result<Vec<Token>, TokenizeError>
    ensures tokens { IfOk result (λ tokens. tokens.items ≡ script_tokens text.now) }
    // Between COPY's line and the line `\.` each token is a whole line or a line's end.
    ensures data { DataAreLines }
    // A semicolon ends a statement, but not in the brackets of a rule or in BEGIN ATOMIC .. END.
    ensures ends { StatementsEnd }
    // So `check_tokens` accepts them, and a table can be made of them.
    ensures accepted { IfOk result (λ tokens. AreAcceptedTokens text.now tokens.items) }
    ensures refused { IfErr result (RefusesText text.now) }
{
    let mut lexer = ScriptLexer::new(text, ScriptPlace::Front)?;
    let mut tokens = room_for(alloc, text)?;
    while !lexer.is_at_end() {
        lexer.next_statement(&mut tokens)?;
    }
    give_back(&mut tokens);
    Ok(tokens)
}
