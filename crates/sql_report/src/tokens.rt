//! Raw tokens as lines.
ghost use Rattle.std.specs.Prelude.{◌≡◌, ◌<◌, ◌^◌, IfOk, length, string_bytes};
ghost use Rattle.squawk_tokens.specs.AcceptedTokens.{start_of};
ghost use Rattle.sql_report.specs.TokenLines.{token_lines};

use crate::token_names::token_name;
use squawk_table::Token;
use std::alloc::{AllocError, Global};
use std::fmt::Write;

/// A line for each raw token: what it is, and its bytes.
///
/// ```text
/// Ident 0..6
/// Whitespace 6..7
/// ```
pub fn token_lines(alloc: Global, tokens: &[Token]) -> Result<String, AllocError>
    requires { start_of tokens.now (length tokens.now) < 2 ^ 64 }
    ensures { IfOk result (λ lines. string_bytes lines ≡ token_lines 0 tokens.now) }
{
    let mut lines = String::new(alloc);
    let mut start = 0u64;
    for token in tokens {
        let name = token_name(token.kind);
        let end = start + u64::from(token.len);
        writeln!(lines, "{name} {start}..{end}")?;
        start = end;
    }
    Ok(lines)
}
