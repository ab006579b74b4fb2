//! Scripts of the calls of a text.

use crate::call_list::calls_of;
use crate::keywords::Keywords;
use crate::words::no_words;
use squawk_parser::{EntryPoint, LexedStr, Output};
use squawk_script::Script;
use std::alloc::Global;
use std::test::Fail;

/// The script of the calls, which tells nothing about kinds.
pub fn script_of(alloc: Global, calls: &str) -> Result<Script<'static>, Fail> {
    Ok(Script::new(alloc, calls_of(alloc, calls)?, no_words())?)
}

/// The output of the script of the calls over a table with these keywords.
pub fn parse_script(
    alloc: Global,
    table: &LexedStr<'_>,
    keywords: &Keywords<'_>,
    calls: &str,
) -> Result<Output, Fail> {
    let input = table.to_input(alloc, keywords)?;
    let script = script_of(alloc, calls)?;
    Ok(EntryPoint::SourceFile.parse(alloc, &input, &script)?)
}
