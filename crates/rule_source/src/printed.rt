//! A table as the source of a module.
use crate::items::{arrays, numbers, pieces};
use crate::layout::list;
use rule_grammar::{Hidden, RuleGrammar, Table};
use std::alloc::{AllocError, Global};
use std::fmt::Write;

/// What a module begins with.
const HEAD: &str = "\
//! Rules as a table, as `rule_source` prints it. Don't edit it: print it again.
use rule_grammar::{Hidden, RuleGrammar, Table};
use squawk_parser::{SyntaxKind, TokenSet};
";

/// The table and the grammar, up to its numbers.
const GRAMMAR: &str = "
/// The rules as a table.
pub fn table() -> Table<'static> {
    Table {
        rows: &ROWS,
        sets: &SETS,
        looks: &LOOKS,
        messages: MESSAGES,
        message_ends: &MESSAGE_ENDS,
        operators: TokenSet(OPERATORS),
        plain: TokenSet(PLAIN),
        glued: &GLUED,
        composed: TokenSet(COMPOSED),
        hidden: Hidden::NONE,
    }
}

/// The same as a grammar.
pub fn grammar() -> RuleGrammar<'static> {
    RuleGrammar {
        table: table(),
";

/// The source of a module with this grammar as a constant, as `rt fmt` lays it out.
///
/// The module's `grammar()` is to be the same, but that it has no `names`: a test with
/// [`is_same`](crate::is_same) says so. A module has room for 15,000 rows and 3,000 sets.
pub fn source(alloc: Global, grammar: &RuleGrammar<'_>) -> Result<String, AllocError> {
    let mut text = String::from_str(alloc, HEAD)?;
    push_lists(alloc, &mut text, &grammar.table)?;
    push_messages(alloc, &mut text, &grammar.table)?;
    push_kinds(alloc, &mut text, &grammar.table)?;
    text.push_str(GRAMMAR)?;
    push_ends(&mut text, grammar)?;
    Ok(text)
}

fn push_lists(alloc: Global, text: &mut String, table: &Table<'_>) -> Result<(), AllocError> {
    let rows = arrays(alloc, table.rows)?;
    push_array(alloc, text, "static ROWS: [[u16; 8]", &rows)?;
    let sets = arrays(alloc, table.sets)?;
    push_array(alloc, text, "static SETS: [[u16; 40]", &sets)?;
    let looks = arrays(alloc, table.looks)?;
    push_array(alloc, text, "static LOOKS: [[u16; 5]", &looks)
}

fn push_messages(alloc: Global, text: &mut String, table: &Table<'_>) -> Result<(), AllocError> {
    let messages = pieces(alloc, table.messages, table.message_ends)?;
    let messages = list(alloc, &messages, 0)?;
    write!(text, "\nstatic MESSAGES: &str = concat!({messages});\n")?;
    let ends = numbers(alloc, table.message_ends)?;
    push_array(alloc, text, "static MESSAGE_ENDS: [usize", &ends)
}

fn push_kinds(alloc: Global, text: &mut String, table: &Table<'_>) -> Result<(), AllocError> {
    let operators = numbers(alloc, &table.operators.0)?;
    push_array(alloc, text, "const OPERATORS: [u64", &operators)?;
    let plain = numbers(alloc, &table.plain.0)?;
    push_array(alloc, text, "const PLAIN: [u64", &plain)?;
    let composed = numbers(alloc, &table.composed.0)?;
    push_array(alloc, text, "const COMPOSED: [u64", &composed)?;
    let glued = numbers(alloc, table.glued)?;
    push_array(alloc, text, "static GLUED: [u16", &glued)
}

/// An array, whose declaration begins so, with these items.
fn push_array(
    alloc: Global,
    text: &mut String,
    declared: &str,
    items: &[String],
) -> Result<(), AllocError> {
    let count = items.len();
    let items = list(alloc, items, 0)?;
    write!(text, "\n{declared}; {count}] = [{items}];\n")?;
    Ok(())
}

/// The end of the grammar.
fn push_ends(text: &mut String, grammar: &RuleGrammar<'_>) -> Result<(), AllocError> {
    let root = grammar.root.0;
    writeln!(text, "        start: {},", grammar.start)?;
    writeln!(text, "        end: {},", grammar.end)?;
    writeln!(text, "        root: SyntaxKind({root}),")?;
    writeln!(text, "        depth: {},", grammar.depth)?;
    text.push_str("        names: &[],\n    }\n}\n")?;
    Ok(())
}
