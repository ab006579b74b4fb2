//! A program to copy: prints rules as a module, here `src/ready.rt` of `select_rules`, of which `stdout` is a copy. With
//! the argument `sql` it prints that of `sql_rules`.
#![tactic(auto)]

use rule_source::source;
use rule_tables::Rules;
use select_grammar::kinds::KEYWORDS;
use squawk_keywords::Keywords;
use std::env;

fn main(rt: HostRuntime) -> Result<(), anyhow::Error> {
    let rules = rules(&rt)?;
    // The check wants variables of these types.
    let table = rules.table();
    let _hidden = table.hidden;
    let grammar = rules.grammar();
    let module = source(rt.alloc(), &grammar)?;
    print!(rt; "{module}")?;
    Ok(())
}

fn rules(rt: &HostRuntime) -> Result<Rules, anyhow::Error> {
    let alloc = rt.alloc();
    let name = env::args(rt)?.skip(1).next();
    if name.is_some_and(|name| name.as_str() == "sql") {
        let words = sql_words::vocabulary(alloc)?;
        Ok(sql_rule_texts::rules(alloc, &words)?)
    } else {
        let words = Keywords::ignoring_case(alloc, &KEYWORDS, &[])?;
        Ok(select_rules::rules(alloc, &words)?)
    }
}
