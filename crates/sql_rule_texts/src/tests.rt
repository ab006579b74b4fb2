//! The table that stands ready is that of the texts.
use crate::read::rules;
use rule_source::is_same;
use sql_words::vocabulary;
use std::test::Fail;

#[test]
fn is_what_the_texts_make(rt: HostRuntime) -> Result<(), Fail> {
    let words = vocabulary(rt.alloc())?;
    let rules = rules(rt.alloc(), &words)?;
    // The check wants variables of these types.
    let table = rules.table();
    let _hidden = table.hidden;
    let made = rules.grammar();
    let ready = sql_rules::ready::grammar();
    assert!(rt; is_same(&ready, &made), "print it again");
    Ok(())
}
