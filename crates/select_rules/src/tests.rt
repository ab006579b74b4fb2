//! The table that stands ready is that of the text.
use crate::{ready, rules};
use rule_source::is_same;
use select_grammar::kinds::KEYWORDS;
use squawk_keywords::Keywords;
use std::test::Fail;

#[test]
fn is_what_the_text_makes(rt: HostRuntime) -> Result<(), Fail> {
    let words = Keywords::ignoring_case(rt.alloc(), &KEYWORDS, &[])?;
    let rules = rules(rt.alloc(), &words)?;
    // The check wants variables of these types.
    let table = rules.table();
    let _hidden = table.hidden;
    let made = rules.grammar();
    let ready = ready::grammar();
    assert!(rt; is_same(&ready, &made), "print it again");
    Ok(())
}
