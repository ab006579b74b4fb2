//! Rules that are read, made and run where memory is wanting: what is wanted comes of it, or its want of memory, and what
//! is wanted where it is asked for once more.
//!
//! These tests also pass where one allocation is refused: so each is asked for at most twice.
use crate::lines::line_of;
use crate::names::{CLASSES, NODES, TOKENS};
use crate::trees::EXPRESSIONS;
use rule_tables::{KeywordNames, Rules, RulesError, TextError};
use rule_text::ReadError;
use sql_lexer::{TokenizeError, tokenize};
use squawk_kinds::{NoKeywords, TokenSet};
use squawk_parser::{EntryPoint, StepList, parse_whole_into};
use std::alloc::{AllocError, Global};
use std::test::Fail;

/// Whether memory was wanting.
fn is_memory(error: &TextError) -> bool {
    match error {
        TextError::Read(ReadError::Memory(_)) => true,
        TextError::Read(ReadError::Tokens(reason)) => *reason == TokenizeError::OutOfMemory,
        TextError::Rules { reason, .. } => matches!(reason, RulesError::Memory(_)),
        _ => false,
    }
}

/// The rules of a text.
pub(crate) fn rules(alloc: Global, text: &str) -> Result<Rules, TextError> {
    let names = KeywordNames {
        words: &NoKeywords,
        tokens: &TOKENS,
        nodes: &NODES,
        classes: &CLASSES,
        operators: TokenSet::EMPTY,
    };
    Rules::read(alloc, text, &names)
}

/// The line of a text's tree by rules. A refusal counts as want of memory.
pub(crate) fn line(alloc: Global, rules: &Rules, text: &str) -> Result<String, AllocError> {
    let Ok(tokens) = tokenize(alloc, text) else {
        return Err(AllocError);
    };
    let mut list = StepList::new(alloc);
    let entry = EntryPoint::SourceFile;
    match parse_whole_into(alloc, text, &tokens, &NoKeywords, rules, entry, &mut list) {
        Ok(_sent) => line_of(alloc, &NODES, list.steps()),
        Err(_refusal) => Err(AllocError),
    }
}

/// The error of rules in which a name stands for nothing, and the tree of rules without a fault.
#[test]
fn rules_are_made_or_want_memory(rt: HostRuntime) -> Result<(), Fail> {
    let alloc = rt.alloc();
    for _ in 0..2 {
        match rules(alloc, EXPRESSIONS) {
            Ok(rules) => {
                if let Ok(line) = line(alloc, &rules, "a+(b;") {
                    let wanted = "FILE{STATEMENT{SUM{NAME{a}+PAREN{(NAME{b!expected )!}}};}}";
                    assert_eq!(rt; line.as_str(), wanted);
                    return Ok(());
                }
            }
            Err(error) => assert!(rt; is_memory(&error)),
        }
    }
    Err(Fail::from("memory is wanting twice"))
}

#[test]
fn faults_are_told_or_want_memory(rt: HostRuntime) -> Result<(), Fail> {
    for _ in 0..2 {
        match rules(rt.alloc(), "file = IDENT\n    other ';'\n") {
            Ok(_rules) => return Err(Fail::from("rules with a fault")),
            Err(TextError::Rules { reason, at, .. }) if !matches!(reason, RulesError::Memory(_)) =>
                {
                    assert_eq!(rt; reason, RulesError::Undefined { part: 2 });
                    assert_eq!(rt; (at.line, at.column), (2, 5));
                    return Ok(());
                }
            Err(error) => assert!(rt; is_memory(&error)),
        }
    }
    Err(Fail::from("memory is wanting twice"))
}
