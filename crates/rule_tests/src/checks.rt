//! Rules with faults, as rows. A rule's first row is its arm; a call names the row after that.
use rule_checks::{empty_repeat, left_recursive, unreached};
use rule_grammar::Part as Row;
use squawk_kinds::SyntaxKind;
use std::test::Fail;

const KIND: SyntaxKind = SyntaxKind(1);

/// A token.
const EATS: Row = Row::Token { kind: KIND };

const fn arm(end: u16) -> Row {
    Row::Arm { end }
}

const fn call(start: u16, end: u16) -> Row {
    Row::Call { start, end }
}

const fn maybe(end: u16) -> Row {
    Row::Optional { end }
}

const fn operators(end: u16) -> Row {
    Row::Operators { end }
}

const fn operand(operators: u16) -> Row {
    Row::Operand {
        operators,
        floor: 0,
    }
}

const fn tail(end: u16) -> Row {
    Row::Tail {
        end,
        level: 1,
        ceiling: 1,
    }
}

#[test]
fn finds_empty_repeats(rt: HostRuntime) -> Result<(), Fail> {
    let many = Row::Repeat { end: 3 };
    assert_eq!(rt; empty_repeat(rt.alloc(), &[arm(3), many, EATS])?, None);
    // What is optional may be empty,
    let many = Row::Repeat { end: 4 };
    assert_eq!(rt;
        empty_repeat(rt.alloc(), &[arm(4), many, maybe(4), EATS])?,
        Some(1)
    );
    // and so may a rule that only names its node,
    let some = Row::Some { end: 3 };
    let becomes = Row::Becomes { kind: KIND };
    let rows = [arm(3), some, call(4, 5), arm(5), becomes];
    assert_eq!(rt; empty_repeat(rt.alloc(), &rows)?, Some(1));
    // and a choice of which an arm may be.
    let list = Row::List {
        end: 7,
        separator: KIND,
    };
    let choice = Row::Choice { end: 7 };
    let rows = [arm(7), list, choice, arm(5), EATS, arm(7), maybe(7)];
    assert_eq!(rt; empty_repeat(rt.alloc(), &rows)?, Some(1));
    // A rule that does nothing but call itself derives nothing, not even the empty text.
    let rows = [arm(3), some, call(1, 3)];
    assert_eq!(rt; empty_repeat(rt.alloc(), &rows)?, None);
    Ok(())
}

#[test]
fn finds_left_recursion(rt: HostRuntime) -> Result<(), Fail> {
    assert_eq!(rt;
        left_recursive(rt.alloc(), &[arm(3), call(1, 3), EATS])?,
        Some(1)
    );
    assert_eq!(rt;
        left_recursive(rt.alloc(), &[arm(3), EATS, call(1, 3)])?,
        None
    );
    // What stands before the call may be empty.
    let rows = [arm(5), maybe(3), EATS, call(1, 5), EATS];
    assert_eq!(rt; left_recursive(rt.alloc(), &rows)?, Some(3));
    // Two rules begin with one another.
    let rows = [arm(2), call(3, 4), arm(4), call(1, 2)];
    assert_eq!(rt; left_recursive(rt.alloc(), &rows)?, Some(1));
    // An operand begins with an operand.
    let rows = [arm(4), operators(4), arm(4), operand(1)];
    assert_eq!(rt; left_recursive(rt.alloc(), &rows)?, Some(3));
    // An operator stands after an operand, which eats,
    let rows = [arm(6), operators(6), arm(4), EATS, tail(6), operand(1)];
    assert_eq!(rt; left_recursive(rt.alloc(), &rows)?, None);
    // or may be empty.
    let rows = [
        arm(7),
        operators(7),
        arm(5),
        maybe(5),
        EATS,
        tail(7),
        operand(1),
    ];
    assert_eq!(rt; left_recursive(rt.alloc(), &rows)?, Some(6));
    Ok(())
}

#[test]
fn finds_unreached_rules(rt: HostRuntime) -> Result<(), Fail> {
    // The first rule calls the second, the third the fourth.
    let rows = [
        arm(2),
        call(3, 4),
        arm(4),
        EATS,
        arm(6),
        call(7, 8),
        arm(8),
        EATS,
    ];
    assert_eq!(rt; unreached(rt.alloc(), &rows, 0)?, Some(4));
    assert_eq!(rt; unreached(rt.alloc(), &rows, 4)?, Some(0));
    // The third calls the second, and the first none.
    let rows = [arm(2), EATS, arm(4), EATS, arm(6), call(3, 4)];
    assert_eq!(rt; unreached(rt.alloc(), &rows, 0)?, Some(2));
    // The first calls the second, which calls the third.
    let rows = [arm(2), call(3, 4), arm(4), call(5, 6), arm(6), EATS];
    assert_eq!(rt; unreached(rt.alloc(), &rows, 0)?, None);
    // An arm in a choice is no rule.
    let rows = [arm(4), Row::Choice { end: 4 }, arm(4), EATS];
    assert_eq!(rt; unreached(rt.alloc(), &rows, 0)?, None);
    Ok(())
}
