//! Texts of rules, and the parts or the errors that they give.

use rule_parts::Part;
use rule_text::{NESTED, read};
use std::alloc::{AllocError, Global};
use std::fmt::Write;
use std::test::Fail;

/// Parts with their names and sizes.
fn line_of(alloc: Global, parts: &[Part<'_>]) -> Result<String, Fail> {
    let mut line = String::new(alloc);
    for part in parts {
        show(&mut line, part)?;
        write!(line, "; ")?;
    }
    Ok(line)
}

fn show(line: &mut String, part: &Part<'_>) -> Result<(), AllocError> {
    match part {
        Part::Set { name, size } => write!(line, "Set {} {size}", name.text),
        Part::Words { name, size } => write!(line, "Words {} {size}", name.text),
        Part::Guard { name, first, next } => {
            write!(line, "Guard {} {} {}", name.text, first.text, next.text)
        }
        Part::Without => write!(line, "Without"),
        Part::Rule {
            name,
            message,
            size,
        } => write!(line, "Rule {} ({}) {size}", name.text, message.text),
        Part::Token { name } => write!(line, "Token {}", name.text),
        Part::Class { name } => write!(line, "Class {}", name.text),
        Part::Call { name } => write!(line, "Call {}", name.text),
        Part::Becomes { name } => write!(line, "Becomes {}", name.text),
        Part::Guarded { name } => write!(line, "Guarded {}", name.text),
        Part::Kind { name } => write!(line, "Kind {}", name.text),
        Part::List { size, separator } => write!(line, "List {size} ({})", separator.text),
        _ => write!(line, "{part:?}"),
    }
}

/// What a text gives: its parts, or the error.
fn shown(alloc: Global, text: &str) -> Result<String, Fail> {
    match read(alloc, text) {
        Ok(parts) => line_of(alloc, &parts),
        Err(error) => Ok(format!(in alloc; "{error}")?),
    }
}

/// Texts, and their parts.
#[rattlefmt::skip]
static RULES: [(&str, &str); 29] = [
    ("", ""),
    ("name = IDENT\n", "Rule name (name) 1; Token IDENT; "),
    ("name \"a name\" = 'x'", "Rule name (a name) 1; Token x; "),
    // Members of classes: tokens, other classes, given ones, and what is taken away.
    (
        "class ColId = IDENT Other unreserved -SET -'x'\n",
        "Set ColId 7; Token IDENT; Class Other; Call unreserved; Without; Token SET; Without; Token x; ",
    ),
    // A kind after the members, which are followed by nothing else of the class.
    ("class A1b = C -D => E\n", "Set A1b 4; Token C; Without; Token D; Becomes E; "),
    ("class Ab = => E\na = B", "Set Ab 1; Becomes E; Rule a (a) 1; Token B; "),
    // Classes of words, and guards. Elsewhere their first words are names as others.
    ("words Ab = one two\nwords Cd =", "Words Ab 2; Token one; Token two; Words Cd 0; "),
    ("guard query = (First) Next\na = B", "Guard query First Next; Rule a (a) 1; Token B; "),
    (
        "a = words guard class\nwords Ab = words guard class\n",
        "Rule a (a) 3; Call words; Call guard; Call class; Words Ab 3; Token words; Token guard; Token class; ",
    ),
    // Signs after a word or a group.
    (
        "a = B? c* D+\n",
        "Rule a (a) 6; Optional { size: 1, greedy: false }; Token B; Repeat { size: 1, greedy: false }; Call c; Some { size: 1, greedy: false }; Token D; ",
    ),
    (
        "a = B?+ c*+ D++ E+ +\n",
        "Rule a (a) 8; Optional { size: 1, greedy: true }; Token B; Repeat { size: 1, greedy: true }; Call c; \
         Some { size: 1, greedy: true }; Token D; Some { size: 1, greedy: true }; Token E; ",
    ),
    ("a = (B Cd)*\n", "Rule a (a) 3; Repeat { size: 2, greedy: false }; Token B; Class Cd; "),
    (
        "a = (B | c d | )? E\n",
        "Rule a (a) 9; Optional { size: 7, greedy: false }; Choice { size: 6, ordered: false }; Arm { size: 1 }; Token B; \
         Arm { size: 2 }; Call c; Call d; Arm { size: 0 }; Token E; ",
    ),
    // Ordered alternatives, in groups, lists and rules.
    (
        "a = (B / c d)? E\n",
        "Rule a (a) 8; Optional { size: 6, greedy: false }; Choice { size: 5, ordered: true }; Arm { size: 1 }; Token B; \
         Arm { size: 2 }; Call c; Call d; Token E; ",
    ),
    ("a = {b / C}\n", "Rule a (a) 6; List 5 (,); Choice { size: 4, ordered: true }; Arm { size: 1 }; Call b; Arm { size: 1 }; Token C; "),
    (
        "a = B => C / (d | E)\n",
        "Rule a (a) 11; Choice { size: 10, ordered: true }; Arm { size: 3 }; Node { size: 2 }; Token B; Becomes C; \
         Arm { size: 5 }; Choice { size: 4, ordered: false }; Arm { size: 1 }; Call d; Arm { size: 1 }; Token E; ",
    ),
    // Guards of alternatives, and kinds of the node before.
    (
        "a = @query B | (@query c | D)\n",
        "Rule a (a) 11; Choice { size: 10, ordered: false }; Arm { size: 2 }; Guarded query; Token B; Arm { size: 6 }; \
         Choice { size: 5, ordered: false }; Arm { size: 2 }; Guarded query; Call c; Arm { size: 1 }; Token D; ",
    ),
    // The node of an alternative stands after its guard or look.
    (
        "a = @query B => C | &(D Ab '<=') e => F | &(G) h\n",
        "Rule a (a) 18; Choice { size: 17, ordered: false }; Arm { size: 4 }; Guarded query; Node { size: 2 }; Token B; Becomes C; \
         Arm { size: 7 }; Look { size: 3 }; Token D; Class Ab; Token <=; Node { size: 2 }; Call e; Becomes F; \
         Arm { size: 3 }; Look { size: 1 }; Token G; Call h; ",
    ),
    ("a = b ~C ~(D) | ~(E | F)\n",
     "Rule a (a) 11; Choice { size: 10, ordered: false }; Arm { size: 5 }; Call b; Is { size: 1 }; Kind C; Is { size: 1 }; Kind D; \
      Arm { size: 3 }; Is { size: 2 }; Kind E; Kind F; "),
    ("a = ~B+", "Rule a (a) 3; Some { size: 2, greedy: false }; Is { size: 1 }; Kind B; "),
    // Lists: with commas, and with other separators.
    ("a = {b}\n", "Rule a (a) 2; List 1 (,); Call b; "),
    (
        "a = { b | C % 'OR' }\n",
        "Rule a (a) 6; List 5 (OR); Choice { size: 4, ordered: false }; Arm { size: 1 }; Call b; Arm { size: 1 }; Token C; ",
    ),
    // Alternatives of a rule that name the kind of a node are nodes, also where it stands in a group.
    ("a = B => C\n", "Rule a (a) 3; Node { size: 2 }; Token B; Becomes C; "),
    (
        "a = B | C (=> D)? |\n",
        "Rule a (a) 9; Choice { size: 8, ordered: false }; Arm { size: 1 }; Token B; Arm { size: 4 }; Node { size: 3 }; \
         Token C; Optional { size: 1, greedy: false }; Becomes D; Arm { size: 0 }; ",
    ),
    // Operators: levels go up, and operands on the right have the same level where it nests to the right.
    (
        "e = IDENT | '(' e ')' => PAREN\n  left _ '+' _ => SUM | _ '-' _ => SUM\n  none _ '<' _\n  right _ '^' _ | '-' _ => MINUS\n",
        "Rule e (e) 28; Operators { size: 27 }; Arm { size: 1 }; Token IDENT; Arm { size: 5 }; Node { size: 4 }; \
         Token (; Call e; Token ); Becomes PAREN; \
         Tail { level: 1, association: Left, size: 3 }; Token +; Operand { floor: 2 }; Becomes SUM; \
         Tail { level: 1, association: Left, size: 3 }; Token -; Operand { floor: 2 }; Becomes SUM; \
         Tail { level: 2, association: Neither, size: 2 }; Token <; Operand { floor: 3 }; \
         Tail { level: 3, association: Right, size: 2 }; Token ^; Operand { floor: 3 }; \
         Arm { size: 4 }; Node { size: 3 }; Token -; Operand { floor: 3 }; Becomes MINUS; ",
    ),
    // After one operand, and with an operand in a group.
    (
        "e = A left _ ('x' _)?\n",
        "Rule e (e) 7; Operators { size: 6 }; Arm { size: 1 }; Token A; \
         Tail { level: 1, association: Left, size: 3 }; Optional { size: 2, greedy: false }; Token x; Operand { floor: 2 }; ",
    ),
    // A rule ends where a name begins a line. Comments and white space stand anywhere.
    (
        "-- one\na = B\n  c /* two */ d\nb = C\nclass Ef = G",
        "Rule a (a) 3; Token B; Call c; Call d; Rule b (b) 1; Token C; Set Ef 1; Token G; ",
    ),
    // Any name may have digits and underscores.
    ("a_1 = _B C_2 dE\n", "Rule a_1 (a_1) 3; Token _B; Token C_2; Call dE; "),
    ("a =\n", "Rule a (a) 0; "),
];

#[test]
fn reads_rules(rt: HostRuntime) -> Result<(), Fail> {
    for (text, wanted) in &RULES {
        let line = shown(rt.alloc(), text)?;
        assert_eq!(rt; line.as_str(), *wanted, "{text}");
    }
    Ok(())
}

/// Texts that are no rules, and where the first word stands that is none of those that may.
#[rattlefmt::skip]
static ERRORS: [(&str, &str); 32] = [
    ("a = (B\n", "2:1: expected )"),
    ("a = {b\nc = D\n", "2:1: expected % or }"),
    ("a = {b % c}\n", "1:10: expected a separator"),
    ("a = => b\n", "1:8: expected a kind"),
    ("a = = b\n", "1:7: expected =>"),
    // Operands stand in operators alone.
    ("a = _\n", "1:5: expected a name or a bracket"),
    // One group has one kind of bars, and operands and operators have `|`.
    ("a = (b | c / d)\n", "1:12: expected )"),
    ("a = {b / c | d}\n", "1:12: expected % or }"),
    ("a = b | c / d\n", "1:11: expected a class or a rule, in front of a line"),
    ("a = b / c left _ D\n", "1:11: expected no operators after /"),
    ("a = b left _ D / E\n", "1:16: expected a class or a rule, in front of a line"),
    // A guard stands in front of an alternative.
    ("a = b @c\n", "1:7: expected a class or a rule, in front of a line"),
    ("a = @B\n", "1:6: expected the name of a guard"),
    // Of several alternatives.
    ("a = (@b C)\n", "1:10: expected | or /"),
    ("a = &(B) C\nd = E\n", "2:1: expected | or /"),
    // A look has tokens. Operators have neither.
    ("a = &B c\n", "1:6: expected ("),
    ("a = &() c\n", "1:7: expected a token"),
    ("a = &(B c) d\n", "1:9: expected a token or )"),
    ("a = b left _ @c D\n", "1:14: expected a class or a rule, in front of a line"),
    ("a = ~b\n", "1:6: expected the kind of a node"),
    ("a = ~(B c)\n", "1:9: expected | or )"),
    ("a = ~(B / C)\n", "1:9: expected | or )"),
    // Nothing comes after the kind of a class.
    ("class Ab = C => D E\n", "1:19: expected a class or a rule, in front of a line"),
    ("words Ab = c D\n", "1:14: expected a class or a rule, in front of a line"),
    ("guard a = First Next\n", "1:11: expected ("),
    ("a B\n", "1:3: expected ="),
    ("class Ab\n\n  CD\n", "3:3: expected ="),
    ("class = X\n", "1:7: expected the name of a class"),
    (" a = B\n", "1:2: expected a class or a rule, in front of a line"),
    ("a = B )\n", "1:7: expected a class or a rule, in front of a line"),
    ("a = ?\n", "1:5: expected a class or a rule, in front of a line"),
    ("a = B;\n", "1:6: expected a class or a rule, in front of a line"),
];

#[test]
fn tells_errors(rt: HostRuntime) -> Result<(), Fail> {
    for (text, wanted) in &ERRORS {
        let line = shown(rt.alloc(), text)?;
        assert_eq!(rt; line.as_str(), *wanted, "{text}");
    }
    Ok(())
}

/// A rule of so many parentheses.
fn nested(alloc: Global, depth: u32) -> Result<String, AllocError> {
    let mut text = String::from_str(alloc, "a = ")?;
    for _ in 0..depth {
        text.push('(')?;
    }
    text.push('B')?;
    for _ in 0..depth {
        text.push(')')?;
    }
    Ok(text)
}

#[test]
fn stops_at_the_depth(rt: HostRuntime) -> Result<(), Fail> {
    let most = nested(rt.alloc(), NESTED)?;
    let line = shown(rt.alloc(), most.as_str())?;
    assert_eq!(rt; line.as_str(), "Rule a (a) 1; Token B; ");
    let more = nested(rt.alloc(), NESTED + 1)?;
    let line = shown(rt.alloc(), more.as_str())?;
    assert_eq!(rt; line.as_str(), "1:105: nested too deep");
    Ok(())
}

/// Names know the byte that their word begins at, with its quotes.
#[test]
fn names_know_their_places(rt: HostRuntime) -> Result<(), Fail> {
    let parts = read(rt.alloc(), "a = B\nc \"m\" = 'D'\n")?;
    let mut line = String::new(rt.alloc());
    for part in &parts {
        match part {
            Part::Rule { name, message, .. } => write!(line, "{} {}; ", name.at, message.at)?,
            Part::Token { name } => write!(line, "{}; ", name.at)?,
            _ => write!(line, "?")?,
        }
    }
    assert_eq!(rt; line.as_str(), "0 0; 4; 6 8; 14; ");
    Ok(())
}
