//! The parts of rules.
ghost use Rattle.std.specs.Prelude.{◌≡◌, ◌<◌};
ghost use Rattle.rule_grammar.specs.Derivations.{next_of, row_after};
ghost use Rattle.rule_grammar.specs.Parts.{part_of};

use squawk_kinds::SyntaxKind;

/// A part of a rule. What is in it stands in the rows after its own, up to row `end`.
#[derive(Clone, Copy, Debug, PartialEq, Eq)]
pub enum Part {
    /// Nothing: the row is none of the others.
    Nothing,
    /// A token of the kind, or the tokens of a composite one.
    Token { kind: SyntaxKind },
    /// An identifier whose contextual kind is in the set.
    Word { set: u16 },
    /// A token whose kind is in the set.
    Class { set: u16 },
    /// The same. It gets this kind.
    Name { kind: SyntaxKind, set: u16 },
    /// A node. It has this kind, unless a part in it says another.
    Node { end: u16, kind: SyntaxKind },
    /// The node around it has this kind.
    Becomes { kind: SyntaxKind },
    /// The node before has one of the kinds that are named in it.
    Is { end: u16 },
    /// The arm that it stands in is parsed only where a run of opening parentheses stands, then a token of the set
    /// `first`, and after each parenthesis that closes one of them, but the first of the run, one of the set `next`.
    Guard { first: u16, next: u16 },
    /// The arm that it stands in is parsed only where the tokens in it stand, one after another.
    Look { end: u16 },
    /// One of the arms in it.
    Choice { end: u16 },
    /// An arm of a choice, or an operand: a node.
    Arm { end: u16 },
    /// What is in it, or nothing.
    Optional { end: u16 },
    /// What is in it, any number of times.
    Repeat { end: u16 },
    /// What is in it, once or more, with separators.
    List { end: u16, separator: SyntaxKind },
    /// The rule in these rows.
    Call { start: u16, end: u16 },
    /// What is in it, once or more.
    Some { end: u16 },
    /// An operand, which is one of its arms, and operators after it, which are its tails.
    Operators { end: u16 },
    /// By a table of operators: an operand, and operators after it whose level is `floor` at least.
    Operand { operators: u16, floor: u16 },
    /// An operator with what stands on its right. The level of the operator after it is `ceiling` at most.
    Tail { end: u16, level: u16, ceiling: u16 },
}

/// The row after the part that these numbers of a row are, with all that is in it.
#[inline(always)]
pub(crate) fn beyond(numbers: &[u16; 8], row: u16) -> u16
    requires { row < 65535 }
    ensures later { row < result }
    ensures is { result ≡ next_of row (part_of numbers.now) }
{
    match numbers[0] % 256 {
        9 | 10 | 11 | 12 | 13 | 14 | 15 | 16 | 17 | 18 | 19 | 20 | 21 => { after(row, numbers[1]) }
        _ => row + 1,
    }
}

/// The row after one that ends there.
#[inline(always)]
fn after(row: u16, end: u16) -> u16
    requires { row < 65535 }
    ensures later { row < result }
    ensures is { result ≡ row_after row end }
{
    if row < end { end } else { row + 1 }
}

/// The part that a row is.
#[inline(always)]
pub(crate) fn part_of(row: &[u16; 8]) -> Part
    ensures { result ≡ part_of row.now }
{
    let end = row[1];
    let number = row[2];
    let kind = SyntaxKind(number);
    match row[0] % 256 {
        1 => Part::Token { kind },
        2 => Part::Word { set: number },
        3 => Part::Class { set: number },
        4 => Part::Name {
            kind: SyntaxKind(end),
            set: number,
        },
        5 => Part::Becomes { kind },
        6 => Part::Call { start: number, end },
        7 => Part::Operand {
            operators: end,
            floor: number,
        },
        8 => Part::Guard {
            first: end,
            next: number,
        },
        9 => Part::Node { end, kind },
        10 => Part::Choice { end },
        11 => Part::Arm { end },
        12 => Part::Optional { end },
        13 => Part::Repeat { end },
        14 => Part::Some { end },
        15 => Part::List {
            end,
            separator: kind,
        },
        16 => Part::Operators { end },
        // An operator that associates, one that doesn't, and one that nothing stands on the right of.
        17 => tail(end, number, number),
        18 => tail(end, number, number.saturating_sub(1)),
        19 => tail(end, number, u16::MAX),
        20 => Part::Is { end },
        21 => Part::Look { end },
        _ => Part::Nothing,
    }
}

#[inline(always)]
fn tail(end: u16, level: u16, ceiling: u16) -> Part
    ensures { result ≡ Part.Tail end level ceiling }
{
    Part::Tail {
        end,
        level,
        ceiling,
    }
}
