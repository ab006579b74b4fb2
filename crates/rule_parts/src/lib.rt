//! What rules are made of: a flat list of parts, each in front of what is in it.
#![tactic(auto)]

/// A name, without quotes, and the byte of the text that its word begins at.
#[derive(Clone, Copy, Debug, PartialEq, Eq)]
pub struct Name<'t> {
    pub text: &'t str,
    pub at: usize,
}

/// A part of rules. What is in it stands after it: so many parts as its `size` says.
///
/// Names are those of rules, of classes of tokens, and of kinds of tokens and nodes.
#[derive(Clone, Copy, Debug, PartialEq, Eq)]
pub enum Part<'t> {
    /// A class of tokens: the union of the members in it. A token of one in which a kind is named gets that kind.
    Set {
        name: Name<'t>,
        size: usize,
    },
    /// A class of identifiers with certain texts, which are the tokens in it.
    Words {
        name: Name<'t>,
        size: usize,
    },
    /// A guard: after a run of opening parentheses comes a token of the class `first`, and after each parenthesis that
    /// closes one of them, but the first of the run, comes one of the class `next`.
    Guard {
        name: Name<'t>,
        first: Name<'t>,
        next: Name<'t>,
    },
    /// A member of a class: the kinds of the member after it are taken away.
    Without,
    /// A rule, and what errors call it: its name if the text says nothing else.
    Rule {
        name: Name<'t>,
        message: Name<'t>,
        size: usize,
    },
    /// A token of the kind with this name or spelling.
    Token {
        name: Name<'t>,
    },
    /// A token of the class.
    Class {
        name: Name<'t>,
    },
    /// What the rule says; in a class the kinds of one that the caller gives.
    Call {
        name: Name<'t>,
    },
    /// A node around what is in it. Its kind is the last one that is named in it.
    Node {
        size: usize,
    },
    /// The kind of the node around it.
    Becomes {
        name: Name<'t>,
    },
    /// The alternative that it stands in is parsed only where the guard holds.
    Guarded {
        name: Name<'t>,
    },
    /// The alternative that it stands in is parsed only where the tokens in it stand, one after another.
    Look {
        size: usize,
    },
    /// The node before it has one of the kinds in it.
    Is {
        size: usize,
    },
    /// A kind of node.
    Kind {
        name: Name<'t>,
    },
    /// One of the arms in it. Where tokens don't decide, it is the first that fits if they are ordered.
    Choice {
        size: usize,
        ordered: bool,
    },
    /// An arm of a choice, an operand or a prefix operator.
    Arm {
        size: usize,
    },
    /// What is in it, or nothing. Where tokens don't decide, it is parsed if it is greedy; so are the next two.
    Optional {
        size: usize,
        greedy: bool,
    },
    /// What is in it, any number of times.
    Repeat {
        size: usize,
        greedy: bool,
    },
    /// What is in it, once or more.
    Some {
        size: usize,
        greedy: bool,
    },
    /// What is in it, once or more, with separators: tokens of the kind with this name or spelling.
    List {
        size: usize,
        separator: Name<'t>,
    },
    /// Operands, which are arms, and operators after them.
    Operators {
        size: usize,
    },
    /// An operator that stands after its first operand.
    Tail {
        level: usize,
        association: Association,
        size: usize,
    },
    /// An operand of an operator: operators in it have this level at least.
    Operand {
        floor: usize,
    },
}

/// Which operators of the same level may stand beside one another without parentheses.
#[derive(Clone, Copy, Debug, PartialEq, Eq)]
pub enum Association {
    /// They nest to the left.
    Left,
    /// They nest to the right.
    Right,
    /// None.
    Neither,
}
