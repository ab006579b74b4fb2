//! Why rules can't be run.
ghost use Rattle.std.specs.Prelude.{◌≡◌};
ghost use Rattle.rule_tables.specs.ErrorLines.{message_of};
ghost use Rattle.rule_tables.specs.Faults.{part_at_fault};

use std::alloc::AllocError;
use std::error::Error;
use std::fmt;

/// Why rules can't be run. `part` is the index of the part that is at fault.
#[derive(Debug, Drop, Clone, Copy, PartialEq, Eq)]
pub enum RulesError {
    /// No rule, class or guard that the part needs has the name in it.
    Undefined { part: usize },
    /// An earlier rule, class or guard has the name of the part, too.
    Doubled { part: usize },
    /// No token or node has the name of the part.
    UnknownKind { part: usize },
    /// The call or operand leads back to itself before a token is eaten.
    LeftRecursive { part: usize },
    /// What the part repeats, or an item of the list, may be empty.
    Empty { part: usize },
    /// Four tokens of these kinds fit two ways at the part. The kinds are told by their numbers; where a text may end
    /// before the fourth token, EOF stands after it.
    Undecided { part: usize, kinds: [u16; 4] },
    /// The rule isn't called from the first one, also through others.
    Unreached { part: usize },
    /// There are more than 65,000 parts, also by their sizes, a level above 65,000, or more than 65,535 sets or looks.
    TooMany,
    /// Memory ran out.
    Memory(AllocError),
}

impl RulesError {
    /// The part that is at fault; 0 if none is.
    pub fn part(&self) -> usize
        ensures { result ≡ part_at_fault self.now }
    {
        match self {
            RulesError::Undefined { part } | RulesError::Doubled { part } => *part,
            RulesError::UnknownKind { part } | RulesError::LeftRecursive { part } => *part,
            RulesError::Empty { part } | RulesError::Unreached { part } => *part,
            RulesError::Undecided { part, .. } => *part,
            RulesError::TooMany | RulesError::Memory(_) => 0,
        }
    }

    /// What is wrong, in a few words.
    pub fn message(&self) -> &'static str
        ensures { result.now ≡ message_of self.now }
    {
        match self {
            RulesError::Undefined { .. } => "no rule has this name",
            RulesError::Doubled { .. } => "two rules have this name",
            RulesError::UnknownKind { .. } => "no kind has this name",
            RulesError::LeftRecursive { .. } => "it calls itself first",
            RulesError::Empty { .. } => "what is repeated may be empty",
            RulesError::Undecided { .. } => "four tokens don't decide between two ways",
            RulesError::Unreached { .. } => "no rule leads to this one",
            RulesError::TooMany => "too many rules",
            RulesError::Memory(_) => "out of memory",
        }
    }
}

impl fmt::Display for RulesError {
    ghost use Rattle.std.specs.Prelude.{Some};
    ghost use Rattle.rule_tables.specs.ErrorLines.{rules_error_line};

    ghost output = { λ error. Some (rules_error_line error) };

    fn fmt<W: fmt::Write>(&self, f: &mut fmt::Formatter<W>) -> fmt::Result {
        match self {
            RulesError::TooMany | RulesError::Memory(_) => write!(f, "{}", self.message()),
            _ => write!(f, "part {}: {}", self.part(), self.message()),
        }
    }
}

impl Error for RulesError {}

impl From<AllocError> for RulesError {
    ghost use Rattle.rule_tables.specs.declared.error.RulesError.TheVariants.{Memory};

    ghost from_gives = { λ reason error. error ≡ Memory reason };

    fn from(reason: AllocError) -> RulesError {
        RulesError::Memory(reason)
    }
}
