//! The program's arguments.
ghost use Rattle.std.specs.Prelude.{◌≡◌, [], ◌∷◌, Some, false, map, IfOk};
ghost use Rattle.clap.specs.Facts.{args_of};
ghost use Rattle.clap.specs.Matches.{found_of};
ghost use Rattle.clap.specs.Walk.{rule_of, rules_of};
ghost use Rattle.sql_tree.specs.Options.{IsAsked, argument_of, arguments, excluded, file_argument, file_help, flag_argument, flags, help_of, others, row_of};

use clap::{Arg, ArgAction, ArgMatches, Command};
use std::alloc::{AllocError, Global};

/// What goes to the standard output.
#[derive(Clone, Copy, Debug, PartialEq, Eq)]
pub enum Listing {
    /// The tree as indented text.
    Tree,
    /// A line for each statement.
    Statements,
    /// A line of JSON for each statement, with its tree.
    Json,
    /// A line for each raw token.
    Tokens,
    /// Nothing.
    Quiet,
}

/// A flag, and what goes to the standard output with it.
struct Flag {
    name: &'static str,
    help: &'static str,
    listing: Listing,
}

/// The flags, of which one may be used.
static FLAGS: [Flag; 4] = [
    Flag {
        name: "statements",
        help: "Print a line for each statement",
        listing: Listing::Statements,
    },
    Flag {
        name: "json",
        help: "Print a line of JSON for each statement, with its tree",
        listing: Listing::Json,
    },
    Flag {
        name: "tokens",
        help: "Print a line for each raw token",
        listing: Listing::Tokens,
    },
    Flag {
        name: "quiet",
        help: "Print errors alone",
        listing: Listing::Quiet,
    },
];

/// The flags in order.
fn flags() -> &'static [Flag]
    ensures { map row_of result.now ≡ flags }
{
    &FLAGS
}

/// What the argument with the files is called.
pub const FILE: &str = "FILE";

/// What the arguments may be.
pub fn command<'a>(alloc: Global) -> Result<Command<'a>, AllocError>
    ensures arguments { IfOk result (λ command. map argument_of (rules_of command) ≡ arguments) }
    // A flag rules out the others.
    ensures excludes { IfOk result (λ command. map excluded (args_of command) ≡ [] ∷ map (λ flag. others flag.name) flags) }
{
    let mut command = Command::new(alloc, "sql_tree")
        .version("0.2.0")
        .about("Prints the lossless tree of SQL, statement by statement, with its errors")
        .arg(files(alloc))?;
    for flag in flags() {
        command = command.arg(argument(alloc, flag)?)?;
    }
    Ok(command)
}

/// The argument with the files.
fn files<'a>(alloc: Global) -> Arg<'a>
    ensures argument { argument_of (rule_of result) ≡ file_argument }
    ensures help { help_of result ≡ Some file_help }
    ensures local { result.global ≡ false }
    ensures excludes { excluded result ≡ [] }
{
    Arg::new(alloc, FILE)
        .action(ArgAction::Append)
        .num_args(0..)
        .help("SQL files (UTF-8); standard input if none is given")
}

/// The argument of a flag, which rules out the other flags.
fn argument<'a>(alloc: Global, flag: &Flag) -> Result<Arg<'a>, AllocError>
    ensures argument { IfOk result (λ arg. argument_of (rule_of arg) ≡ flag_argument (row_of flag.now)) }
    ensures help { IfOk result (λ arg. help_of arg ≡ Some flag.now.help.now) }
    ensures local { IfOk result (λ arg. arg.global ≡ false) }
    ensures excludes { IfOk result (λ arg. excluded arg ≡ others flag.now.name.now) }
{
    let mut arg = Arg::new(alloc, flag.name)
        .long(flag.name)
        .action(ArgAction::SetTrue)
        .help(flag.help);
    for other in flags() {
        if other.name != flag.name {
            arg = arg.conflicts_with(other.name)?;
        }
    }
    Ok(arg)
}

/// What the arguments say is to be printed.
pub fn asked_listing(matches: &ArgMatches<'_>) -> Listing
    ensures { IsAsked (found_of matches.now) flags result }
{
    for flag in flags() {
        if matches.get_flag(flag.name) {
            return flag.listing;
        }
    }
    Listing::Tree
}
