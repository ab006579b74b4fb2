//! An event-parser engine for SQL grammars.
//!
//! A grammar is an `impl` of [`Grammar`]: it looks at the tokens ahead, starts nodes, eats tokens and
//! completes nodes. [`parse_into`] goes from a text and its raw tokens to a [`StepSink`]. Its stages are
//! [`LexedStr::new`], [`LexedStr::to_input`], [`EntryPoint::parse`], [`Output::stands_in_one_root`] and
//! [`LexedStr::intersperse_trivia`]; [`LexedStr::str_steps`] returns the same step by step. A grammar
//! of names:
//!
//! ```rust
//! ghost use Rattle.std.specs.Prelude.{◌<◌, ◌≢◌};
//! ghost use Rattle.squawk_kinds.specs.Kinds.{EOF};
//! ghost use Rattle.squawk_parser.specs.SomeSteps.{AddsSome, Spends};
//! ghost use Rattle.squawk_parser.specs.State.{kind_at};
//!
//! use squawk_parser::{
//!     EntryPoint, Grammar, NoKeywords, ParseWholeError, Parser, Sent, StepList, SyntaxKind, Token,
//!     TokenSet, WholeGrammar, Words, parse_whole_into,
//! };
//! use std::alloc::{AllocError, Global};
//!
//! const SOURCE_FILE: SyntaxKind = SyntaxKind(710);
//!
//! const NAME_REF: SyntaxKind = SyntaxKind(702);
//!
//! /// A source file of names: each in a node of its own, and what is no name in an error node.
//! pub struct Names;
//!
//! impl Grammar for Names {
//!     ghost use Rattle.squawk_parser.specs.Whole.{IsWholeFile};
//!     ghost use Rattle.squawk_parser.specs.Words.{no_words};
//!
//!     // One node over all tokens.
//!     ghost leaves = { λ _ _ input draft. IsWholeFile input draft };
//!
//!     // At most four events a token, and two for that node.
//!     ghost runs = { λ _ _ begun left. Spends 4 2 begun left };
//!
//!     ghost meaning = { λ _. no_words };
//!
//!     #[tactic(auto, using(squawk_parser::specs::Words::no_words_has_no_end))]
//!     fn words(&self) -> Words<'_> {
//!         Words {
//!             operator_first: TokenSet::EMPTY,
//!             names: &[],
//!         }
//!     }
//!
//!     fn entry_point(&self, p: &mut Parser<'_>) -> Result<(), AllocError> {
//!         let file = p.start();
//!         while p.current() != SyntaxKind::EOF {
//!             name(p);
//!         }
//!         file.complete(p, SOURCE_FILE);
//!         Ok(())
//!     }
//!
//!     fn plpgsql_entry_point(&self, p: &mut Parser<'_>) -> Result<(), AllocError> {
//!         self.entry_point(p)
//!     }
//! }
//!
//! impl WholeGrammar for Names {
//!     ghost leaves_whole = { λ _ _ _ _ _ left. left };
//! }
//!
//! /// A name, or an error with the token that is none.
//! fn name(p: &mut Parser<'_>)
//!     requires { kind_at p.old 0 ≢ EOF }
//!     ensures adds { AddsSome p.old p.new }
//!     ensures spends { Spends 4 0 p.old p.new }
//!     ensures eats { p.old.position < p.new.position }
//! {
//!     if p.current() == SyntaxKind::IDENT {
//!         let node = p.start();
//!         p.bump_any();
//!         node.complete(p, NAME_REF);
//!     } else {
//!         p.err_and_bump("expected a name");
//!     }
//! }
//!
//! /// Sends the tree of a text with these raw tokens to a list of steps.
//! pub fn send(
//!     alloc: Global,
//!     text: &str,
//!     tokens: &[Token],
//!     sink: &mut StepList,
//! ) -> Result<Sent, ParseWholeError<AllocError>> {
//!     let entry = EntryPoint::SourceFile;
//!     parse_whole_into(alloc, text, tokens, &NoKeywords, &Names, entry, sink)
//! }
//! ```
//!
//! Of `one, two` the sink gets a SOURCE_FILE, and in it `one` in a NAME_REF, an error at byte 3 and the
//! comma in an [`SyntaxKind::ERROR`], the space, and `two` in a NAME_REF.
//!
//! The ghost members are your theorems about the grammar. `leaves` is about the result of a run; `runs` is
//! about every run, also one that fails: leave it trivial; `meaning` is `words` in the proof language. This
//! grammar always leaves one node over all tokens, so it is a [`WholeGrammar`]. [`parse_into`] takes any
//! grammar, checks at run time and may return `NoRoot`. If raw tokens are proved to be accepted, as a
//! lexer's may be, [`parse_accepted_into`] and [`parse_accepted_whole_into`] skip their check.
#![tactic(auto)]

pub mod parser;
pub mod pipeline;

pub use parser::{
    CompletedMarker, EntryPoint, Grammar, Limits, Marker, ParseError, Parser, Part, WholeGrammar,
    Words, has_tail,
};
pub use pipeline::errors::{ParseIntoError, ParseWholeError};
pub use pipeline::{
    Parsed, Sent, parse_accepted_into, parse_accepted_whole_into, parse_into, parse_whole_into,
};
pub use squawk_kinds::{
    KindNames, NoKeywords, SyntaxKind, TokenSet, Vocabulary, classes, is_col_name_keyword,
    is_reserved_keyword, is_type_func_name_keyword, no_keywords, syntax_kind, token_set,
    vocabulary, with_engine_names,
};
pub use squawk_output::{Event, EventList, Output, Step, Steps, Text, event, output, process};
pub use squawk_table::{
    Base, Input, LexError, LexErrors, LexedStr, LiteralKind, OwnedStep, StepList, StepSink,
    StrStep, StrSteps, TableBuilder, TableError, Token, TokenKind, check_tokens, input, lexed_str,
    shortcuts,
};
