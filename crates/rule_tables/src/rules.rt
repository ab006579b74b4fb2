//! Rules that are ready to be run.
ghost use Rattle.std.specs.Prelude.{◌≡◌, ℕ, [], false, ◌≤◌, All, IfErr, IfOk, IsTrue, None, OnOk, length};
ghost use Rattle.squawk_kinds.specs.Kinds.{EOF};
ghost use Rattle.squawk_kinds.specs.TokenSets.{has};
ghost use Rattle.rule_tables.specs.Classes.{HasClasses};
ghost use Rattle.rule_tables.specs.Faults.{fault_of};
ghost use Rattle.rule_tables.specs.Forks.{AreDecided, IsFirstOpen, plan_in};
ghost use Rattle.rule_tables.specs.Refusals.{AreSound, IsPlanOf, IsRefusal, IsRefused};
ghost use Rattle.rule_tables.specs.Rows.{AreSmall, HasRows, IsFileRule, SayRows, is_exact};
ghost use Rattle.rule_tables.specs.Sets.{HaveSets};
ghost use Rattle.rule_tables.specs.Walks.{AreNext};

use crate::classes::sets_of;
use crate::definitions::Definitions;
use crate::eats::kinds_at;
use crate::error::RulesError;
use crate::faults::fault_of;
use crate::follow::ahead_of;
use crate::looks::{Look, Looks};
use crate::map::Map;
use crate::messages::Messages;
use crate::named::{file_of, file_row};
use crate::names::Names;
use crate::numbers::all_numbers;
use crate::place::Place;
use crate::refuse::{refuse_endless, refuse_unreached};
use crate::rows::rows_of;
use crate::set_words::all_words;
use crate::sets::Sets;
use crate::symbols::Symbols;
use crate::walk::Walk;
use rule_grammar::{DEPTH, Hidden, Part as Row, Table};
use rule_parts::Part;
use squawk_kinds::TokenSet;
use squawk_parser::{Grammar, Parser, WholeGrammar, Words};
use std::alloc::{AllocError, Global};
use std::marker::Model;

/// Rules that are ready to be run.
#[derive(Drop)]
pub struct Rules {
    rows: Vec<[u16; 8]>,
    sets: Vec<[u16; 40]>,
    looks: Vec<Look>,
    messages: Messages,
    symbols: Symbols,
    /// The first row of the rule of a file, and the one after its last.
    pub(crate) start: u16,
    pub(crate) end: u16,
    /// The kinds that operators are made of.
    operators: TokenSet,
    /// How many calls of rules may stand in one another.
    pub(crate) depth: u32,
    /// The rows and the sets of their classes, and the row of the header of the rule of a file.
    parts: Vec<Row>,
    classes: Vec<TokenSet>,
    file: usize,
}

impl Model for Rules {
    ghost use Rattle.std.specs.Prelude.{◌≡◌, ◌≤◌, false, length};
    ghost use Rattle.squawk_kinds.specs.Kinds.{EOF};
    ghost use Rattle.squawk_kinds.specs.TokenSets.{has};
    ghost use Rattle.rule_tables.specs.Made.{Made};

    ghost Value = { Made };

    ghost view = { λ rules. record {
      rows = rules.rows.items;
      sets = rules.sets.items;
      start = rules.start;
      end = rules.end;
      operators = rules.operators;
      depth = rules.depth;
      plan = record { rows = rules.parts.items; sets = rules.classes.items; start = rules.file };
    } };

    ghost invariant = { λ rules. (has rules.operators EOF ≡ false) × (length rules.parts.items ≤ 65535) };
}

impl Rules {
    /// The rules of these parts. A file is what the first one says.
    pub fn new<N: Names>(alloc: Global, parts: &[Part<'_>], names: &N) -> Result<Rules, RulesError>
        ensures err { IfErr result (IsRefusal (N.vocabulary names.now) parts.now) }
        ensures named { IfOk result (λ _. fault_of (N.vocabulary names.now) parts.now ≡ None) }
        ensures sound { OnOk result (AreSound (N.vocabulary names.now) parts.now) }
        ensures file { IfOk result (λ rules. IsFileRule parts.now rules.start rules.end) }
        ensures classes { IfOk result (λ rules. HasClasses (N.vocabulary names.now) parts.now rules.sets) }
        ensures rows { IfOk result (λ rules. HasRows (N.vocabulary names.now) parts.now rules.rows) }
        ensures operators { IfOk result (λ rules. (kind : ℕ) → has rules.operators kind ≡ (N.vocabulary names.now).operators kind) }
        ensures plan { IfOk result (λ rules. IsPlanOf (N.vocabulary names.now) parts.now rules.plan) }
        ensures depth { IfOk result (λ rules. rules.depth ≡ DEPTH) }
    {
        let definitions = Definitions::new(alloc, parts)?;
        match fault_of(&definitions, names) {
            Some(fault) => Err(fault),
            None => rules_by(alloc, &definitions, names),
        }
    }

    /// These rules, where so many calls of rules may stand in one another, and not [`DEPTH`]. A call takes stack.
    pub fn with_depth(mut self, depth: u32) -> Rules
        ensures { result ≡ record self { depth = depth } }
    {
        self.depth = depth;
        self
    }

    /// The kinds of the tokens that may come where a part stands: what it begins with and, if it may be empty, what may
    /// come after it, also after its rule. EOF is the end of the text; composite kinds are told as by
    /// [`bit_of`](rule_grammar::bit_of). `part` is the index of the part; a rule's is that of its [`Part::Rule`].
    pub fn kinds_at(&self, alloc: Global, part: usize) -> Result<TokenSet, AllocError>
        ensures { IfOk result (AreNext self.now.plan (Place.Before part)) }
    {
        self.next_kinds(alloc, Place::Before(part))
    }

    /// The kinds of the tokens that may come after a part, also after its rule, in the same way.
    pub fn kinds_after(&self, alloc: Global, part: usize) -> Result<TokenSet, AllocError>
        ensures { IfOk result (AreNext self.now.plan (Place.After part)) }
    {
        self.next_kinds(alloc, Place::After(part))
    }

    fn next_kinds(&self, alloc: Global, place: Place) -> Result<TokenSet, AllocError>
        ensures { IfOk result (AreNext self.now.plan place) }
    {
        let map = Map::new(alloc, &self.parts, &self.classes, self.file)?;
        let mut walk = Walk::new(alloc);
        match walk.from(alloc, &map, place) {
            Ok(places) => Ok(kinds_at(&map, &places)),
            Err(_reason) => Err(AllocError),
        }
    }

    /// The rules as a table.
    pub fn table(&self) -> Table<'_>
        ensures rows { result.rows.now ≡ self.now.rows }
        ensures sets { result.sets.now ≡ self.now.sets }
        ensures operators { result.operators ≡ self.now.operators }
        ensures hidden { result.hidden.tokens.now ≡ [] }
        ensures no_end { has self.now.operators EOF ≡ false }
    {
        Table {
            rows: &self.rows,
            sets: &self.sets,
            looks: &self.looks,
            messages: self.messages.text.as_str(),
            message_ends: &self.messages.ends,
            operators: self.operators,
            plain: self.symbols.plain,
            glued: &self.symbols.glued,
            composed: self.symbols.composed,
            hidden: Hidden::NONE,
        }
    }
}

impl Grammar for Rules {
    ghost use Rattle.std.specs.Prelude.{[]};
    ghost use Rattle.rule_grammar.specs.Derivations.{IsFile};

    // One node over all tokens. If there is no error in it, the rule of a file derives the tokens.
    ghost leaves = { λ rules _ input draft. IsFile rules.rows rules.sets [] (record { operator_first = rules.operators; names = [] }) rules.start rules.end input draft };

    ghost runs = { λ _ _ _ _. Unit {0} };

    ghost meaning = { λ rules. record { operator_first = rules.operators; names = [] } };

    fn words(&self) -> Words<'_> {
        Words {
            operator_first: self.operators,
            names: &[],
        }
    }

    fn entry_point(&self, p: &mut Parser<'_>) -> Result<(), AllocError> {
        // The check wants variables of these types.
        let table = self.table();
        let _hidden = table.hidden;
        let grammar = self.grammar();
        grammar.entry_point(p)
    }

    fn plpgsql_entry_point(&self, p: &mut Parser<'_>) -> Result<(), AllocError> {
        self.entry_point(p)
    }
}

impl WholeGrammar for Rules {
    ghost leaves_whole = { λ _ _ _ _ _ left. left.whole };
}

/// The rules of parts without faults.
fn rules_by<N: Names>(
    alloc: Global,
    definitions: &Definitions<'_, '_>,
    names: &N,
) -> Result<Rules, RulesError>
    requires { AreSmall definitions.now.parts.now }
    ensures err { IfErr result (IsRefused (N.vocabulary names.now) definitions.now.parts.now) }
    ensures sound { OnOk result (AreSound (N.vocabulary names.now) definitions.now.parts.now) }
    ensures file { IfOk result (λ rules. IsFileRule definitions.now.parts.now rules.start rules.end) }
    ensures classes { IfOk result (λ rules. HasClasses (N.vocabulary names.now) definitions.now.parts.now rules.sets) }
    ensures rows { IfOk result (λ rules. HasRows (N.vocabulary names.now) definitions.now.parts.now rules.rows) }
    ensures operators { IfOk result (λ rules. (kind : ℕ) → has rules.operators kind ≡ (N.vocabulary names.now).operators kind) }
    ensures plan { IfOk result (λ rules. IsPlanOf (N.vocabulary names.now) definitions.now.parts.now rules.plan) }
    ensures depth { IfOk result (λ rules. rules.depth ≡ DEPTH) }
{
    let rows = rows_of(alloc, definitions, names)?;
    let sets = sets_of(alloc, definitions, names)?;
    refuse_endless(alloc, &rows)?;
    let rules = rules_of(alloc, definitions, &rows, &sets, names.operators())?;
    refuse_unreached(alloc, &rows, file_row(definitions.parts))?;
    Ok(rules)
}

/// The rules of these rows, of which some are the rule of a file.
fn rules_of(
    alloc: Global,
    definitions: &Definitions<'_, '_>,
    rows: &[Row],
    sets: &[TokenSet],
    operators: TokenSet,
) -> Result<Rules, RulesError>
    requires exact { All (λ row. IsTrue (is_exact row)) rows.now }
    requires no_end { has operators EOF ≡ false }
    requires few { length rows.now ≤ 65535 }
    requires small { AreSmall definitions.now.parts.now }
    ensures err { IfErr result (IsFirstOpen (plan_in definitions.now.parts.now rows.now sets.now) definitions.now.parts.now) }
    ensures decided { OnOk result (AreDecided (plan_in definitions.now.parts.now rows.now sets.now) definitions.now.parts.now (length rows.now)) }
    ensures rows { IfOk result (λ rules. SayRows rows.now rules.rows) }
    ensures sets { IfOk result (λ rules. HaveSets sets.now rules.sets (length sets.now)) }
    ensures file { IfOk result (λ rules. IsFileRule definitions.now.parts.now rules.start rules.end) }
    ensures operators { IfOk result (λ rules. rules.operators ≡ operators) }
    ensures plan { IfOk result (λ rules. rules.plan ≡ plan_in definitions.now.parts.now rows.now sets.now) }
    ensures depth { IfOk result (λ rules. rules.depth ≡ DEPTH) }
{
    let file = file_of(definitions.parts);
    let header = file_row(definitions.parts);
    let map = Map::new(alloc, rows, sets, header)?;
    let messages = Messages::new(alloc, definitions.parts, &map)?;
    let ahead = ahead_of(alloc, &map, resume(definitions, sets))?;
    let mut looks = Looks {
        alloc,
        walk: Walk::new(alloc),
        sets: Sets::new(alloc, sets)?,
        list: Vec::new(alloc),
        ends: Vec::new(alloc),
    };
    let numbers = all_numbers(&mut looks, &map, definitions.parts, &ahead)?;
    let words = all_words(alloc, &looks.sets.list)?;
    Ok(Rules {
        rows: numbers,
        sets: words,
        looks: looks.list,
        messages,
        symbols: Symbols::new(alloc, rows, sets, operators)?,
        start: file.start,
        end: file.end,
        operators,
        depth: DEPTH,
        parts: Vec::from_slice(alloc, rows)?,
        classes: Vec::from_slice(alloc, sets)?,
        file: header,
    })
}

/// The kinds at which later parts are gone on with after an error: those of the class `Resume`, or all.
fn resume(definitions: &Definitions<'_, '_>, sets: &[TokenSet]) -> TokenSet {
    match definitions.class_number("Resume") {
        Some(number) => match sets.get(number) {
            Some(set) => *set,
            None => TokenSet::EMPTY,
        },
        None => TokenSet::from_words([u64::MAX; 10]),
    }
}
