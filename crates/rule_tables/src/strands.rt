//! What decides between several ways: the tokens that come.
ghost use Rattle.std.specs.Prelude.{◌≡◌, ℕ, ◌-◌, ◌<◌, ◌≤◌, ◌&&◌, ◌⊎◌, All, IfErr, IfOk, OnOk, ◌∷◌, length, true, false};
ghost use Rattle.squawk_kinds.specs.TokenSets.{has};
ghost use Rattle.rule_tables.specs.Limits.{IsLimit};
ghost use Rattle.rule_tables.specs.Places.{SeesFrom, does_eat};
ghost use Rattle.rule_tables.specs.Sets.{Extends};
ghost use Rattle.rule_tables.specs.Settled.{settles};
ghost use Rattle.rule_tables.specs.Strands.{AddsStrand, AreAlikeOn, AreDecidedAfter, AreDecidedBy, AreListed, AreStrands, IsFound, IsOpenAfter, IsStrand, IsToldBy, IsUpTo, SeesOn, Tells};
ghost use Rattle.rule_tables.specs.Walks.{plan_of};

use crate::eats::kinds_at;
use crate::error::RulesError;
use crate::groups::groups;
use crate::looks::Looks;
use crate::map::Map;
use crate::place::Place;
use crate::sets::{both, first_of, is_empty, push, without};
use crate::settled::is_settled;
use crate::trail::Trail;
use rule_parts::Part;
use squawk_kinds::{SyntaxKind, TokenSet};

/// A way that may be gone, and what is eaten next on it.
#[derive(Drop)]
pub(crate) struct Strand {
    pub(crate) row: usize,
    pub(crate) kinds: TokenSet,
    pub(crate) places: Vec<Place>,
}

/// A row that four tokens don't decide, and the numbers of their kinds.
#[derive(Clone, Copy)]
pub(crate) struct Open {
    pub(crate) row: usize,
    pub(crate) kinds: [u16; 4],
}

/// What strands have, those of later rows first.
#[derive(Clone, Copy)]
pub(crate) struct Found {
    pub(crate) later: TokenSet,
    /// The kinds that don't decide.
    pub(crate) shared: TokenSet,
    /// The last strand that is undecided.
    pub(crate) undecided: Option<Open>,
}

impl Looks {
    /// Adds the looks at more tokens after some that came. Returns the first row that is undecided.
    #[cycle(decide)]
    pub(crate) fn decide(
        &mut self,
        parts: &[Part<'_>],
        map: &Map<'_>,
        strands: &[Strand],
        trail: &Trail,
    ) -> Result<Option<Open>, RulesError>
        requires depth { trail.now.depth < 4 }
        requires strands { AreStrands (plan_of map.now) strands.now }
        ensures err { IfErr result IsLimit }
        ensures ok { IfOk result (AreDecidedBy (plan_of map.now) parts.now (SeesOn (plan_of map.now) strands.now) (4 - trail.now.depth)) }
        ensures told { IfOk result (IsToldBy (plan_of map.now) parts.now (SeesOn (plan_of map.now) strands.now) trail.now) }
        ensures keeps { OnOk result (Extends self.old.sets.list.items self.new.sets.list.items) }
    {
        if strands.len() < 2 {
            return Ok(None);
        }
        let found = self.tell_all(parts, map, strands, trail)?;
        if trail.depth + 1 >= 4 {
            return Ok(found.undecided);
        }
        let groups = groups(self.alloc, map, strands, found.shared)?;
        let mut undecided: Option<Open> = None;
        for group in &groups {
            let other = self.decide_group(parts, map, strands, trail, *group)?;
            undecided = first_open(undecided, other);
        }
        Ok(undecided)
    }

    /// The same, where the next token is in a set of kinds that are eaten at the same places.
    #[cycle(decide)]
    fn decide_group(
        &mut self,
        parts: &[Part<'_>],
        map: &Map<'_>,
        strands: &[Strand],
        trail: &Trail,
        group: TokenSet,
    ) -> Result<Option<Open>, RulesError>
        requires depth { trail.now.depth < 3 }
        requires strands { AreStrands (plan_of map.now) strands.now }
        requires alike { AreAlikeOn (plan_of map.now) strands.now group }
        ensures err { IfErr result IsLimit }
        ensures ok { IfOk result (AreDecidedAfter (plan_of map.now) parts.now strands.now (3 - trail.now.depth) group) }
        ensures told { IfOk result (IsToldBy (plan_of map.now) parts.now (SeesOn (plan_of map.now) strands.now) trail.now) }
        ensures keeps { OnOk result (Extends self.old.sets.list.items self.new.sets.list.items) }
    {
        let Some(kind) = first_of(group) else {
            return Ok(None);
        };
        let set = self.sets.number(group)?;
        let after = self.after(map, strands, kind)?;
        self.decide(parts, map, &after, &trail.then(set, kind))
    }

    /// The strands that eat a token of the kind, after it.
    fn after(
        &mut self,
        map: &Map<'_>,
        strands: &[Strand],
        kind: SyntaxKind,
    ) -> Result<Vec<Strand>, RulesError>
        requires { AreStrands (plan_of map.now) strands.now }
        ensures err { IfErr result IsLimit }
        ensures ok { IfOk result (λ after. AreListed (plan_of map.now) (λ row word. SeesOn (plan_of map.now) strands.now row (kind ∷ word)) after.items) }
        ensures keeps { OnOk result (Extends self.old.sets.list.items self.new.sets.list.items) }
    {
        let mut after = Vec::new(self.alloc);
        for strand in strands {
            self.push_after(map, strand, kind, &mut after)?;
        }
        Ok(after)
    }

    fn push_after(
        &mut self,
        map: &Map<'_>,
        strand: &Strand,
        kind: SyntaxKind,
        after: &mut Vec<Strand>,
    ) -> Result<(), RulesError>
        requires { IsStrand (plan_of map.now) strand.now }
        ensures err { IfErr result IsLimit }
        ensures ok { OnOk result (AddsStrand (plan_of map.now) (has strand.now.kinds kind) (λ word. SeesFrom (plan_of map.now) strand.now.places.items (kind ∷ word)) strand.now.row after.old.items after.new.items) }
        ensures keeps { OnOk result (Extends self.old.sets.list.items self.new.sets.list.items) }
    {
        if strand.kinds.contains(kind) {
            let places = self.walk.over(self.alloc, map, &strand.places, kind)?;
            push(after, strand_of(map, strand.row, places))?;
        }
        Ok(())
    }

    /// Adds the looks of the strands at one token more.
    fn tell_all(
        &mut self,
        parts: &[Part<'_>],
        map: &Map<'_>,
        strands: &[Strand],
        trail: &Trail,
    ) -> Result<Found, RulesError>
        requires depth { trail.now.depth < 4 }
        requires strands { AreStrands (plan_of map.now) strands.now }
        ensures err { IfErr result IsLimit }
        ensures ok { IfOk result (IsFound (plan_of map.now) parts.now strands.now trail.now (length strands.now)) }
        ensures keeps { OnOk result (Extends self.old.sets.list.items self.new.sets.list.items) }
    {
        let mut found = Found {
            later: TokenSet::EMPTY,
            shared: TokenSet::EMPTY,
            undecided: None,
        };
        for strand in strands {
            found = self.tell(parts, map, strand, trail, &found)?;
        }
        Ok(found)
    }

    /// The same of one strand.
    fn tell(
        &mut self,
        parts: &[Part<'_>],
        map: &Map<'_>,
        strand: &Strand,
        trail: &Trail,
        found: &Found,
    ) -> Result<Found, RulesError>
        requires { trail.now.depth < 4 }
        ensures err { IfErr result IsLimit }
        ensures ok { IfOk result (Tells (plan_of map.now) parts.now strand.now trail.now found.now) }
        ensures keeps { OnOk result (Extends self.old.sets.list.items self.new.sets.list.items) }
    {
        let is_settled = is_settled_after(parts, map, strand.row, trail.depth);
        let shared = shared(is_settled, strand.kinds, found.later);
        self.add_alone(strand, trail, shared, found.later)?;
        Ok(Found {
            later: found.later.union(strand.kinds),
            shared: found.shared.union(shared),
            undecided: undecided_at(strand.row, trail, shared, found.undecided),
        })
    }

    /// Adds the look of a strand at one token more, unless one token decides, or no later strand is left.
    fn add_alone(
        &mut self,
        strand: &Strand,
        trail: &Trail,
        shared: TokenSet,
        later: TokenSet,
    ) -> Result<(), RulesError>
        requires { trail.now.depth < 4 }
        ensures err { IfErr result IsLimit }
        ensures keeps { OnOk result (Extends self.old.sets.list.items self.new.sets.list.items) }
    {
        let others = if trail.depth == 0 { shared } else { later };
        let alone = without(strand.kinds, shared);
        if is_empty(others) || is_empty(alone) {
            return Ok(());
        }
        self.add(strand.row, trail, alone)
    }
}

/// The row, if it shares a kind, and the kinds up to that one.
fn undecided_at(row: usize, trail: &Trail, shared: TokenSet, before: Option<Open>) -> Option<Open>
    requires { trail.now.depth < 4 }
    ensures { IsOpenAfter row trail.now shared before result }
{
    match first_of(shared) {
        Some(kind) => Some(Open {
            row,
            kinds: trail.told(kind),
        }),
        None => before,
    }
}

/// The strand of a row that eats next at these places.
pub(crate) fn strand_of(map: &Map<'_>, row: usize, places: Vec<Place>) -> Strand
    requires { All (λ p. does_eat (plan_of map.now) p ≡ true) places.items }
    ensures row { result.row ≡ row }
    ensures places { result.places.items ≡ places.items }
    ensures is { IsStrand (plan_of map.now) result }
{
    Strand {
        row,
        kinds: kinds_at(map, &places),
        places,
    }
}

/// The first of two rows.
pub(crate) fn first_open(one: Option<Open>, other: Option<Open>) -> Option<Open>
    ensures up { (row : ℕ) → IsUpTo result row → IsUpTo one row × IsUpTo other row }
    ensures one { (result ≡ one) ⊎ (result ≡ other) }
{
    match (one, other) {
        (Some(a), Some(b)) if b.row < a.row => Some(b),
        (Some(a), _) => Some(a),
        (None, b) => b,
    }
}

/// Whether a row is settled after so many tokens.
fn is_settled_after(parts: &[Part<'_>], map: &Map<'_>, row: usize, depth: usize) -> bool
    ensures late { 3 ≤ depth → row < length map.now.rows.now → result ≡ settles parts.now map.now.rows.now row }
    ensures other { (depth < 3) ⊎ (length map.now.rows.now ≤ row) → result ≡ false }
{
    depth >= 3 && is_settled(parts, map, row)
}

/// The kinds that don't decide: none, if they are settled.
fn shared(is_settled: bool, own: TokenSet, others: TokenSet) -> TokenSet
    ensures some { (kind : ℕ) → has result kind ≡ true → (has own kind && has others kind) ≡ true }
    ensures all { is_settled ≡ false → (kind : ℕ) → has result kind ≡ (has own kind && has others kind) }
    ensures none { is_settled ≡ true → (kind : ℕ) → has result kind ≡ false }
{
    if is_settled {
        TokenSet::EMPTY
    } else {
        both(own, others)
    }
}
