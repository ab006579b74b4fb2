//! Rules as a grammar of `rule_grammar`.
ghost use Rattle.std.specs.Prelude.{◌≡◌, []};
ghost use Rattle.squawk_kinds.specs.Kinds.{ERROR};

use crate::rules::Rules;
use rule_grammar::RuleGrammar;
use squawk_kinds::SyntaxKind;

impl Rules {
    /// The rules as a grammar of `rule_grammar`: what parsing by them runs.
    pub fn grammar(&self) -> RuleGrammar<'_>
        ensures rows { result.table.rows.now ≡ self.now.rows }
        ensures sets { result.table.sets.now ≡ self.now.sets }
        ensures operators { result.table.operators ≡ self.now.operators }
        ensures hidden { result.table.hidden.tokens.now ≡ [] }
        ensures start { result.start ≡ self.now.start }
        ensures end { result.end ≡ self.now.end }
        ensures root { result.root ≡ ERROR }
        ensures depth { result.depth ≡ self.now.depth }
        ensures names { result.names.now ≡ [] }
    {
        let table = self.table();
        RuleGrammar {
            table,
            start: self.start,
            end: self.end,
            root: SyntaxKind::ERROR,
            depth: self.depth,
            names: &[],
        }
    }
}
