//! What is found in a text.
ghost use Rattle.std.specs.Prelude.{◌≡◌, ◌++◌, OnOk, map};
ghost use Rattle.std.specs.List.{filter_map};
ghost use Rattle.squawk_tree.specs.Forest.{Forest};
ghost use Rattle.sql_report.specs.Findings.{told};
ghost use Rattle.syntax_tree.specs.Layout.{IsTree};
ghost use Rattle.syntax_tree.specs.Views.{IsTreeOf};
ghost use Rattle.sql_lint.specs.Rules.{findings_in, findings_of, told_if};
ghost use Rattle.sql_lint.specs.Rows.{row_of};

use crate::alter_table::adding_rules;
use crate::column_types::type_rules;
use crate::rules::{Row, changing_rules};
use sql_report::{Finding, error_lines};
use sql_syntax::{Reporter, SqlError, findings, parse_sql};
use squawk_parser::Vocabulary;
use std::alloc::{AllocError, Global};
use syntax_tree::{SyntaxElement, SyntaxTree};

/// Tells the errors of a text and what the rules find in it, as lines.
#[derive(Drop)]
pub struct Linter<'w, V> {
    pub words: &'w V,
}

impl<V: Vocabulary> Reporter for Linter<'_, V> {
    ghost use Rattle.sql_syntax.specs.SqlErrors.{RefusesSql};
    ghost use Rattle.sql_syntax.specs.SqlTrees.{sql_given};
    ghost use Rattle.sql_lint.specs.Linted.{AreLinted};

    ghost reports = { λ linter name text lines.
        AreLinted (sql_given (V.keyword linter.words.now) (V.contextual_keyword linter.words.now) text) name lines };

    ghost refuses = { λ linter text error.
        RefusesSql (sql_given (V.keyword linter.words.now) (V.contextual_keyword linter.words.now) text) error };

    fn report(&self, alloc: Global, name: &str, text: &str) -> Result<Vec<u8>, SqlError> {
        let tree = parse_sql(alloc, text, self.words)?;
        let mut findings = findings(alloc, &tree)?;
        push_broken_rules(&mut findings, &tree)?;
        Ok(error_lines(alloc, name, text, &findings)?)
    }
}

/// Puts the findings in a tree after others.
pub(crate) fn push_broken_rules(
    findings: &mut Vec<Finding<'_>>,
    tree: &SyntaxTree<'_>,
) -> Result<(), AllocError>
    ensures { OnOk result ((forest : Forest) → IsTree tree.now forest → map told findings.new.items ≡ map told findings.old.items ++ findings_in forest) }
{
    for statement in tree.root().children() {
        push_in_statement(findings, statement)?;
    }
    Ok(())
}

/// Puts the findings at a statement and at the nodes in it after others.
fn push_in_statement(
    findings: &mut Vec<Finding<'_>>,
    statement: SyntaxElement<'_>,
) -> Result<(), AllocError>
    ensures { OnOk result ((forest : Forest) → IsTreeOf statement.entry forest
        → map told findings.new.items ≡ map told findings.old.items ++ findings_of forest statement.entry.at) }
{
    let of = statement.kind();
    for node in statement.descendants() {
        let at = node.text_range().start;
        push_told(findings, at, &changing_rules(of, node))?;
        push_told(findings, at, &adding_rules(of, node))?;
        push_told(findings, at, &type_rules(of, node))?;
    }
    Ok(())
}

/// Puts a finding at a byte after others for each rule that is broken.
fn push_told(findings: &mut Vec<Finding<'_>>, at: usize, rows: &[Row]) -> Result<(), AllocError>
    ensures { OnOk result (map told findings.new.items
        ≡ map told findings.old.items ++ filter_map (told_if at) (map row_of rows.now)) }
{
    for row in rows {
        let (is_broken, message) = *row;
        if is_broken {
            findings.push(Finding {
                at,
                message,
                hint: None,
            })?;
        }
    }
    Ok(())
}
