//! The errors of a tree as findings.
ghost use Rattle.std.specs.Prelude.{◌≡◌, IfOk, map};
ghost use Rattle.squawk_tree.specs.Forest.{Forest};
ghost use Rattle.sql_report.specs.Findings.{told};
ghost use Rattle.syntax_tree.specs.Layout.{IsTree};
ghost use Rattle.sql_syntax.specs.TreeFindings.{TellsErrors, told_error};

use sql_report::Finding;
use std::alloc::{AllocError, Global};
use syntax_tree::{SyntaxTree, TextError};

/// Returns a finding for each error of a tree's text, lexical ones and those of the grammar, in the order of their
/// places.
pub fn findings<'t>(alloc: Global, tree: &'t SyntaxTree<'t>) -> Result<Vec<Finding<'t>>, AllocError>
    ensures { IfOk result (λ findings. (forest : Forest) → IsTree tree.now forest → TellsErrors tree.now forest findings.items) }
{
    let errors = tree.errors_by_place(alloc)?;
    findings_of(alloc, &errors)
}

/// A finding for each error.
fn findings_of<'t>(alloc: Global, errors: &[TextError<'t>]) -> Result<Vec<Finding<'t>>, AllocError>
    ensures { IfOk result (λ findings. map told findings.items ≡ map told_error errors.now) }
{
    let mut findings = Vec::new(alloc);
    for error in errors {
        findings.push(Finding {
            at: error.pos(),
            message: error.message(),
            hint: error.hint(),
        })?;
    }
    Ok(findings)
}
