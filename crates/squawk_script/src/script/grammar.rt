//! A script as a grammar: each entry point makes its calls.

use crate::run::run_calls;
use crate::script::Script;
use squawk_parser::{Grammar, Parser, Words};
use std::alloc::AllocError;

impl Grammar for Script<'_> {
    ghost use Rattle.squawk_script.specs.Events.{FailsByLimits, IsRunOf};

    ghost leaves = { λ script _ input draft. IsRunOf script input draft };

    ghost runs = { λ script _ begun left. FailsByLimits script begun left };

    ghost meaning = { λ script. script.words };

    fn words(&self) -> Words<'_> {
        Words {
            operator_first: self.operator_first,
            names: self.names,
        }
    }

    fn entry_point(&self, p: &mut Parser<'_>) -> Result<(), AllocError> {
        run_calls(&self.calls, self.markers, self.alloc, p)
    }

    fn plpgsql_entry_point(&self, p: &mut Parser<'_>) -> Result<(), AllocError> {
        run_calls(&self.calls, self.markers, self.alloc, p)
    }
}
