//! What is held of the parts of a document.
ghost use Rattle.std.specs.Prelude.{IfOk};

use sql_grammar::ScriptPart;
use std::alloc::AllocError;

/// What a document holds of each of its parts. It is made when the part is parsed.
pub trait Keep {
    ghost use Rattle.sql_grammar.specs.declared.script_parts.ScriptPart.{ScriptPart as Part};

    /// What is held.
    type Kept: Drop;

    /// Whether this is held of a part.
    ghost keeps: { Self → Part → Self.Kept → Type 0 };

    /// What is held of a part.
    fn keep(&self, part: &ScriptPart<'_>) -> Result<Self::Kept, AllocError>
        ensures { IfOk result (λ kept. keeps self.now part.now kept) };
}
