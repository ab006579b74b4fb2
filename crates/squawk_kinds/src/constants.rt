//! The kinds that have a constant.
ghost use Rattle.std.specs.Prelude.{◌≡◌};
ghost use Rattle.squawk_kinds.specs.Constants.{constants};

use crate::SyntaxKind;
use crate::engine_names::engine_kinds;

impl SyntaxKind {
    /// Each kind that has a constant, once, in the order of their numbers.
    pub fn constants() -> [SyntaxKind; 105]
        ensures { result ≡ constants }
    {
        engine_kinds![kinds]
    }
}
