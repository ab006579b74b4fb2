//! The output of a parse.
ghost use Rattle.std.specs.Prelude.{◌≡◌, ◌<◌, ◌^◌, ◌↔◌, [], IsTrue, length};
ghost use Rattle.squawk_output.specs.OneRoot.{StandsInOneRoot};
ghost use Rattle.squawk_output.specs.Steps.{errors_in, without_errors};

pub(crate) mod builder;
mod root_tracker;
pub mod step;
pub mod steps;
pub(crate) mod stored;
pub mod text;

use builder::OutputBuilder;
use std::alloc::Global;
use std::marker::Model;
pub use step::Step;
pub use steps::Steps;
pub use text::Text;

/// The output of a parse: the steps of a walk over a syntax tree, from left to right.
///
/// Its tokens are of the input, so it has neither texts nor trivia. Its errors stand where they were
/// recorded.
#[derive(Drop)]
pub struct Output {
    builder: OutputBuilder,
    recorded: u32,
}

impl Model for Output {
    ghost use Rattle.squawk_output.specs.Steps.{Walk};

    ghost Value = { Walk };

    ghost view = { λ o. record { steps = o.builder.steps; recorded = o.recorded; turns = o.builder.turns } };
}

impl Output {
    /// An output without steps.
    pub fn empty(alloc: Global) -> Output
        ensures { result ≡ record { steps = []; recorded = 0; turns = 0 } }
    {
        Output::new(OutputBuilder::empty(alloc), 0)
    }

    /// The output with the steps that a pass made, and the number of recorded events.
    pub(crate) fn new(builder: OutputBuilder, recorded: u32) -> Output
        ensures { result ≡ record { steps = builder.steps; recorded = recorded; turns = builder.turns } }
    {
        Output { builder, recorded }
    }

    /// The steps in order, fewer than 2^64.
    pub fn iter(&self) -> Steps<'_>
        ensures steps { result ≡ self.now.steps }
        ensures few { length self.now.steps < 2 ^ 64 }
    {
        self.builder.iter()
    }

    /// The number of steps that are errors, in constant time.
    pub fn error_count(&self) -> usize
        ensures { result ≡ errors_in self.now.steps }
    {
        self.builder.error_count()
    }

    /// Whether the steps stand in one root: errors aside, they are one node with its contents.
    ///
    /// It takes constant time: the pass has kept track of it.
    pub fn stands_in_one_root(&self) -> bool
        ensures { IsTrue result ↔ StandsInOneRoot (without_errors self.now.steps) }
    {
        self.builder.stands_in_one_root()
    }

    /// The number of events that the parse recorded: one for each start, `precede`, completion, token and
    /// error, also of markers that were abandoned.
    pub fn recorded(&self) -> u32
        ensures { result ≡ self.now.recorded }
    {
        self.recorded
    }

    /// The number of turns of the pass that made the steps: one for each event of the log, one for each
    /// `Start`, also of an abandoned marker, and two for each link. Of a parse they are at most four times
    /// `recorded`.
    pub fn turns(&self) -> u64
        ensures { result ≡ self.now.turns }
    {
        self.builder.turns()
    }
}
