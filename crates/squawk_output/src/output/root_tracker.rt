//! Tracks, as steps are made, whether they stand in one root. What is inlined runs for each step.
ghost use Rattle.std.specs.Prelude.{◌≡◌, ◌+◌, ◌-◌, ◌<◌, ◌^◌};
ghost use Rattle.squawk_output.specs.RootTracker.{stepped, is_one_root, untracked};

/// What steps other than errors say of their root.
#[derive(Drop)]
pub(crate) struct RootTracker {
    /// The number of open nodes.
    depth: usize,
    /// The number of steps that found no node open. In one root it is the first step alone.
    top_level: usize,
}

impl RootTracker {
    /// A tracker that has seen no steps.
    pub(crate) fn new() -> RootTracker
        ensures { result ≡ untracked }
    {
        RootTracker {
            depth: 0,
            top_level: 0,
        }
    }

    /// Tracks a step that enters and leaves so many nodes. It has no branch.
    #[inline(always)]
    pub(crate) fn step(&mut self, enters: usize, leaves: usize)
        requires enters { self.old.depth + enters < 2 ^ 64 }
        requires top_level { self.old.top_level + 1 < 2 ^ 64 }
        ensures { self.new ≡ stepped self.old (self.old.depth + enters - leaves) }
    {
        self.top_level += usize::from(self.depth == 0);
        self.depth = (self.depth + enters).saturating_sub(leaves);
    }

    /// Whether the steps, which are this many, stand in one root.
    pub(crate) fn is_one_root(&self, steps: usize) -> bool
        ensures { result ≡ is_one_root self.now steps }
    {
        self.top_level == 1 && self.depth == 0 && steps > 1
    }
}
