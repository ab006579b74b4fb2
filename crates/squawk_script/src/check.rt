//! The check of a list of calls.
ghost use Rattle.std.specs.Prelude.{◌≡◌, IfOk, IfErr, position};
ghost use Rattle.squawk_script.specs.Accepted.{IsAccepted, Refuses, makes_marker, markers_of};
ghost use Rattle.squawk_script.specs.Slots.{is_status_open};

use crate::call::Call;
use crate::script_error::ScriptError;
use crate::status::{Status, admits, advance};
use std::alloc::Global;

impl Call {
    /// Whether the call makes a marker.
    fn makes_marker(&self) -> bool
        ensures { result ≡ makes_marker self.now }
    {
        match self {
            Call::Start | Call::Precede { .. } => true,
            _ => false,
        }
    }
}

/// The number of markers that the calls make.
fn count_markers(calls: &[Call]) -> usize
    ensures { result ≡ markers_of calls.now }
{
    calls.iter().filter(|call| call.makes_marker()).count()
}

/// The least marker that is open.
fn first_open(statuses: &[Status]) -> Option<usize>
    ensures { result ≡ position is_status_open statuses.now }
{
    statuses.iter().position(|status| *status == Status::Open)
}

/// Checks that the calls can be made one after another and leave no marker open.
///
/// Returns the number of markers that they make. Room for their statuses is allocated first.
pub fn check(alloc: Global, calls: &[Call]) -> Result<usize, ScriptError>
    ensures accepted { IfOk result (λ markers. IsAccepted calls.now × markers ≡ markers_of calls.now) }
    ensures refused { IfErr result (Refuses calls.now) }
{
    let markers = count_markers(calls);
    let mut statuses = Vec::with_capacity(alloc, markers)?;
    for (index, call) in calls.iter().enumerate() {
        if !admits(&statuses, call) {
            return Err(ScriptError::BadCall { index });
        }
        advance(&mut statuses, call);
    }
    match first_open(&statuses) {
        Some(marker) => Err(ScriptError::Unspent {
            marker: marker as u32,
        }),
        None => Ok(markers),
    }
}
