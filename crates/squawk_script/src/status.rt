//! The statuses of markers in a list of calls.
ghost use Rattle.std.specs.Prelude.{◌≡◌, ◌<◌, IsTrue, length, nat_lt, vec_len, vec_capacity};
ghost use Rattle.squawk_script.specs.Accepted.{is_edible, makes_marker};
ghost use Rattle.squawk_script.specs.Slots.{is_admitted, is_status_at_hand, is_status_open, advanced, status_at};

use crate::call::Call;
use squawk_parser::{SyntaxKind, has_tail};

/// The status of one marker.
#[derive(Clone, Copy, Debug, PartialEq, Eq)]
pub enum Status {
    /// It is open.
    Open,
    /// Its node is completed and hasn't been preceded.
    AtHand,
    /// No call can name it again.
    Spent,
}

/// Whether `eat` takes the kind: it isn't `EOF` and has no tail.
fn is_plain(kind: SyntaxKind) -> bool
    ensures { result ≡ is_edible kind }
{
    kind != SyntaxKind::EOF && !has_tail(kind)
}

/// Whether the marker is open.
fn is_open(statuses: &[Status], marker: u32) -> bool
    ensures { result ≡ is_status_open (status_at statuses.now marker) }
{
    matches!(statuses.get(marker as usize), Some(Status::Open))
}

/// Whether the node is completed and hasn't been preceded.
fn is_node(statuses: &[Status], node: u32) -> bool
    ensures { result ≡ is_status_at_hand (status_at statuses.now node) }
{
    matches!(statuses.get(node as usize), Some(Status::AtHand))
}

/// Whether the number of one more marker fits in 32 bits.
fn has_number(statuses: &[Status]) -> bool
    ensures { result ≡ nat_lt (length statuses.now) 4294967296 }
{
    statuses.len() <= u32::MAX as usize
}

/// Whether the call can be made with these statuses.
pub fn admits(statuses: &[Status], call: &Call) -> bool
    ensures { result ≡ is_admitted statuses.now call.now }
{
    match call {
        Call::Start => has_number(statuses),
        Call::Complete { marker, kind } => {
            is_open(statuses, *marker) && *kind != SyntaxKind::TOMBSTONE
        }
        Call::Abandon { marker } => is_open(statuses, *marker),
        Call::Precede { node } => is_node(statuses, *node) && has_number(statuses),
        Call::ExtendTo { node, marker } => {
            is_node(statuses, *node) && is_open(statuses, *marker) && marker < node
        }
        Call::Eat { kind } | Call::Expect { kind } => is_plain(*kind),
        Call::BumpAny
        | Call::BumpRemap { .. }
        | Call::Error { .. }
        | Call::ErrRecover { .. }
        | Call::ErrAndBump { .. } => true,
    }
}

/// Sets the statuses after the call. There is room for a marker that it makes.
pub fn advance(statuses: &mut Vec<Status>, call: &Call)
    requires admitted { IsTrue (is_admitted statuses.old.items call.now) }
    requires room { IsTrue (makes_marker call.now) → vec_len statuses.old < vec_capacity statuses.old }
    ensures items { statuses.new.items ≡ advanced statuses.old.items call.now }
    ensures capacity { vec_capacity statuses.new ≡ vec_capacity statuses.old }
{
    match call {
        Call::Start => statuses.push_reserved(Status::Open),
        Call::Complete { marker, .. } => statuses[*marker as usize] = Status::AtHand,
        Call::Abandon { marker } | Call::ExtendTo { marker, .. } => {
            statuses[*marker as usize] = Status::Spent;
        }
        Call::Precede { node } => {
            statuses[*node as usize] = Status::Spent;
            statuses.push_reserved(Status::Open);
        }
        Call::Eat { .. }
        | Call::BumpAny
        | Call::BumpRemap { .. }
        | Call::Expect { .. }
        | Call::Error { .. }
        | Call::ErrRecover { .. }
        | Call::ErrAndBump { .. } => {}
    }
}
