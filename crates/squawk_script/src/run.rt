//! Makes calls of a script.
ghost use Rattle.std.specs.Prelude.{◌≡◌, ◌<◌, IsTrue, OnOk, vec_len, vec_capacity};
ghost use Rattle.std.specs.Str.{chars};
ghost use Rattle.squawk_kinds.specs.TokenSets.{has};
ghost use Rattle.squawk_output.specs.Draft.{HasNoOpenMarker};
ghost use Rattle.squawk_parser.specs.Eaten.{recovery_steps};
ghost use Rattle.squawk_parser.specs.Recorded.{Puts};
ghost use Rattle.squawk_parser.specs.State.{HasNotFailed, IsFresh, IsSound, Keeps, ahead};
ghost use Rattle.squawk_script.specs.Accepted.{IsAccepted, makes_marker, markers_of};
ghost use Rattle.squawk_script.specs.Events.{FailsByLimits, IsRunOf};
ghost use Rattle.squawk_script.specs.Slots.{IsTied, Performs, is_admitted, statuses_of};
ghost use Rattle.squawk_script.specs.declared.call.Call.TheVariants as calls;

use crate::call::Call;
use crate::slot::{Slot, keep_node, let_go, take_marker, take_node};
use squawk_parser::{Parser, SyntaxKind, TokenSet};
use std::alloc::{AllocError, Global};

/// Starts a node, and keeps its marker.
fn start(slots: &mut Vec<Slot>, p: &mut Parser<'_>)
    requires tied { IsTied p.old slots.old.items }
    requires room { vec_len slots.old < vec_capacity slots.old }
    ensures keeps { Keeps p.old p.new }
    ensures capacity { vec_capacity slots.new ≡ vec_capacity slots.old }
    ensures performs { Performs p.old p.new slots.old.items slots.new.items calls.Start }
{
    let marker = p.start();
    slots.push_reserved(Slot::Open(marker));
}

/// Completes a node.
fn complete(slots: &mut Vec<Slot>, marker: u32, kind: SyntaxKind, p: &mut Parser<'_>)
    requires tied { IsTied p.old slots.old.items }
    requires admitted { IsTrue (is_admitted (statuses_of slots.old.items) (calls.Complete marker kind)) }
    ensures keeps { Keeps p.old p.new }
    ensures capacity { vec_capacity slots.new ≡ vec_capacity slots.old }
    ensures performs { Performs p.old p.new slots.old.items slots.new.items (calls.Complete marker kind) }
{
    let node = take_marker(slots, marker).complete(p, kind);
    keep_node(slots, marker, node);
}

/// Abandons a marker.
fn abandon(slots: &mut Vec<Slot>, marker: u32, p: &mut Parser<'_>)
    requires tied { IsTied p.old slots.old.items }
    requires admitted { IsTrue (is_admitted (statuses_of slots.old.items) (calls.Abandon marker)) }
    ensures keeps { Keeps p.old p.new }
    ensures capacity { vec_capacity slots.new ≡ vec_capacity slots.old }
    ensures performs { Performs p.old p.new slots.old.items slots.new.items (calls.Abandon marker) }
{
    take_marker(slots, marker).abandon(p);
}

/// Starts a node in front of a completed one, and keeps its marker.
fn precede(slots: &mut Vec<Slot>, node: u32, p: &mut Parser<'_>)
    requires tied { IsTied p.old slots.old.items }
    requires admitted { IsTrue (is_admitted (statuses_of slots.old.items) (calls.Precede node)) }
    requires room { vec_len slots.old < vec_capacity slots.old }
    ensures keeps { Keeps p.old p.new }
    ensures capacity { vec_capacity slots.new ≡ vec_capacity slots.old }
    ensures performs { Performs p.old p.new slots.old.items slots.new.items (calls.Precede node) }
{
    let marker = take_node(slots, node).precede(p);
    slots.push_reserved(Slot::Open(marker));
}

/// Extends a node to the left, to an older marker.
fn extend_to(slots: &mut Vec<Slot>, node: u32, marker: u32, p: &mut Parser<'_>)
    requires tied { IsTied p.old slots.old.items }
    requires admitted { IsTrue (is_admitted (statuses_of slots.old.items) (calls.ExtendTo node marker)) }
    ensures keeps { Keeps p.old p.new }
    ensures capacity { vec_capacity slots.new ≡ vec_capacity slots.old }
    ensures performs { Performs p.old p.new slots.old.items slots.new.items (calls.ExtendTo node marker) }
{
    let older = take_marker(slots, marker);
    let extended = take_node(slots, node).extend_to(p, older);
    keep_node(slots, node, extended);
}

/// Records an error, in a node with the current token unless the set has its kind.
// Keeps the set's copy out of each call's frame.
#[cold]
#[inline(never)]
fn err_recover(message: &str, recovery: &TokenSet, p: &mut Parser<'_>)
    ensures { Puts (recovery_steps (chars message.now) (has recovery.now) (ahead p.old 0)) p.old p.new }
{
    p.err_recover(message, *recovery);
}

/// Makes one call.
fn perform(call: &Call, slots: &mut Vec<Slot>, p: &mut Parser<'_>)
    requires tied { IsTied p.old slots.old.items }
    requires admitted { IsTrue (is_admitted (statuses_of slots.old.items) call.now) }
    requires room { IsTrue (makes_marker call.now) → vec_len slots.old < vec_capacity slots.old }
    ensures keeps { Keeps p.old p.new }
    ensures capacity { vec_capacity slots.new ≡ vec_capacity slots.old }
    ensures performs { Performs p.old p.new slots.old.items slots.new.items call.now }
{
    match call {
        Call::Start => start(slots, p),
        Call::Complete { marker, kind } => complete(slots, *marker, *kind, p),
        Call::Abandon { marker } => abandon(slots, *marker, p),
        Call::Precede { node } => precede(slots, *node, p),
        Call::ExtendTo { node, marker } => extend_to(slots, *node, *marker, p),
        Call::Eat { kind } => {
            p.eat(*kind);
        }
        Call::BumpAny => p.bump_any(),
        Call::BumpRemap { kind } => p.bump_remap(*kind),
        Call::Expect { kind } => {
            p.expect(*kind);
        }
        Call::Error { message } => p.error(message.as_str()),
        Call::ErrRecover { message, recovery } => err_recover(message.as_str(), recovery, p),
        Call::ErrAndBump { message } => p.err_and_bump(message.as_str()),
    }
}

/// Makes the calls, one after another. Slots for the markers are allocated first.
pub fn run_calls(
    calls: &[Call],
    markers: usize,
    alloc: Global,
    p: &mut Parser<'_>,
) -> Result<(), AllocError>
    requires fresh { IsFresh p.old }
    requires sound { IsSound p.old }
    requires accepted { IsAccepted calls.now }
    requires markers { markers ≡ markers_of calls.now }
    ensures keeps { Keeps p.old p.new }
    ensures closed { OnOk result (HasNotFailed p.new → HasNoOpenMarker p.new.draft.items) }
    ensures leaves { OnOk result (HasNotFailed p.new → IsRunOf (record { calls = calls.now; words = p.old.words }) p.old.input p.new.draft) }
    // Also if an allocation fails.
    ensures runs { FailsByLimits (record { calls = calls.now; words = p.old.words }) p.old p.new }
{
    let mut slots = Vec::with_capacity(alloc, markers)?;
    for call in calls {
        perform(call, &mut slots, p);
    }
    let_go(slots);
    Ok(())
}
