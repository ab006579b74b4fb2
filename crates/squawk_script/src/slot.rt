//! The markers and nodes that a run holds.
ghost use Rattle.std.specs.Prelude.{◌≡◌, ◌<◌, ℕ, false, IsTrue, length, slice_set, vec_capacity};
ghost use Rattle.squawk_script.specs.Slots.{is_status_at_hand, is_status_open, slot_at, status_of};
ghost use Rattle.squawk_script.specs.declared.slot.Slot.TheVariants as slot;

use squawk_parser::{CompletedMarker, Marker};
use std::mem;

/// The marker or the node of one number. A slot can't be dropped while its marker is open.
pub enum Slot {
    /// An open marker.
    Open(Marker),
    /// A node that is completed and hasn't been preceded.
    Done(CompletedMarker),
    /// A number that no call names again.
    Spent,
}

/// Takes the open marker of this number, which is then spent.
pub fn take_marker(slots: &mut Vec<Slot>, marker: u32) -> Marker
    requires { IsTrue (is_status_open (status_of (slot_at slots.old.items marker))) }
    ensures took { slot_at slots.old.items marker ≡ slot.Open result }
    ensures left { slots.new.items ≡ slice_set slots.old.items marker slot.Spent }
    ensures capacity { vec_capacity slots.new ≡ vec_capacity slots.old }
{
    match mem::replace(&mut slots[marker as usize], Slot::Spent) {
        Slot::Open(open) => open,
        Slot::Done(_) => unreachable!(),
        Slot::Spent => unreachable!(),
    }
}

/// Takes the completed node of this number, which is then spent.
pub fn take_node(slots: &mut Vec<Slot>, node: u32) -> CompletedMarker
    requires { IsTrue (is_status_at_hand (status_of (slot_at slots.old.items node))) }
    ensures took { slot_at slots.old.items node ≡ slot.Done result }
    ensures left { slots.new.items ≡ slice_set slots.old.items node slot.Spent }
    ensures capacity { vec_capacity slots.new ≡ vec_capacity slots.old }
{
    match mem::replace(&mut slots[node as usize], Slot::Spent) {
        Slot::Open(_open) => unreachable!(),
        Slot::Done(done) => done,
        Slot::Spent => unreachable!(),
    }
}

/// Keeps a completed node under this number, whose slot is spent.
pub fn keep_node(slots: &mut Vec<Slot>, number: u32, node: CompletedMarker)
    requires within { number < length slots.old.items }
    requires spent { slot_at slots.old.items number ≡ slot.Spent }
    ensures kept { slots.new.items ≡ slice_set slots.old.items number (slot.Done node) }
    ensures capacity { vec_capacity slots.new ≡ vec_capacity slots.old }
{
    match mem::replace(&mut slots[number as usize], Slot::Done(node)) {
        Slot::Open(_open) => unreachable!(),
        Slot::Done(_) => {}
        Slot::Spent => {}
    }
}

/// Drops slots of which none is open.
pub fn let_go(mut slots: Vec<Slot>)
    requires { (i : ℕ) → is_status_open (status_of (slot_at slots.items i)) ≡ false }
{
    while let Some(slot) = slots.pop() {
        match slot {
            Slot::Open(_open) => unreachable!(),
            Slot::Done(_) => {}
            Slot::Spent => {}
        }
    }
    slots.destroy_empty();
}
