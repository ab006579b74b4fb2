//! Where the links of events lead.
ghost use Rattle.std.specs.Prelude.{ℕ, ◌≡◌, ◌↔◌, IsTrue, List};
ghost use Rattle.squawk_output.specs.EventLog.{Lands, is_start_at};
ghost use Rattle.caliperdock_c.specs.Events.{event_or_finish, log_of};

use crate::event::CEvent;

/// Whether an event has no link, or one to a start of the events behind it.
#[inline(always)]
pub fn lands(event: &CEvent, behind: &[CEvent]) -> bool
    ensures { (messages : List ℕ) → IsTrue result ↔ Lands (event_or_finish messages event.now) (log_of messages behind.now) }
{
    if event.tag != 0 || event.a == 0 {
        return true;
    }
    is_start_at(behind, event.a as usize - 1)
}

/// Whether a start stands at a place.
#[inline(always)]
fn is_start_at(events: &[CEvent], place: usize) -> bool
    ensures { (messages : List ℕ) → result ≡ is_start_at (log_of messages events.now) place }
{
    if place < events.len() {
        events[place].tag == 0
    } else {
        false
    }
}
