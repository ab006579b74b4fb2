//! Steps, outputs and events, and the pass that makes an output of a log of events.
//!
//! Only [`EventList::process`], [`EventLog::finish`] and [`Output::empty`] make outputs; the first two run that pass.
//! `squawk_parser` re-exports all that is public here but [`EventLog`] and [`Made`], by which it records.
#![tactic(auto)]

pub mod event;
pub mod log;
pub mod output;
mod pass;

pub use event::{Event, EventList, process};
pub use log::{EventLog, Made};
pub use output::{Output, Step, Steps, Text};
