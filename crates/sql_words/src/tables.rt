//! The tables by which keywords are looked up.

pub mod contextual_rows;
pub mod contextual_slots;
pub mod keyword_rows;
pub mod keyword_slots;
pub mod kind_sets;
