//! Last times: for how many seconds the present flight may be kept before a manoeuvre of a kind
//! comes too late. Nothing here takes memory.
#![tactic(auto)]

mod aircraft;
mod last;
mod laws;
mod rest;
mod search;
mod side;
mod starts;

pub use last::last_of;
pub use laws::{
    delayed_by_0_is_the_candidate, has_one_last_time, held_before_it_begins, open_by_0_is_open,
    worked_examples,
};
