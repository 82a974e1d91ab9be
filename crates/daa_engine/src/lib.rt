//! One moment: which candidates are covered, on a board, and the lines of its report. Every answer
//! is found before the first byte is written, and what is written does not depend on how many
//! workers there are.
#![tactic(auto)]

mod alerts;
mod alone;
mod beside;
mod engine;
mod filling;
mod findings;
mod laws;
mod room;
mod say;
mod tickets;
mod together;

pub use alone::{decide_in, report_in, say_moment};
pub use beside::workers_for;
pub use daa_schedule::NoMemory;
pub use engine::Engine;
pub use laws::{
    alerts_miss_no_true_violation, boards_show_what_is_covered, every_picture_has_one_text,
    has_one_board, has_one_text, last_times_are_open_in_truth, open_candidates_are_clear_in_truth,
    recoveries_recover_in_truth, texts_are_short, texts_say_what_is_clear_in_truth,
    texts_without_a_recovery_are_as_before, texts_without_last_times_are_as_before,
};
pub use room::{MOST_CANDIDATES, Room, leading_flights};
pub use tickets::Tickets;
