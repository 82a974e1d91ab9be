//! Writes the lines of a report to a sink: one by one, or held back and written together.
#![tactic(auto)]

mod adding;
mod held;
mod kind_words;
mod line;
mod writers;

pub use held::HeldLines;
pub use kind_words::kind_word;
pub use line::Line;
pub use writers::{
    SinkFault, put, write_alert, write_band, write_config, write_differs, write_done, write_last,
    write_moment, write_now, write_recover, write_refused, write_resolve, write_same,
};
