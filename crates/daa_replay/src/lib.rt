//! The program: reads its command words and the configuration that they name. A replay then reads
//! state lines from a source and writes their report to a sink: the lines of each ended moment,
//! which the engine writes, and the number of each refused line with the code of its fault. An
//! exercise writes the summary of moments that are drawn. A comparison writes whether a report is
//! that of given states.
#![tactic(auto)]

mod batch;
mod checkpoint;
mod events;
mod guesses;
mod judge;
mod lane;
mod laws;
mod lines;
mod moment;
mod opening;
mod program;
mod replay;
mod status;

pub use laws::{
    configurations_are_unique, ended_moments_are_in_range, events_only_grow,
    every_input_has_one_report, format_lines_alone_matter, fronts_begin_reports,
    inputs_without_format_3_have_no_bounds, reports_say_what_is_clear_in_truth, runs_are_complete,
    worked_examples,
};
pub use lines::Event;
pub use program::{run, run_within};
