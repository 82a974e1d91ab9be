//! The command words of the program:
//!
//! ```text
//! daidalus replay --config FILE [--workers N] [--ahead N]
//! daidalus exercise --config FILE --seed N --moments M [--workers N]
//! daidalus judge --config FILE --states FILE [--workers N]
//! ```
//!
//! clap decides which words are taken, by a definition that is written in clap's own terms;
//! what is taken is read into an [`Order`].
#![tactic(auto)]

mod command;
mod fault;
mod laws;
mod order;
mod reading;

pub use command::daidalus;
pub use fault::WordsFault;
pub use laws::{taken_words_give_an_order, worked_examples, worked_exercises, worked_judgements};
pub use order::{Order, Task};
pub use reading::read_words;
