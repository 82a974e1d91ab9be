//! What is read, by turns or ahead, and a report that it is compared with.

mod matching;
mod reading;
