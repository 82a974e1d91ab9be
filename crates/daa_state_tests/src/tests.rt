//! The configuration, lines, and the moments that they make.

mod codes;
mod lines;
mod moments;
mod readers;
