//! Boards and the answers that they give.

mod bands;
mod nearest;
