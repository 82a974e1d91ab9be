//! What comparing finds.

/// What is found of the bytes that a source hands out, compared with a report.
#[derive(Clone, Copy, Debug, PartialEq, Eq)]
pub enum Found {
    /// The bytes are the report, as far as it was compared.
    Alike,
    /// The bytes are not the report; the line of this number, from 1 on, is the first that differs.
    Differs(u64),
    /// The source failed.
    Fault,
    /// All bytes that may be read are the front of the report, and the source hands out one more.
    Limit,
}
