//! Why a moment is not taken, as numbers of daa_c's `daidalus.h`.

/// The number is none of a side.
pub(crate) const BAD_SIDE: i32 = 24;
/// The rule is none.
pub(crate) const BAD_RULE: i32 = 33;
/// The level is none of an alert.
pub(crate) const BAD_LEVEL: i32 = 34;
/// The time is not after that of the moment before.
pub(crate) const NOT_LATER: i32 = 35;
