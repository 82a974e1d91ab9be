//! What is alerted of an aircraft.

/// The greatest level, from 1 on, that the present flight violates within its alert time, with the
/// first leg (a second, counted from 0) on which it does. The level is 0 exactly if there is no
/// such level, and then there is no leg.
#[derive(Clone, Copy, Debug, Default, PartialEq, Eq)]
pub struct Alert {
    pub level: u8,
    pub first: Option<u32>,
}
