//! The alerts of an aircraft: the greatest level that the present flight violates now, and the
//! greatest that it violates within the level's alert time, with the first second on which it does.
#![tactic(auto)]

mod aircraft_alert;
mod alerting;
mod halving;
mod laws;
mod now;

pub use aircraft_alert::Alert;
pub use alerting::{alert, alert_level};
pub use halving::first_leg;
pub use laws::alerts_are_unique;
pub use now::now_level;
