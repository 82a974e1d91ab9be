//! The engine over plain numbers, as a caller of another language has them: structs with the layout
//! of C in, alerts, levels, bands, answers, recoveries, last times and the text of a moment out.
//! Nothing is kept: each call answers from its arguments alone. daa_c, daa_toml and daa_web export
//! these functions. The codes are those of `daidalus.h` of daa_c.
#![tactic(auto)]

mod alerts;
mod asking;
mod banding;
mod boards;
mod candidates;
mod closing;
mod codes;
mod deciding;
mod faults;
mod flying;
mod joining;
mod last_times;
mod laws;
mod lines;
mod recovering;
mod refusal;
mod reporting;
mod resolving;
mod setting;
mod sheet;
mod states;

pub use alerts::{DaaAlert, alert};
pub use banding::{DaaBand, bands};
pub use boards::DaaBoard;
pub use candidates::{DaaCandidate, candidate};
pub use closing::{closers, value_level};
pub use daa_state::Own;
pub use daa_steady::{DaaSide, DaaSteady, DaaSteadyRule, steady, steady_side};
pub use deciding::{decide, levels};
pub use faults::{DaaFault, fault};
pub use flying::{fly, fly_own};
pub use joining::join;
pub use last_times::{DaaLast, last};
pub use laws::a_joined_board_is_of_all_aircraft;
pub use lines::{DaaLines, line};
pub use recovering::{DaaRecovery, recovery, recovery_side};
pub use reporting::report;
pub use resolving::{DaaResolution, resolution};
pub use setting::{DaaConfig, check, read};
pub use states::DaaTraffic;
