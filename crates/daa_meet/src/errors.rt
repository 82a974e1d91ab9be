//! What the ownship minus an aircraft may err by, second by second.

ghost use Rattle.std.specs.Prelude.{◌≡◌, ◌≤◌, ◌<◌, ◌*◌, ◌==◌};
ghost use Rattle.daa_margin.specs.ErrorBounds.{AreErrorBoundsInRange};
ghost use Rattle.daa_state.specs.InRange.{AreBoundsInRange};
ghost use Rattle.daa_legs.specs.Errors.{are_exact, errors_on, is_exact};

use daa_margin::ErrorBounds;
use daa_state::{PairBounds, ReportBounds};

/// Whether both reports are taken as the truth: all eight bounds are 0.
pub fn are_exact(bounds: &PairBounds) -> bool
    ensures { result ≡ are_exact bounds.now }
{
    is_exact(&bounds.own) && is_exact(&bounds.aircraft)
}

/// Whether the four bounds of a report are 0.
fn is_exact(bounds: &ReportBounds) -> bool
    ensures { result ≡ is_exact bounds.now }
{
    bounds.place == 0 && (bounds.height == 0 && (bounds.speed == 0 && bounds.climb == 0))
}

/// What the ownship minus the aircraft may err by at the beginning of second `k`, counted from the
/// moment, where the aircraft's report was `age` seconds old at the moment.
pub fn errors_on(bounds: &PairBounds, age: u32, k: u32) -> ErrorBounds
    requires bounds { AreBoundsInRange bounds.now }
    requires age { age ≤ 60 }
    requires k { k < 180 }
    ensures value { result ≡ errors_on bounds.now age k }
    ensures in_range { AreErrorBoundsInRange result }
{
    let own = &bounds.own;
    let aircraft = &bounds.aircraft;
    ErrorBounds {
        place: 36 * (own.place + aircraft.place) + own.speed * k + aircraft.speed * (age + k),
        speed: own.speed + aircraft.speed,
        height: 60 * (own.height + aircraft.height) + own.climb * k + aircraft.climb * (age + k),
        climb: own.climb + aircraft.climb,
    }
}
