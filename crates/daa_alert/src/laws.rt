//! What holds of every aircraft.

ghost use Rattle.std.specs.Prelude.{◌≡◌, ℕ};
ghost use Rattle.daa_config.specs.Settings.{Settings};
ghost use Rattle.daa_legs.specs.Alerts.{IsNowLevel};
ghost use Rattle.daa_state.specs.declared.word.Own.{Own};
ghost use Rattle.daa_state.specs.declared.word.Traffic.{Traffic};
ghost use Rattle.daa_alert.specs.declared.aircraft_alert.Alert.{Alert};
ghost use Rattle.daa_alert.specs.Alert.{IsAlertOf};

/// An aircraft has one level now, and one alert.
pub fn alerts_are_unique()
    ensures levels { (settings : Settings) (own : Own) (aircraft : Traffic) (level other : ℕ)
        → IsNowLevel settings own aircraft level → IsNowLevel settings own aircraft other
        → level ≡ other }
    ensures alerts { (settings : Settings) (own : Own) (aircraft : Traffic) (alert other : Alert)
        → IsAlertOf settings own aircraft alert → IsAlertOf settings own aircraft other
        → alert ≡ other }
{}
