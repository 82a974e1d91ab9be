//! A law of the definitions, the contract of a function that does nothing.

ghost use Rattle.std.specs.Prelude.{◌≡◌, ◌↔◌, ℤ, pos, ◌≤ℤ◌};
ghost use Rattle.daa_taumod.specs.declared.Model.{Model};
ghost use Rattle.daa_config.specs.declared.level.Level.{Level};
ghost use Rattle.daa_scan.specs.Reach.{size_of, CanEnter};

/// A worked example: at 0.66 nautical miles, 450 feet, 35 seconds and a lookahead of 10 seconds,
/// what nears at no more than 360.1 knots and 1000 ft/min is in reach up to 185805 units ahead and
/// 37000 units above or below, and no farther.
pub fn worked_examples()
    ensures { (level : Level) (ahead up : ℤ)
        → level ≡ record {
          volume = record { dthr = 23760; zthr = 27000; tthr = 35; tcoa = 0; model = Model.Taumod };
          lookahead = 10;
          alert = 10;
        }
        → CanEnter level (record { flat = record { east = pos 0; north = ahead }; up = up })
        (pos 3601) (pos 1000)
        ↔ ((size_of ahead ≤ℤ pos 185805) × (size_of up ≤ℤ pos 37000)) }
{}
