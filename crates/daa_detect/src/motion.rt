//! The horizontal motion of a leg, by three numbers that are the same at each of its times: with
//! them a time is tested by few products.

ghost use Rattle.std.specs.Prelude.{◌^◌};
ghost use Rattle.daa_fixed.specs.Size.{IsWithin};

/// A leg's horizontal motion against a volume's `dthr`; s is the place at the leg's beginning, v
/// the velocity.
#[derive(Clone, Copy)]
pub(crate) struct Motion {
    /// `v.v`.
    pub(crate) speed_squared: i64,
    /// `s.v`, which is below 0 where the distance falls.
    pub(crate) rate: i64,
    /// `dthr^2 (v.v) - (s x v)^2`, which is below 0 exactly if the leg moves on a line that stays
    /// farther off than `dthr`.
    pub(crate) margin: i128,
    ghost speed_bound: { IsWithin 3200000000 speed_squared },
    ghost rate_bound: { IsWithin 3200000000000 rate },
    ghost margin_bound: { IsWithin (2 ^ 84) margin },
}
