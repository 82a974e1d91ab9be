//! Ways divided by a rate, without a division for each.

ghost use Rattle.std.specs.Prelude.{◌≡◌, ◌≤◌, ◌<◌, ◌+◌, ◌*◌, ◌^◌, pos};
ghost use Rattle.daa_fixed.specs.Size.{IsFrom};

/// A rate that many ways are divided by, 1 to 10000, with how many 2^32nds of a second a unit takes
/// at it, rounded up: the one division for all of them.
#[derive(Clone, Copy, Debug)]
pub struct Divisor {
    pub rate: u32,
    pub share: u64,
    ghost some: { 1 ≤ rate },
    ghost few: { rate ≤ 10000 },
    ghost least: { 4294967296 ≤ share * rate },
    ghost most: { share * rate < 4294967296 + rate },
}

impl Divisor {
    /// A rate, made ready.
    pub fn of(rate: i32) -> Divisor
        requires { IsFrom (pos 1) (pos 10000) rate }
        ensures { pos result.rate ≡ rate }
    {
        let rate = rate as u32;
        Divisor {
            rate,
            share: u64::from(u32::MAX / rate) + 1,
        }
    }

    /// How often the rate fits into a way. By the share it is that number or one more.
    #[inline(always)]
    pub(crate) fn times_in(&self, way: u32) -> u32
        requires { way ≤ 7200000 }
        ensures below { result * self.now.rate ≤ way }
        ensures above { way < result * self.now.rate + self.now.rate }
        ensures few { result ≤ 7200000 }
    {
        let times = shared(self, way);
        if u64::from(times) * u64::from(self.rate) <= u64::from(way) {
            times
        } else {
            times - 1
        }
    }
}

/// A way's share of seconds.
#[inline(always)]
fn shared(divisor: &Divisor, way: u32) -> u32
    requires { way ≤ 7200000 }
    ensures below { result * divisor.now.rate ≤ way + divisor.now.rate }
    ensures above { way < result * divisor.now.rate + divisor.now.rate }
{
    ((u64::from(way) * divisor.share) >> 32) as u32
}
