//! A picture once more.

ghost use Rattle.std.specs.Prelude.{◌≡◌};

use crate::word::Picture;
use arrayvec::ArrayVec;

impl Picture {
    /// An exact copy: the same time, ownship and aircraft, in the same order. It takes no memory,
    /// so it can't fail.
    pub fn copy(&self) -> Picture
        ensures { result ≡ self.now }
    {
        let mut traffic = ArrayVec::new();
        if traffic
            .try_extend_from_slice(self.traffic.as_slice())
            .is_err()
        {
            unreachable!()
        }
        Picture {
            time: self.time,
            own: self.own,
            traffic,
        }
    }
}
