//! How many workers pay for moments that are decided beside one another.

ghost use Rattle.std.specs.Prelude.{◌<◌, ◌≤◌};

use daa_config::Config;

/// How much work a further worker is started for, in candidates that one aircraft is met with. It
/// takes some tenths of a millisecond, and starting a thread takes one tenth.
const LEAST_WORK: usize = 1 << 16;

/// How many candidates an aircraft is met with in the time that its other lines take.
const SAID: usize = 200;

/// How many of the workers, at least one, are used for moments whose weights add up to `weight`: a
/// further worker only where its share of the work takes longer than starting its thread. A moment
/// weighs two more than it has aircraft, which is about how many lines it has.
pub fn workers_for(config: &Config, weight: usize, workers: usize) -> usize
    requires { 0 < workers }
    ensures some { 1 ≤ result }
    ensures within { result ≤ workers }
{
    let least = LEAST_WORK / (config.total() as usize + SAID);
    (weight / least.max(1)).max(1).min(workers)
}
