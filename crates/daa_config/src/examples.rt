//! Texts of configurations that are accepted, as examples of the format and for tests. Their
//! numbers are this project's own and no standard's.

/// Three levels that alert 55, 55 and 25 seconds ahead, and 341 candidates. The file
/// `examples/three_levels.toml` has it with comments.
pub const THREE_LEVELS: &str = "resolve = 2
turn_rate = 3
track_step = 5
[gs]
min = 500
max = 7000
step = 100
rate = 20
[vs]
min = -5000
max = 5000
step = 100
rate = 500
[alt]
min = 0
max = 50000
step = 500
rate = 2000
[[level]]
dthr = 660
zthr = 700
tthr = 35
tcoa = 0
lookahead = 75
alert = 55
[[level]]
dthr = 660
zthr = 450
tthr = 35
tcoa = 0
lookahead = 75
alert = 55
[[level]]
dthr = 660
zthr = 450
tthr = 35
tcoa = 0
lookahead = 55
alert = 25
";

/// One level that alerts 10 seconds ahead, four tracks and one value of each other kind: 8
/// candidates.
pub const ONE_LEVEL: &str = "resolve = 1
turn_rate = 3
track_step = 90
gs = { min = 3600, max = 3600, step = 1, rate = 10 }
vs = { min = 0, max = 0, step = 1, rate = 100 }
alt = { min = 1000, max = 1000, step = 1, rate = 1000 }
level = [ { dthr = 660, zthr = 450, tthr = 35, tcoa = 0, lookahead = 10, alert = 10 } ]
";

/// Four levels of cylinders, each within the one before, with the candidates of `ONE_LEVEL`.
pub const FOUR_LEVELS: &str = "resolve = 4
turn_rate = 3
track_step = 90
gs = { min = 3600, max = 3600, step = 1, rate = 10 }
vs = { min = 0, max = 0, step = 1, rate = 100 }
alt = { min = 1000, max = 1000, step = 1, rate = 1000 }
level = [ { dthr = 700, zthr = 450, tthr = 0, tcoa = 0, lookahead = 10, alert = 10 },
  { dthr = 690, zthr = 450, tthr = 0, tcoa = 0, lookahead = 10, alert = 10 },
  { dthr = 680, zthr = 450, tthr = 0, tcoa = 0, lookahead = 10, alert = 10 },
  { dthr = 660, zthr = 450, tthr = 0, tcoa = 0, lookahead = 10, alert = 10 } ]
";

/// One level with the largest values that it may have, and 1860 candidates, over the whole range of
/// each kind.
pub const LARGEST_VALUES: &str = "resolve = 1
turn_rate = 30
track_step = 1
gs = { min = 0, max = 10000, step = 20, rate = 10000 }
vs = { min = -10000, max = 10000, step = 40, rate = 10000 }
alt = { min = -2000, max = 60000, step = 125, rate = 10000 }
level = [ { dthr = 10000, zthr = 10000, tthr = 120, tcoa = 120, lookahead = 180, alert = 180 } ]
";
