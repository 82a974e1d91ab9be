//! What holds of the events and the report of every input, and inputs whose events are known.

ghost use Rattle.std.specs.Prelude.{◌≡◌, ◌++◌, ◌∷◌, [], All, Bool, List, codes, replicate, pos, true, false};
ghost use Rattle.daa_fixed.specs.One.{HasOne};
ghost use Rattle.daa_config.specs.Settings.{IsAccepted, Settings};
ghost use Rattle.daa_lines.specs.LinesOf.{Bytes};
ghost use Rattle.daa_report.specs.Lines.{Text};
ghost use Rattle.daa_replay.specs.declared.lines.Event.{Event};
ghost use Rattle.daa_replay.specs.Lines.{events_of, IsEventInRange};
ghost use Rattle.daa_replay.specs.EarlyFormats.{HasNoBounds};
ghost use Rattle.daa_replay.specs.FourWordLines.{HasNoAges, ReadsAsFourWords};
ghost use Rattle.daa_replay.specs.Moment.{IsReportFront, IsReportOf};
ghost use Rattle.daa_replay.specs.Clear.{IsClearReportOf};
ghost use Rattle.daa_replay.specs.Complete.{RunsAreComplete};
ghost use Rattle.daa_replay.specs.Opening.{ConfigurationsAreUnique};

use crate::lines::Event;
use daa_state::LineFault;

/// Under an accepted configuration exactly one text is the report of an input: every run of bytes
/// has exactly one report, whether they are the whole input or its beginning.
pub fn every_input_has_one_report()
    ensures { (settings : Settings) (bytes : Bytes) (ended : Bool) → IsAccepted settings
        → HasOne (IsReportOf settings bytes ended) }
{}

/// What a report says to be clear is clear in truth. Under an accepted configuration the report of
/// an input is the text of each event; and what that of an ended moment says to be clear, by its
/// levels, bands, answers, last times and recoveries, is so for every truth that is within what the
/// moment's reports may err by.
pub fn reports_say_what_is_clear_in_truth()
    ensures { (settings : Settings) (bytes : Bytes) (ended : Bool) (text : Text)
        → IsAccepted settings
        → IsReportOf settings bytes ended text → IsClearReportOf settings bytes ended text }
{}

/// The picture of every moment that an input ends is in range.
pub fn ended_moments_are_in_range()
    ensures { (bytes : Bytes) (ended : Bool) → All IsEventInRange (events_of bytes ended) }
{}

/// A beginning of a report is a beginning of the whole text.
pub fn fronts_begin_reports()
    ensures { (settings : Settings) (bytes : Bytes) (ended : Bool) (front text : Text)
        → IsAccepted settings
        → IsReportFront settings bytes ended front → IsReportOf settings bytes ended text
        → (rest : Text) × (text ≡ front ++ rest) }
{}

/// The events of an input stay the first events if the input goes on, and also if it ends.
pub fn events_only_grow()
    ensures longer { (bytes more : Bytes) → (events : List Event)
        × (events_of (bytes ++ more) false ≡ events_of bytes false ++ events) }
    ensures whole { (bytes : Bytes) → (events : List Event)
        × (events_of bytes true ≡ events_of bytes false ++ events) }
{}

/// An input without a line whose first field is `format` is read as if there were neither that word
/// nor ages, and each of its aircraft has age 0.
pub fn format_lines_alone_matter()
    ensures words { ReadsAsFourWords }
    ensures ages { HasNoAges }
{}

/// An input of which no line says that format 3 follows has no bounds: each of its reports is taken
/// as the truth.
pub fn inputs_without_format_3_have_no_bounds()
    ensures { HasNoBounds }
{}

/// How a run ends, by its words, the shelf and the number of bytes. With an accepted configuration
/// and no fault a replay ends with 0 or 1, or with 8 if there are more bytes than may be read, and
/// an exercise with 0. A comparison with states of at most 65536 bytes and no fault ends with 0 or
/// 1, or with 8 if there are more bytes than may be read and the report begins with those that may
/// be read. Whatever failed, at 0 the bytes are the report and at 1 they are not. With longer
/// states it ends with 5, 7 or 9, without states under the name with 7. With words that are not
/// taken a run ends with 2 or 5, with a refused configuration with 3, 5 or 7, without one under
/// the name with 7. Memory may run out in each case: 6. If the fault counter of the source, the
/// sink or the shelf did not rise, the status is not 4, not 5 or not 7.
pub fn runs_are_complete()
    ensures { RunsAreComplete }
{}

/// If the shelf shows its texts, a command line selects at most one task and one configuration.
pub fn configurations_are_unique()
    ensures { ConfigurationsAreUnique }
{}

/// The events of inputs, at examples.
pub fn worked_examples()
    ensures long_line_once { events_of
        (replicate 300 97) true ≡ Event.Refused 1 LineFault.LongLine ∷ [] }
    ensures end_before_own { events_of (codes "moment 0\nend\nown 0 0 1000 0 3600 0\nend\n") true
        ≡ Event.Refused 2 LineFault.NoOwn
        ∷ Event.Ended (record {
          time = 0;
          own = record {
            x = pos 0;
            y = pos 0;
            alt = pos 1000;
            trk = pos 0;
            gs = pos 3600;
            vs = pos 0;
          };
          traffic = record { items = [] };
        }) ∷ [] }
    ensures unfinished { events_of
        (codes "moment 5\nown 0 0 1000 0 3600 0") true ≡ Event.Refused 3 LineFault.Unfinished ∷ [] }
    ensures not_unfinished_yet { events_of (codes "moment 5\nown 0 0 1000 0 3600 0\n") false ≡ [] }
    ensures format_while_open { events_of
        (codes "format 2\nmoment 1\nformat 1\n") false ≡ Event.Refused 3 LineFault.MomentOpen ∷ [] }
{}
