//! How a run ends, and the line that is written if start-up failed.

ghost use Rattle.std.specs.Prelude.{◌≡◌, OnErr, OnOk};
ghost use Rattle.daa_replay.specs.Inside.Status.{WritesCode, WritesReason, code_of};
ghost use Rattle.daa_config.specs.Fault as config_fault;
ghost use Rattle.daa_ahead.specs.Bytes.{stream_state};

use crate::opening::Unready;
use daa_config::ConfigFault;
use daa_io::Sink;
use daa_report::{SinkFault, put, write_config};

/// How a run ended.
#[derive(Clone, Copy, Debug, PartialEq, Eq)]
pub(crate) enum Status {
    /// The input was read to its end, and no line was refused; or a report is the right one.
    Accepted,
    /// The input was read to its end, and some line was refused; or a report differs from the right
    /// one.
    Refused,
    /// The command words are not taken.
    NotTaken,
    /// The configuration is refused.
    BadConfiguration,
    /// The source failed.
    SourceFault,
    /// The sink failed.
    SinkFault,
    /// There was no memory for the start-up.
    NoMemory,
    /// The shelf failed, or holds nothing under a name.
    ShelfFault,
    /// The limit of bytes was read, and there was one more.
    Limit,
    /// The states are too long.
    StatesLong,
}

impl Status {
    /// The status with which the process ends.
    pub(crate) fn code(self) -> u8
        ensures { result ≡ code_of self }
    {
        match self {
            Status::Accepted => 0,
            Status::Refused => 1,
            Status::NotTaken => 2,
            Status::BadConfiguration => 3,
            Status::SourceFault => 4,
            Status::SinkFault => 5,
            Status::NoMemory => 6,
            Status::ShelfFault => 7,
            Status::Limit => 8,
            Status::StatesLong => 9,
        }
    }
}

/// This status if a text was written, and a fault of the sink if it was not.
pub(crate) fn status_of(written: Result<(), SinkFault>, status: Status) -> Status
    ensures whole { OnOk written (result ≡ status) }
    ensures broken { OnErr written (result ≡ Status.SinkFault) }
{
    match written {
        Ok(()) => status,
        Err(SinkFault) => Status::SinkFault,
    }
}

/// The line for command words that are not taken.
const USAGE: &[u8] =
    b"usage: daidalus replay --config FILE [--workers N] [--ahead N] | exercise --config FILE --seed N --moments M [--workers N] | judge --config FILE --states FILE [--workers N]\n";

/// The line for states that are too long.
const LONG: &[u8] = b"states long\n";

/// Writes the code of a refused configuration. The one fault without a code says that memory ran
/// out.
fn write_code<K: Sink>(fault: ConfigFault, sink: &mut K) -> Status
    ensures { WritesCode (config_fault.code_of fault)
        (stream_state (K.taken sink.old) (K.faults sink.old))
        (stream_state (K.taken sink.new) (K.faults sink.new)) result }
{
    match fault.code() {
        Some(code) => status_of(write_config(sink, code), Status::BadConfiguration),
        None => Status::NoMemory,
    }
}

/// Start-up failed: writes the usage line, `states long` or the code of a refused configuration,
/// and returns the status.
pub(crate) fn write_reason<K: Sink>(why: Unready, sink: &mut K) -> Status
    ensures { WritesReason why (stream_state (K.taken sink.old) (K.faults sink.old))
        (stream_state (K.taken sink.new) (K.faults sink.new)) result }
{
    match why {
        Unready::NotTaken => status_of(put(sink, USAGE), Status::NotTaken),
        Unready::Refused(fault) => write_code(fault, sink),
        Unready::StatesLong => status_of(put(sink, LONG), Status::StatesLong),
        Unready::ShelfFault => Status::ShelfFault,
        Unready::NoMemory => Status::NoMemory,
    }
}
