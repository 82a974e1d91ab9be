//! Writes the text of an event: a line of a refusal, or the lines of an ended moment.

ghost use Rattle.std.specs.Prelude.{◌≡◌, ◌≤◌, [], ◌∷◌, length, codes};
ghost use Rattle.daa_engine.specs.Longest.{longest_moment};
ghost use Rattle.daa_report.specs.Lines.{Text, numbers_line};
ghost use Rattle.daa_replay.specs.Lines.{IsEventInRange};
ghost use Rattle.daa_report.specs.Says.{Says, SaysSome};
ghost use Rattle.daa_replay.specs.Moment.{IsEventText};

use crate::lines::Event;
use daa_engine::Engine;
use daa_io::{Gate, Sink};
use daa_report::{Line, SinkFault, put};
use std::alloc::Global;
use std::thread::Threads;

/// The threads that the workers run in, memory, and the gate that each worker passes.
#[derive(Drop)]
pub(crate) struct Context<'a, R, G> {
    pub(crate) rt: &'a R,
    pub(crate) alloc: Global,
    pub(crate) gate: &'a G,
}

/// Writes the line of a refusal.
pub(crate) fn write_refusal<K: Sink>(sink: &mut K, number: u64, code: u8) -> Result<(), SinkFault>
    ensures says { Says (K.taken sink.old) (K.taken sink.new) (K.faults sink.old)
        (K.faults sink.new) (numbers_line (codes "refused") (number ∷ code ∷ [])) result }
    ensures short { length (numbers_line (codes "refused") (number ∷ code ∷ [])) ≤ 64 }
{
    let line = Line::refused(number, code);
    put(sink, line.as_bytes())
}

/// Writes the text of an event: the line of a refusal, or the lines of an ended moment.
pub(crate) fn write_event<R: Threads + Sync, K: Sink, G: Gate>(
    context: &Context<'_, R, G>,
    engine: &mut Engine,
    sink: &mut K,
    event: &Event,
) -> Result<(), SinkFault>
    requires { IsEventInRange event.now }
    ensures kept { engine.new.settings ≡ engine.old.settings }
    ensures short { (text : Text) → IsEventText engine.old.settings event.now text
        → length text ≤ longest_moment }
    ensures says { SaysSome (IsEventText engine.old.settings event.now) (K.taken sink.old)
        (K.taken sink.new) (K.faults sink.old) (K.faults sink.new) result }
{
    match event {
        Event::Refused(number, fault) => write_refusal(sink, *number, fault.code()),
        Event::Ended(picture) => engine.report(
            context.rt,
            context.alloc,
            picture,
            sink,
            context.gate,
        ),
    }
}

/// Writes the text of an event, in the caller's thread.
pub(crate) fn write_event_alone<K: Sink>(
    engine: &mut Engine,
    sink: &mut K,
    event: &Event,
) -> Result<(), SinkFault>
    requires { IsEventInRange event.now }
    ensures kept { engine.new.settings ≡ engine.old.settings }
    ensures short { (text : Text) → IsEventText engine.old.settings event.now text
        → length text ≤ longest_moment }
    ensures says { SaysSome (IsEventText engine.old.settings event.now) (K.taken sink.old)
        (K.taken sink.new) (K.faults sink.old) (K.faults sink.new) result }
{
    match event {
        Event::Refused(number, fault) => write_refusal(sink, *number, fault.code()),
        Event::Ended(picture) => engine.report_alone(picture, sink),
    }
}
