//! Makes a run ready: its command words, the configuration that they name, and the engine.

ghost use Rattle.std.specs.Prelude.{◌≡◌, ◌≢◌, ◌≤◌, map, string_bytes, Err, IfOk};
ghost use Rattle.daa_io.specs.Faults.{HasRisen};
ghost use Rattle.daa_words.specs.Order.{IsInRange, TaskIsInRange, meaning, task_of};
ghost use Rattle.daa_words.specs.Task.{Judge};
ghost use Rattle.daa_engine.specs.EngineState.{IsWorkerCount};
ghost use Rattle.daa_replay.specs.Inside.Opening.{FetchesAs, MakesReady, OpensAs, PreparesAs, ReadsAs, WorkIsInRange, settings_in, unready_of};
ghost use Rattle.daa_replay.specs.Inside.Opening as spec;

use daa_config::{Config, ConfigFault, read};
use daa_engine::{Engine, NoMemory};
use daa_io::{FetchFault, Shelf};
use daa_judge::Sheet;
use daa_words::{Order, Task, WordsFault, read_words};
use std::alloc::Global;
use std::snapshot::Snapshot;
use std::thread::{Builder, Promise, Threads};

/// What a run is to do.
#[derive(Drop)]
pub(crate) enum Work {
    /// Moments are read, by up to `ahead` pieces ahead, and each is decided.
    Replay { ahead: u32 },
    /// `moments` moments are drawn, and each is decided.
    Exercise { seed: u32, moments: u32 },
    /// A report is compared with that of these states, each text of which is written on the sheet
    /// first.
    Judge { states: Vec<u8>, sheet: Sheet },
}

/// What a run is to do, and the engine that does it.
#[derive(Drop)]
pub(crate) struct Ready {
    pub(crate) engine: Engine,
    pub(crate) work: Work,
}

/// Why a run has no configuration.
#[derive(Clone, Copy, Debug, PartialEq, Eq)]
pub(crate) enum Unready {
    /// The command words are not taken.
    NotTaken,
    /// The configuration is refused.
    Refused(ConfigFault),
    /// The states are too long.
    StatesLong,
    /// The shelf failed, or holds nothing under a name.
    ShelfFault,
    /// There was no memory.
    NoMemory,
}

/// How a run with a refused configuration ends.
fn cause_of(fault: ConfigFault) -> Unready
    ensures { result ≡ unready_of fault }
{
    match fault.code() {
        Some(_) => Unready::Refused(fault),
        None => Unready::NoMemory,
    }
}

/// The configuration of the text.
fn read_text(alloc: Global, text: &[u8]) -> Result<Config, Unready>
    ensures { ReadsAs text.now result }
{
    match read(alloc, text) {
        Ok(config) => Ok(config),
        Err(fault) => Err(cause_of(fault)),
    }
}

/// Why there is no text, where one that is too long makes the run `long`.
fn cause_of_fetch(fault: FetchFault, long: Unready) -> Unready
    ensures { result ≡ spec.cause_of_fetch long fault }
{
    match fault {
        FetchFault::TooLong => long,
        FetchFault::Failed => Unready::ShelfFault,
        FetchFault::NoMemory => Unready::NoMemory,
    }
}

/// How many bytes of stack a text is read with: its tree may be so deep that it takes half of them.
const READING_STACK: usize = 4 << 20;

/// The text that a thread reads.
#[derive(Drop)]
struct ReadingOf(Snapshot<Vec<u8>>);

impl Promise<Result<Config, Unready>> for ReadingOf {
    ghost kept_by = { λ reading result. ReadsAs reading.0.value.items result };
}

/// The configuration of the text, read in a thread that has stack enough for any text; or in this
/// thread, if none can be started.
fn read_apart<R: Threads>(rt: &R, alloc: Global, text: Vec<u8>) -> Result<Config, Unready>
    ensures { ReadsAs text.items result }
{
    let promise = ReadingOf(Snapshot::of(&text));
    let reading = Builder::new()
        .stack_size(READING_STACK)
        .spawn_with(rt, promise, move || read_text(alloc, text.as_slice()));
    match reading {
        Ok(thread) => thread.join(rt),
        Err(refused) => (refused.value)(),
    }
}

/// The configuration that the shelf holds under the name.
fn fetch<R: Threads, F: Shelf>(
    rt: &R,
    alloc: Global,
    shelf: &mut F,
    name: &str,
) -> Result<Config, Unready>
    ensures fetched { FetchesAs (F.texts shelf.old) name.now result }
    ensures risen { result ≡ Err Unready.ShelfFault
        → HasRisen (F.faults shelf.old) (F.faults shelf.new) }
    ensures never_falls { F.faults shelf.old ≤ F.faults shelf.new }
    ensures no_fault { result ≢ Err Unready.ShelfFault → F.faults shelf.new ≡ F.faults shelf.old }
    ensures kept { F.texts shelf.new ≡ F.texts shelf.old }
{
    match shelf.fetch(alloc, name) {
        Ok(text) => read_apart(rt, alloc, text),
        Err(fault) => Err(cause_of_fetch(fault, cause_of(ConfigFault::TooLong))),
    }
}

/// The engine of the configuration that the shelf holds under the name, with `workers` workers.
fn fetch_engine<R: Threads, F: Shelf>(
    rt: &R,
    alloc: Global,
    shelf: &mut F,
    name: &str,
    workers: u32,
) -> Result<Engine, Unready>
    requires { IsWorkerCount workers }
    ensures fetched { FetchesAs (F.texts shelf.old) name.now (settings_in result) }
    ensures workers { IfOk result (λ engine. engine.workers ≡ workers) }
    ensures risen { result ≡ Err Unready.ShelfFault
        → HasRisen (F.faults shelf.old) (F.faults shelf.new) }
    ensures never_falls { F.faults shelf.old ≤ F.faults shelf.new }
    ensures no_fault { result ≢ Err Unready.ShelfFault → F.faults shelf.new ≡ F.faults shelf.old }
    ensures kept { F.texts shelf.new ≡ F.texts shelf.old }
{
    match fetch(rt, alloc, shelf, name) {
        Ok(config) => match Engine::new(alloc, config, workers) {
            Ok(engine) => Ok(engine),
            Err(NoMemory) => Err(Unready::NoMemory),
        },
        Err(why) => Err(why),
    }
}

/// A comparison with the report of the states that the shelf holds under the name.
fn fetch_states<F: Shelf>(alloc: Global, shelf: &mut F, name: &str) -> Result<Work, Unready>
    ensures prepared { PreparesAs (F.texts shelf.old) (Judge name.now) result }
    ensures risen { result ≡ Err Unready.ShelfFault
        → HasRisen (F.faults shelf.old) (F.faults shelf.new) }
    ensures never_falls { F.faults shelf.old ≤ F.faults shelf.new }
    ensures no_fault { result ≢ Err Unready.ShelfFault → F.faults shelf.new ≡ F.faults shelf.old }
    ensures kept { F.texts shelf.new ≡ F.texts shelf.old }
{
    match shelf.fetch(alloc, name) {
        Ok(states) => match Sheet::new(alloc) {
            Ok(sheet) => Ok(Work::Judge { states, sheet }),
            Err(_) => Err(Unready::NoMemory),
        },
        Err(fault) => Err(cause_of_fetch(fault, Unready::StatesLong)),
    }
}

/// Makes the work of a task ready.
fn prepare<F: Shelf>(alloc: Global, shelf: &mut F, task: &Task<'_>) -> Result<Work, Unready>
    requires { TaskIsInRange (task_of task.now) }
    ensures prepared { PreparesAs (F.texts shelf.old) (task_of task.now) result }
    ensures in_range { IfOk result WorkIsInRange }
    ensures risen { result ≡ Err Unready.ShelfFault
        → HasRisen (F.faults shelf.old) (F.faults shelf.new) }
    ensures never_falls { F.faults shelf.old ≤ F.faults shelf.new }
    ensures no_fault { result ≢ Err Unready.ShelfFault → F.faults shelf.new ≡ F.faults shelf.old }
    ensures kept { F.texts shelf.new ≡ F.texts shelf.old }
{
    match task {
        Task::Replay { ahead } => Ok(Work::Replay { ahead: *ahead }),
        Task::Exercise { seed, moments } => Ok(Work::Exercise {
            seed: *seed,
            moments: *moments,
        }),
        Task::Judge { states } => fetch_states(alloc, shelf, states),
    }
}

/// The engine of the configuration that the shelf holds under the order's name, with the order's
/// workers, and the work of its task.
fn make_ready<R: Threads, F: Shelf>(
    rt: &R,
    alloc: Global,
    order: &Order<'_>,
    shelf: &mut F,
) -> Result<Ready, Unready>
    requires { IsInRange (meaning order.now) }
    ensures made { MakesReady (F.texts shelf.old) (meaning order.now) result }
    ensures in_range { IfOk result (λ ready. WorkIsInRange ready.work) }
    ensures workers { IfOk result (λ ready. ready.engine.workers ≡ order.now.workers) }
    ensures risen { result ≡ Err Unready.ShelfFault
        → HasRisen (F.faults shelf.old) (F.faults shelf.new) }
    ensures never_falls { F.faults shelf.old ≤ F.faults shelf.new }
    ensures no_fault { result ≢ Err Unready.ShelfFault → F.faults shelf.new ≡ F.faults shelf.old }
    ensures kept { F.texts shelf.new ≡ F.texts shelf.old }
{
    let engine = fetch_engine(rt, alloc, shelf, order.config, order.workers)?;
    match prepare(alloc, shelf, &order.task) {
        Ok(work) => Ok(Ready { engine, work }),
        Err(why) => Err(why),
    }
}

/// The work that the words ask for, and the engine of the configuration that they and the shelf
/// give.
pub(crate) fn open<R: Threads, F: Shelf>(
    rt: &R,
    alloc: Global,
    words: &[String],
    shelf: &mut F,
) -> Result<Ready, Unready>
    ensures opened { OpensAs (map string_bytes words.now) (F.texts shelf.old) result }
    ensures in_range { IfOk result (λ ready. WorkIsInRange ready.work) }
    ensures risen { result ≡ Err Unready.ShelfFault
        → HasRisen (F.faults shelf.old) (F.faults shelf.new) }
    ensures never_falls { F.faults shelf.old ≤ F.faults shelf.new }
    ensures no_fault { result ≢ Err Unready.ShelfFault → F.faults shelf.new ≡ F.faults shelf.old }
    ensures kept { F.texts shelf.new ≡ F.texts shelf.old }
{
    match read_words(alloc, words) {
        Ok(order) => make_ready(rt, alloc, &order, shelf),
        Err(WordsFault::NotTaken) => Err(Unready::NotTaken),
        Err(WordsFault::NoMemory) => Err(Unready::NoMemory),
    }
}
