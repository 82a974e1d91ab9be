//! The displays together.

ghost use Rattle.std.specs.Prelude.{◌≡◌, OnOk, Ok};
ghost use Rattle.std.specs.Iterator.{Drains, IsFinite};
ghost use Rattle.std.specs.List.{All};
ghost use Rattle.std.specs.Thread.{IsSync};
ghost use Rattle.daa_cockpit.specs.Inside.Reads.{pictures_after};
ghost use Rattle.daa_cockpit.specs.Inside.Shows.{IsSameDisplay, AllSame, AllShow};

use crate::display::Display;
use crate::feeding::publish_lines;
use crate::start::MOST_SCREENS;
use anyhow::Result;
use daa_screen::Feed;
use std::alloc::Global;
use std::io;
use std::sync::Wait;
use std::sync::atomic::{AtomicBool, Ordering};
use std::thread::{self, Threads, join_mut};
use std::time::Clock;

/// Each display looks, in a thread of its own and at its own pace, until the feed has ended.
fn watch_all<R: Threads + Print + Clock + Sync>(
    rt: &R,
    alloc: Global,
    displays: &mut [Display],
    ended: &AtomicBool,
)
    ensures { AllSame displays.old displays.new }
{
    thread::for_each_mut(
        rt,
        displays,
        MOST_SCREENS,
        &|_place: usize, display: &mut Display|
            requires { IsSync R.row }
            ensures { IsSameDisplay display.entry.now display.exit.now }
        { display.watch(rt, alloc, ended) },
    );
}

/// Publishes the moments of the lines as they come while the displays look. They look until all is
/// published: so where no thread can be started for them, this one publishes first.
fn publish_and_watch<
    R: Threads + Wait + Print + Clock + Sync,
    I: Iterator<Item = io::Result<String>>,
>(rt: &R, alloc: Global, lines: &mut I, feed: &mut Feed, displays: &mut [Display]) -> Result<()>
    requires lines { I.can_next lines.old × IsFinite (I.remaining lines.old) }
    ensures published { OnOk result ((items : _) × Drains I.next_gives lines.old items
        × (pictures_after feed.old.story.pictures items ≡ Ok feed.new.story.pictures)) }
    ensures feed { feed.new.story.feed ≡ feed.old.story.feed }
    ensures displays { AllSame displays.old displays.new }
{
    let ended = AtomicBool::new(false);
    let ((), published) = join_mut(
        rt,
        &mut || watch_all(rt, alloc, displays, &ended),
        &mut || -> Result<()>
            requires { I.can_next lines.now × IsFinite (I.remaining lines.now) }
        {
            let published = publish_lines(rt, lines, feed, &ended);
            ended.store(true, Ordering::SeqCst);
            published
        },
    );
    published
}

/// Each display draws and shows the last picture.
fn catch_up_all<R: Threads + Print + Sync>(
    rt: &R,
    alloc: Global,
    feed: &Feed,
    displays: &mut [Display],
) -> Result<()>
    requires { All (λ display. display.screen.feed ≡ feed.now.story.feed) displays.old }
    ensures { OnOk result (AllShow displays.old feed.now.story displays.new) }
{
    for display in displays.iter_mut() {
        display.catch_up(rt, alloc, feed)?;
    }
    Ok(())
}

/// Publishes the moments of the lines as they come while the displays look. At the end each
/// display's screen has seen what was published, and its drawing is the text of the last picture.
/// `Err` says that the lines could not be published whole, or that a display could not draw or
/// write.
pub fn show<R: Threads + Wait + Print + Clock + Sync, I: Iterator<Item = io::Result<String>>>(
    rt: &R,
    alloc: Global,
    lines: &mut I,
    feed: &mut Feed,
    displays: &mut [Display],
) -> Result<()>
    requires lines { I.can_next lines.old × IsFinite (I.remaining lines.old) }
    requires displays { All (λ display. display.screen.feed ≡ feed.old.story.feed) displays.old }
    ensures published { OnOk result ((items : _) × Drains I.next_gives lines.old items
        × (pictures_after feed.old.story.pictures items ≡ Ok feed.new.story.pictures)) }
    ensures shown { OnOk result (AllShow displays.old feed.new.story displays.new) }
{
    publish_and_watch(rt, alloc, lines, feed, displays)?;
    catch_up_all(rt, alloc, feed, displays)
}
