//! Publishing the moments of lines as they come.

ghost use Rattle.std.specs.Prelude.{◌≡◌, ◌+◌, ◌^◌, ◌<◌, length, IfOk, IfSome, OnOk, Ok};
ghost use Rattle.std.specs.Iterator.{Drains, IsFinite};
ghost use Rattle.daa_state.specs.InRange.{IsPictureInRange};
ghost use Rattle.daa_state.specs.MomentStep.{stepped, finished};
ghost use Rattle.daa_screen.specs.Story.{with_picture};
ghost use Rattle.daa_cockpit.specs.Inside.Reads.{read, line_step, read_more, pictures_after};

use anyhow::{Result, bail};
use daa_screen::Feed;
use daa_state::{LineFault, Moments, Picture, read_line};
use std::io;
use std::sync::Wait;
use std::sync::atomic::{AtomicBool, Ordering};

/// The picture, if the line ends a moment.
fn take_line(moments: &mut Moments, line: &str) -> std::result::Result<Option<Picture>, LineFault>
    ensures step { IfOk result
        (λ picture. line_step moments.old line.now ≡ Ok (stepped moments.new picture)) }
    ensures range { IfOk result (λ picture. IfSome picture IsPictureInRange) }
{
    let word = read_line(line.as_bytes(), moments.format())?;
    moments.take(word)
}

/// Publishes the picture.
fn publish<W: Wait>(rt: &W, feed: &mut Feed, picture: &Picture) -> Result<()>
    requires { IsPictureInRange picture.now }
    ensures published { OnOk result (feed.new.story ≡ with_picture feed.old.story picture.now) }
    ensures feed { feed.new.story.feed ≡ feed.old.story.feed }
{
    if feed.published() == u64::MAX || feed.publish(rt, picture).is_err() {
        bail!("there is no room for a picture");
    }
    Ok(())
}

/// Takes a line, and publishes the picture where it ends a moment.
fn publish_line<W: Wait>(rt: &W, moments: &mut Moments, line: &str, feed: &mut Feed) -> Result<()>
    ensures read { OnOk result
        (read_more (Ok (read moments.old feed.old.story.pictures)) line.now
        ≡ Ok (read moments.new feed.new.story.pictures)) }
    ensures feed { feed.new.story.feed ≡ feed.old.story.feed }
{
    match take_line(moments, line) {
        Ok(None) => Ok(()),
        Ok(Some(picture)) => publish(rt, feed, &picture),
        Err(fault) => bail!("a line is refused with code {}", fault.code()),
    }
}

/// `Err` says that the last moment does not end.
fn finish(moments: &Moments) -> Result<()>
    ensures { OnOk result (finished moments.now ≡ Ok tt) }
{
    if moments.finish().is_err() {
        bail!("the last moment does not end");
    }
    Ok(())
}

/// Publishes the picture of each moment that a line ends, as soon as that line comes, in the order
/// of the lines, and at `Ok` nothing else. `Err` is for a line that cannot be read or is refused, a
/// last moment that does not end, no room for a picture, and a screen that has ended the feed; no
/// clause says so, nor what is published by then.
pub fn publish_lines<W: Wait, I: Iterator<Item = io::Result<String>>>(
    rt: &W,
    lines: &mut I,
    feed: &mut Feed,
    ended: &AtomicBool,
) -> Result<()>
    requires { I.can_next lines.old × IsFinite (I.remaining lines.old) }
    ensures published { OnOk result ((items : _) × Drains I.next_gives lines.old items
        × (pictures_after feed.old.story.pictures items ≡ Ok feed.new.story.pictures)) }
    ensures feed { feed.new.story.feed ≡ feed.old.story.feed }
{
    let mut moments = Moments::new();
    for _ in 0..u64::MAX {
        let Some(line) = lines.next() else {
            return finish(&moments);
        };
        let line = line?;
        publish_line(rt, &mut moments, line.as_str(), feed)?;
        if ended.load(Ordering::SeqCst) {
            bail!("a screen could not be drawn");
        }
    }
    bail!("there are too many lines");
}
