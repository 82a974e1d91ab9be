//! A display: a screen, an engine that writes for it, what it drew last, and where it is shown.

ghost use Rattle.std.specs.Prelude.{◌≡◌, ◌≤◌, [], IsTrue, IsFalse, IfOk, OnOk};
ghost use Rattle.daa_screen.specs.Story.{GoesOn};
ghost use Rattle.daa_cockpit.specs.Inside.Shows.{IsDrawn, ShowsAll, IsSameDisplay};

use crate::view::{View, frame_of, lines_of, rows_of};
use anyhow::{Result, bail};
use daa_engine::Engine;
use daa_io::{MemSink, Open};
use daa_screen::{Feed, Screen};
use std::alloc::{AllocError, Global};
use std::io::{self, Write};
use std::str;
use std::sync::atomic::{AtomicBool, Ordering};
use std::thread::{self, Threads};
use std::time::Clock;

/// The most bytes of a moment's text.
const ROOM: usize = 130_176;

/// Where on a terminal a display is: its first row, and the row in which the cursor rests.
#[derive(Clone, Copy, Debug)]
pub struct Place {
    pub top: u32,
    pub cursor: u32,
}

/// A display: its screen, the engine that writes for it, the text that was drawn last, what it
/// shows of that, where on a terminal, the number of the picture that it shows, or 0, and how many
/// it has shown.
#[derive(Drop)]
pub struct Display {
    pub screen: Screen,
    pub engine: Engine,
    pub drawing: MemSink,
    pub view: View,
    pub place: Option<Place>,
    pub shown: u64,
    pub count: u64,
}

/// A sheet on which nothing is drawn.
pub fn blank(alloc: Global) -> std::result::Result<MemSink, AllocError>
    ensures { IfOk result (λ sheet. sheet.taken ≡ []) }
{
    Ok(MemSink::over(vec![in alloc; 0; ROOM]?, Vec::new(alloc), Vec::new(alloc)))
}

/// The screen is told of all that was published.
fn tell_all(feed: &Feed, screen: &mut Screen)
    requires { screen.old.feed ≡ feed.now.story.feed }
    ensures { GoesOn feed.now.story screen.new }
{
    screen.learn(feed.tell());
}

impl Display {
    /// Draws what the screen sees, and returns true. If there was no memory for a drawing, or the
    /// text does not fit on one, the last drawing stays, and this returns false.
    fn draw<R: Threads + Sync>(&mut self, rt: &R, alloc: Global) -> bool
        ensures seen { GoesOn self.old.screen self.new.screen }
        ensures drawn { IsTrue result → IsDrawn self.old.engine.settings self.new }
        ensures stays { IsFalse result → self.new.drawing ≡ self.old.drawing }
        ensures settings { self.new.engine.settings ≡ self.old.engine.settings }
    {
        let Ok(mut drawing) = blank(alloc) else {
            return false;
        };
        let answered = self
            .screen
            .ask(rt, alloc, &mut self.engine, &mut drawing, &Open);
        if answered.is_err() {
            return false;
        }
        self.put_up(drawing);
        true
    }

    /// Keeps the drawing in place of the last one.
    fn put_up(&mut self, drawing: MemSink)
        ensures { self.new ≡ record self.old { drawing = drawing } }
    {
        self.drawing = drawing;
    }

    /// What its view shows of the drawing, as it is written: on a terminal in its place, and else
    /// as lines. Nothing, where no picture was seen.
    fn shown_text(&self, alloc: Global) -> Result<String> {
        let Some(picture) = self.screen.picture() else {
            return Ok(String::new(alloc));
        };
        let text = str::from_utf8(self.drawing.taken())?;
        let rows = rows_of(alloc, self.view, self.screen.seen(), picture, text)?;
        let height = self.view.height();
        Ok(match self.place {
            None => lines_of(alloc, rows.as_slice())?,
            Some(place) => frame_of(alloc, rows.as_slice(), place.top, height, place.cursor)?,
        })
    }

    /// Counts the picture as shown.
    fn count_shown(&mut self)
        ensures { self.new ≡ record self.old { shown = self.new.shown; count = self.new.count } }
    {
        self.shown = self.screen.seen();
        self.count = self.count.saturating_add(1);
    }

    /// Writes what its view shows of the drawing, by one write, if that is another picture than it
    /// shows.
    fn show<R: Print>(&mut self, rt: &R, alloc: Global) -> Result<()>
        ensures { self.new ≡ record self.old { shown = self.new.shown; count = self.new.count } }
    {
        if self.screen.seen() > self.shown {
            let text = self.shown_text(alloc)?;
            io::writer(rt).write_all(text.as_bytes())?;
            self.count_shown();
        }
        Ok(())
    }

    /// Looks, and draws and shows what it sees, if that is a later picture than it shows.
    fn look<R: Threads + Print + Sync>(&mut self, rt: &R, alloc: Global) -> Result<()>
        ensures { IsSameDisplay self.old self.new }
    {
        self.screen.look();
        if self.screen.seen() > self.shown {
            if !self.draw(rt, alloc) {
                bail!("a picture could not be drawn");
            }
            self.show(rt, alloc)?;
        }
        Ok(())
    }

    /// Looks at its own pace until the feed has ended, and once more then. If it cannot draw or
    /// write, it ends the feed.
    pub fn watch<R: Threads + Print + Clock + Sync>(
        &mut self,
        rt: &R,
        alloc: Global,
        ended: &AtomicBool,
    )
        ensures { IsSameDisplay self.old self.new }
    {
        for _ in 0..u64::MAX {
            let last = ended.load(Ordering::SeqCst);
            if self.look(rt, alloc).is_err() {
                ended.store(true, Ordering::SeqCst);
                break;
            }
            if last {
                break;
            }
            thread::sleep(rt, self.view.rest());
        }
    }

    /// Whether the screen has seen all pictures that were published, and nothing else.
    #[tactic(auto, using(crate::proofs::WholeStories::goes_on_whole))]
    fn has_all(&self, feed: &Feed) -> bool
        requires { GoesOn feed.now.story self.now.screen }
        ensures { IsTrue result → self.now.screen ≡ feed.now.story }
    {
        self.screen.seen() == feed.published()
    }

    /// Tells the screen of all that was published, and draws and shows the last picture. `Err` says
    /// that it could not be drawn or written, or that the screen had seen more than was published.
    /// At `Ok` the pictures that it had seen are the first of those published.
    pub fn catch_up<R: Threads + Print + Sync>(
        &mut self,
        rt: &R,
        alloc: Global,
        feed: &Feed,
    ) -> Result<()>
        requires { self.old.screen.feed ≡ feed.now.story.feed }
        ensures first { OnOk result (GoesOn self.old.screen feed.now.story) }
        ensures all { OnOk result (ShowsAll self.old.engine.settings feed.now.story self.new) }
    {
        if !feed.compare(&self.screen) {
            bail!("a screen has seen more than was published");
        }
        tell_all(feed, &mut self.screen);
        self.draw_all(rt, alloc, feed)?;
        self.show(rt, alloc)
    }

    /// Draws the last picture that was published, of which the screen was told. `Err` says that it
    /// could not be drawn.
    #[tactic(auto, using(daa_screen::proofs::KeptPictures::goes_on_and_on))]
    fn draw_all<R: Threads + Sync>(&mut self, rt: &R, alloc: Global, feed: &Feed) -> Result<()>
        requires { GoesOn feed.now.story self.old.screen }
        ensures all { OnOk result (ShowsAll self.old.engine.settings feed.now.story self.new) }
    {
        let drawn = self.draw(rt, alloc);
        if drawn && self.has_all(feed) {
            return Ok(());
        }
        bail!("what was published last could not be drawn");
    }
}
