//! Making the feed and the displays.

ghost use Rattle.std.specs.Prelude.{◌≡◌, [], IfOk, Ok};
ghost use Rattle.std.specs.List.{All};
ghost use Rattle.daa_config.specs.ConfigOf.{config_of};

use crate::display::{Display, Place, blank};
use crate::view::{VIEWS, View};
use anyhow::{Result, anyhow, bail};
use daa_config::read;
use daa_engine::Engine;
use daa_screen::{Feed, Screen};
use std::alloc::Global;
use std::rt::{Env, Files};
use std::sync::Wait;
use std::{env, fs};

/// The most screens of a feed here.
pub const MOST_SCREENS: usize = 4;

/// What the command line asks for: the text of a configuration, and what the screens show.
#[derive(Drop)]
pub struct Asked {
    pub config: String,
    pub views: Vec<View>,
}

/// The view of this name, if it is not among these.
fn new_view(views: &[View], name: &str) -> Result<View> {
    for view in VIEWS {
        if view.name() == name {
            if views.contains(&view) {
                bail!("a screen is named twice");
            }
            return Ok(view);
        }
    }
    bail!("a screen is plan, bands, advice or alerts");
}

/// The text of the configuration that the command line names, and the views that it names behind
/// it, or all views. `Err` says that no configuration is named, that its file could not be read,
/// or that a word is no view or names one once more.
pub fn what_is_asked<R: Env + Files + AllocGlobal>(rt: &R) -> Result<Asked> {
    let mut words = env::args(rt)?;
    let _program = words.next();
    let Some(name) = words.next() else {
        bail!("the name of a configuration is missing");
    };
    let mut views = Vec::new(rt.alloc());
    for word in words {
        views.push(new_view(views.as_slice(), word.as_str())?)?;
    }
    if views.is_empty() {
        views = Vec::from_array(rt.alloc(), VIEWS)?;
    }
    Ok(Asked {
        config: fs::read_to_string(rt, name.as_str())?,
        views,
    })
}

/// An engine of one worker under this configuration.
fn new_engine(alloc: Global, config: &str) -> Result<Engine>
    ensures settings { IfOk result (λ engine. config_of config.now ≡ Ok engine.settings) }
    ensures workers { IfOk result (λ engine. engine.workers ≡ 1) }
{
    match read(alloc, config.as_bytes()) {
        Ok(config) => Engine::new(alloc, config, 1).map_err(|_| anyhow!("no memory")),
        Err(fault) => bail!("the configuration is refused with code {:?}", fault.code()),
    }
}

/// A display of a view, which has shown nothing yet.
fn new_display(
    alloc: Global,
    config: &str,
    screen: Screen,
    view: View,
    place: Option<Place>,
) -> Result<Display>
    ensures screen { IfOk result (λ display. display.screen ≡ screen) }
    ensures engine { IfOk result (λ display. config_of config.now ≡ Ok display.engine.settings) }
{
    Ok(Display {
        screen,
        engine: new_engine(alloc, config)?,
        drawing: blank(alloc)?,
        view,
        place,
        shown: 0,
        count: 0,
    })
}

/// The first row below all views.
fn row_below(views: &[View]) -> u32 {
    let mut row = 1u32;
    for view in views {
        row = row.saturating_add(view.height());
    }
    row
}

/// A display for each screen, as far as there are views, one below the other on a terminal.
fn new_displays(
    alloc: Global,
    config: &str,
    feed: &Feed,
    screens: Vec<Screen>,
    views: &[View],
    on_terminal: bool,
) -> Result<Vec<Display>>
    requires { All (λ screen. screen ≡ feed.now.story) screens.items }
    ensures screens { IfOk result (λ made. All (λ d. d.screen ≡ feed.now.story) made.items) }
    ensures engines { IfOk result
        (λ made. All (λ d. config_of config.now ≡ Ok d.engine.settings) made.items) }
{
    let mut screens = screens;
    let mut displays = Vec::new(alloc);
    let cursor = row_below(views);
    let mut top = 1u32;
    for view in views {
        let Some(screen) = screens.pop() else {
            break;
        };
        let place = on_terminal.then_some(Place { top, cursor });
        displays.push(new_display(alloc, config, screen, *view, place)?)?;
        top = top.saturating_add(view.height());
    }
    Ok(displays)
}

/// A feed to which nothing was published, and a display on it for each view, each with an engine of
/// its own under this configuration. `Err` says that there are no or too many views, that the
/// configuration is refused, or that there was no memory.
pub fn open<W: Wait>(
    rt: &W,
    alloc: Global,
    config: &str,
    views: &[View],
    on_terminal: bool,
) -> Result<(Feed, Vec<Display>)>
    ensures nothing { IfOk result (λ opened. opened.0.story.pictures ≡ []) }
    ensures screens { IfOk result
        (λ opened. All (λ display. display.screen ≡ opened.0.story) opened.1.items) }
    ensures engines { IfOk result (λ opened. All
        (λ display. config_of config.now ≡ Ok display.engine.settings) opened.1.items) }
{
    let count = views.len();
    if count == 0 || count > MOST_SCREENS {
        bail!("there are 1 to 4 screens");
    }
    let Ok((feed, screens)) = Feed::open(rt, alloc, count) else {
        bail!("no memory");
    };
    match new_displays(alloc, config, &feed, screens, views, on_terminal) {
        Ok(displays) => Ok((feed, displays)),
        Err(fault) => {
            feed.close(rt);
            Err(fault)
        }
    }
}
