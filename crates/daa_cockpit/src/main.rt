//! Screens of one flight. A feed publishes each moment as soon as its last line comes on standard
//! input. One to four displays, each in a thread of its own, look at their own pace and draw the
//! latest moment that they see: in place on a terminal, and else as lines. No display waits for
//! another, nor for the feed. At the end the program says how many pictures each has drawn.
//! The command line names the configuration, and what the displays show:
//! `daa_cockpit CONFIG [plan] [bands] [advice] [alerts] < STATES`; all four, where it names none.
#![tactic(auto)]

mod display;
mod feeding;
mod flight_deck;
mod plan;
mod start;
mod view;

use crate::display::Display;
use anyhow::Result;
use std::io::{self, BufRead, BufReader, IsTerminal};

/// Clears a terminal.
const CLEAR: &str = "\x1b[H\x1b[2J";

/// Prints how many pictures each display has drawn, if all was shown.
fn print_counts(
    rt: &impl Print,
    shown: Result<()>,
    displays: &[Display],
    published: u64,
) -> Result<()> {
    shown?;
    for display in displays {
        let (name, count) = (display.view.name(), display.count);
        println!(rt; "{name} drew {count} of {published} pictures")?;
    }
    Ok(())
}

/// Shows the moments of standard input as they come.
fn main(rt: HostRuntime) -> Result<()> {
    let alloc = rt.alloc();
    let asked = start::what_is_asked(&rt)?;
    let mut lines = BufReader::new(alloc, rt.reader())?.lines(alloc);
    let on_terminal = rt.stdout().is_terminal();
    if on_terminal {
        print!(rt; "{CLEAR}")?;
    }
    let (mut feed, mut displays) = start::open(
        &rt,
        alloc,
        asked.config.as_str(),
        asked.views.as_slice(),
        on_terminal,
    )?;
    let shown = flight_deck::show(&rt, alloc, &mut lines, &mut feed, displays.as_mut_slice());
    let published = feed.published();
    feed.close(&rt);
    print_counts(&rt, shown, displays.as_slice(), published)
}
