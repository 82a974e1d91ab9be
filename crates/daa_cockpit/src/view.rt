//! What a screen shows of a picture, in rows.

use crate::plan::push_plan;
use daa_state::Picture;
use std::alloc::{AllocError, Global};
use std::time::Duration;

/// The most characters of a row.
const COLUMNS: usize = 79;

/// What a screen shows.
#[derive(Clone, Copy, Debug, PartialEq, Eq)]
pub enum View {
    /// Where the aircraft are, seen from above, and a list of them.
    Plan,
    /// The bands of each kind.
    Bands,
    /// What is advised for each kind.
    Advice,
    /// The alert of each aircraft.
    Alerts,
}

/// All views, from the top of a terminal down.
pub const VIEWS: [View; 4] = [View::Plan, View::Bands, View::Advice, View::Alerts];

impl View {
    /// The word by which a command line names it.
    pub fn name(self) -> &'static str {
        match self {
            View::Plan => "plan",
            View::Bands => "bands",
            View::Advice => "advice",
            View::Alerts => "alerts",
        }
    }

    /// How many rows it has at most, with its title.
    pub fn height(self) -> u32 {
        match self {
            View::Plan => 9,
            View::Bands => 5,
            View::Advice => 7,
            View::Alerts => 2,
        }
    }

    /// How long it rests between two looks.
    pub fn rest(self) -> Duration {
        Duration::from_millis(match self {
            View::Plan => 50,
            View::Bands => 100,
            View::Advice => 150,
            View::Alerts => 200,
        })
    }

    /// The row in which it shows a line of a report, and what it shows of that line.
    fn place(self, line: &str) -> Option<(&str, &str)> {
        let (word, rest) = line.split_once(' ')?;
        match (self, word) {
            (View::Bands, "track" | "gs" | "vs" | "alt") => Some((word, rest)),
            (View::Advice, "resolve") => rest.split_once(' '),
            (View::Advice, "last" | "recover") | (View::Alerts, "alert") => Some((word, rest)),
            _ => None,
        }
    }
}

/// Adds to the row that begins with this word, or begins one.
fn push_part(
    alloc: Global,
    rows: &mut Vec<String>,
    word: &str,
    part: &str,
) -> Result<(), AllocError> {
    for row in rows.iter_mut() {
        if row.split_once(' ').is_some_and(|(first, _)| first == word) {
            row.push_str(", ")?;
            return row.push_str(part);
        }
    }
    rows.push(format!(in alloc; "{word} {part}")?)?;
    Ok(())
}

/// What a view shows of a picture and of the text of its moment.
pub fn rows_of(
    alloc: Global,
    view: View,
    number: u64,
    picture: &Picture,
    text: &str,
) -> Result<Vec<String>, AllocError> {
    let name = view.name();
    let time = picture.time;
    let title = format!(in alloc; "{name} {number}: moment {time}")?;
    let mut rows = Vec::new(alloc);
    if view == View::Plan {
        push_plan(alloc, &mut rows, &title, picture)?;
        return Ok(rows);
    }
    rows.push(title)?;
    let mut parts = Vec::new(alloc);
    for line in text.lines() {
        if let Some((word, part)) = view.place(line) {
            push_part(alloc, &mut parts, word, part)?;
        }
    }
    rows.append(&mut parts)?;
    Ok(rows)
}

/// Adds a row to the text, without what would leave it: a control character shows as `?`, and a row
/// that is too long ends with `>`.
fn push_row(text: &mut String, row: &str) -> Result<(), AllocError> {
    for (place, c) in row.chars().enumerate() {
        if place + 1 >= COLUMNS {
            return text.push('>');
        }
        text.push(if c.is_control() { '?' } else { c })?;
    }
    Ok(())
}

/// The rows one below the other, each ended by a line feed.
pub fn lines_of(alloc: Global, rows: &[String]) -> Result<String, AllocError> {
    let mut text = String::new(alloc);
    for row in rows {
        push_row(&mut text, row.as_str())?;
        text.push('\n')?;
    }
    Ok(text)
}

/// What draws the rows on a terminal from this row on, over what is there, and then puts the cursor
/// at the last of these rows: of those that are drawn over, `height`, what is left is cleared.
pub fn frame_of(
    alloc: Global,
    rows: &[String],
    top: u32,
    height: u32,
    cursor: u32,
) -> Result<String, AllocError> {
    let mut text = String::new(alloc);
    for place in 0..height {
        let line = top.saturating_add(place);
        write!(text, "\x1b[{line};1H")?;
        if let Some(row) = usize::try_from(place)
            .ok()
            .and_then(|place| rows.get(place))
        {
            push_row(&mut text, row.as_str())?;
        }
        text.push_str("\x1b[K")?;
    }
    write!(text, "\x1b[{cursor};1H")?;
    Ok(text)
}
