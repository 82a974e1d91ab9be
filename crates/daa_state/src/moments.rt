//! Words to moments.

ghost use Rattle.std.specs.Prelude.{◌≡◌, ◌↔◌, None, IsSome, OnOk, IfSome};
ghost use Rattle.std.specs.Prelude.{IsSomeAnd, OnErr, IfOk, IfErr, Ok, Err, Some};
ghost use Rattle.std.specs.Prelude.{true, false, ◌<◌, ◌≤◌, length, ◌++◌, ◌∷◌, [], map};
ghost use Rattle.std.specs.Str.{bytes_eq};
ghost use Rattle.daa_state.specs.InRange.{IsFormat, IsWordInRange, IsOwnInRange};
ghost use Rattle.daa_state.specs.InRange.{AreReportBoundsInRange};
ghost use Rattle.daa_state.specs.InRange.{IsTrafficInRange, IsPictureInRange};
ghost use Rattle.daa_state.specs.Inside.InRange.{IsMomentInRange};
ghost use Rattle.daa_state.specs.MomentStep.{step, stepped, finished, start, begun_moment, is_addition};
ghost use Rattle.daa_state.specs.MomentStep.{has_own, with_own, with_traffic, ended_picture, has_id};
ghost use Rattle.daa_state.specs.MomentStep.{beside};

use crate::fault::LineFault;
use crate::id::Id;
use crate::word::{MOST_AIRCRAFT, Own, Picture, ReportBounds, Traffic, Word};
use arrayvec::ArrayVec;
use std::marker::Model;

/// A moment that is open: its time in seconds, its ownship if it has one, what the ownship's report
/// may err by, and its aircraft in the order of their lines, whose bounds have only those of their
/// own reports.
#[derive(Debug, Drop)]
pub struct Moment {
    pub time: u32,
    pub own: Option<Own>,
    pub bounds: ReportBounds,
    pub traffic: ArrayVec<Traffic, MOST_AIRCRAFT>,
}

/// The state between two words: the open moment, if there is one, the time of the last ended
/// moment, if there is one, and the format of the lines that follow.
#[derive(Debug, Drop)]
pub struct Moments {
    moment: Option<Moment>,
    last: Option<u32>,
    format: u32,
}

impl Model for Moments {
    ghost use Rattle.std.specs.Prelude.{IfSome};
    ghost use Rattle.daa_state.specs.MomentStep.{MomentsState};
    ghost use Rattle.daa_state.specs.InRange.{IsFormat};
    ghost use Rattle.daa_state.specs.Inside.InRange.{IsMomentInRange};

    ghost Value = { MomentsState };

    ghost view = { λ m. record { moment = m.moment; last = m.last; format = m.format } };

    ghost invariant = { λ m. IfSome m.moment IsMomentInRange × IsFormat m.format };
}

impl Moments {
    /// The state before the first word: no moment is open, none was ended, and the format is 1.
    pub fn new() -> Self
        ensures { result ≡ start }
    {
        Moments {
            moment: None,
            last: None,
            format: 1,
        }
    }

    /// Takes the next word. Returns the picture of the ended moment exactly where the word is an
    /// `End` that is accepted, and `None` at any other word that is accepted. A word that does not
    /// fit the state is refused with the first fault that applies, of codes 7 to 13, and changes
    /// nothing.
    #[tactic(auto, unfolding(crate::specs::MomentStep::step))]
    pub fn take(&mut self, word: Word) -> Result<Option<Picture>, LineFault>
        requires range { IsWordInRange word }
        ensures taken { IfOk result
            (λ picture. step self.old word ≡ Ok (stepped self.new picture)) }
        ensures at_end { IfOk result (λ picture. IsSome picture ↔ (word ≡ Word.End)) }
        ensures refused { IfErr result (λ fault. step self.old word ≡ Err fault) }
        ensures unchanged { OnErr result (self.new ≡ self.old) }
        ensures range { IfOk result (λ picture. IfSome picture IsPictureInRange) }
    {
        match word {
            Word::Moment(time) => {
                self.moment = Some(begin(&self.moment, self.last, time)?);
                Ok(None)
            }
            Word::Own(own, bounds) => {
                add_own(&mut self.moment, own, bounds)?;
                Ok(None)
            }
            Word::Traffic(traffic) => {
                add_traffic(&mut self.moment, traffic)?;
                Ok(None)
            }
            Word::Format(_) if self.moment.is_some() => Err(LineFault::MomentOpen),
            Word::Format(format) => {
                self.format = format;
                Ok(None)
            }
            Word::End => {
                let picture = end(&mut self.moment)?;
                self.last = Some(picture.time);
                Ok(Some(picture))
            }
            Word::Skip => Ok(None),
        }
    }

    /// Takes a word that begins a moment or adds to the open one, as [`Moments::take`] does, and
    /// returns true. Where the word does neither, or [`Moments::take`] would refuse it, this
    /// returns false and changes nothing. It makes no room for a picture, which takes longer than
    /// most words do.
    #[tactic(auto, unfolding(crate::specs::MomentStep::step))]
    pub fn adds(&mut self, word: &Word) -> bool
        requires range { IsWordInRange word.now }
        ensures taken { result ≡ true → step self.old word.now ≡ Ok (stepped self.new None) }
        ensures passed { result ≡ false → IfOk (step self.old word.now)
            (λ next. next.picture ≡ None → next.state.moment ≡ self.old.moment) }
        ensures unchanged { result ≡ false → self.new ≡ self.old }
        ensures adds { result ≡ true → is_addition word.now ≡ true }
    {
        match word {
            Word::Moment(time) => match begin(&self.moment, self.last, *time) {
                Ok(moment) => {
                    self.moment = Some(moment);
                    true
                }
                Err(_) => false,
            },
            Word::Own(own, bounds) => match add_own(&mut self.moment, *own, *bounds) {
                Ok(()) => true,
                Err(_) => false,
            },
            Word::Traffic(traffic) => match add_traffic(&mut self.moment, *traffic) {
                Ok(()) => true,
                Err(_) => false,
            },
            _ => false,
        }
    }

    /// Whether [`Moments::take`] would accept an `End`: a moment is open and has its ownship.
    pub fn can_end(&self) -> bool
        ensures { result ≡ has_own self.now.moment }
    {
        match &self.moment {
            Some(moment) => moment.own.is_some(),
            None => false,
        }
    }

    /// Ends the open moment, which has its ownship, as [`Moments::take`] does at an `End`, and
    /// returns its picture, which is moved fewer times on its way out than there.
    #[tactic(auto, unfolding(crate::specs::MomentStep::step, crate::specs::MomentStep::ended_picture))]
    pub fn end(&mut self) -> Picture
        requires { has_own self.old.moment ≡ true }
        ensures taken { step self.old Word.End ≡ Ok (stepped self.new (Some result)) }
        ensures range { IsPictureInRange result }
    {
        let Some(open) = self.moment.take() else {
            unreachable!()
        };
        let Some(own) = open.own else { unreachable!() };
        self.last = Some(open.time);
        let mut traffic = open.traffic;
        put_beside(&mut traffic, open.bounds);
        Picture {
            time: open.time,
            own,
            traffic,
        }
    }

    /// The format, 1 to 3, of the lines that follow.
    pub fn format(&self) -> u32
        ensures value { result ≡ self.now.format }
        ensures range { IsFormat result }
    {
        self.format
    }

    /// Whether the input may end here: `Unfinished` exactly if a moment is open.
    pub fn finish(&self) -> Result<(), LineFault>
        ensures { result ≡ finished self.now }
    {
        match self.moment {
            Some(_) => Err(LineFault::Unfinished),
            None => Ok(()),
        }
    }
}

/// The moment of this time, in seconds, which has no ownship and no aircraft yet: if no moment is
/// open, and the time is later than that of the last ended moment.
#[tactic(auto, unfolding(crate::specs::MomentStep::begun_moment))]
fn begin(moment: &Option<Moment>, last: Option<u32>, time: u32) -> Result<Moment, LineFault>
    ensures value { result ≡ begun_moment moment.now last time }
    ensures range { IfOk result IsMomentInRange }
{
    if moment.is_some() {
        return Err(LineFault::MomentOpen);
    }
    match last {
        Some(last) if time <= last => Err(LineFault::NotLater(last)),
        _ => Ok(Moment {
            time,
            own: None,
            bounds: ReportBounds::EXACT,
            traffic: ArrayVec::new(),
        }),
    }
}

/// Adds the ownship, and what its report may err by, to the open moment, or says why it is refused.
#[tactic(auto, unfolding(crate::specs::MomentStep::with_own))]
fn add_own(moment: &mut Option<Moment>, own: Own, bounds: ReportBounds) -> Result<(), LineFault>
    requires range { IsOwnInRange own }
    requires bounds { AreReportBoundsInRange bounds }
    ensures added { OnOk result
        (IsSomeAnd moment.new (λ new. with_own moment.old own bounds ≡ Ok new)) }
    ensures refused { IfErr result (λ fault. with_own moment.old own bounds ≡ Err fault) }
    ensures unchanged { OnErr result (moment.new ≡ moment.old) }
    ensures range { IfSome moment.old IsMomentInRange → IfSome moment.new IsMomentInRange }
{
    let Some(moment) = moment else {
        return Err(LineFault::NoMoment);
    };
    if moment.own.is_some() {
        return Err(LineFault::OwnTwice);
    }
    moment.own = Some(own);
    moment.bounds = bounds;
    Ok(())
}

/// Adds an aircraft to the open moment, or says why it is refused.
#[tactic(auto, unfolding(crate::specs::MomentStep::with_traffic))]
fn add_traffic(moment: &mut Option<Moment>, traffic: Traffic) -> Result<(), LineFault>
    requires range { IsTrafficInRange traffic }
    ensures added { OnOk result
        (IsSomeAnd moment.new (λ new. with_traffic moment.old traffic ≡ Ok new)) }
    ensures refused { IfErr result (λ fault. with_traffic moment.old traffic ≡ Err fault) }
    ensures unchanged { OnErr result (moment.new ≡ moment.old) }
    ensures range { IfSome moment.old IsMomentInRange → IfSome moment.new IsMomentInRange }
{
    let Some(moment) = moment else {
        return Err(LineFault::NoMoment);
    };
    if has_id(&moment.traffic, &traffic.id) {
        return Err(LineFault::SameId);
    }
    if moment.traffic.is_full() {
        return Err(LineFault::Full);
    }
    moment.traffic.push(traffic);
    Ok(())
}

/// Whether an aircraft of the list has the identifier.
fn has_id(traffic: &ArrayVec<Traffic, MOST_AIRCRAFT>, id: &Id) -> bool
    ensures { result ≡ has_id id.now traffic.now.items }
{
    traffic.as_slice().iter().any(|aircraft| aircraft.id == *id)
}

/// Puts what the ownship's report may err by beside the bounds of each aircraft's own report.
fn put_beside(traffic: &mut ArrayVec<Traffic, MOST_AIRCRAFT>, own: ReportBounds)
    ensures put { traffic.new.items ≡ map (beside own) traffic.old.items }
    ensures few { length traffic.new.items ≤ 64 }
{
    for aircraft in traffic.iter_mut() {
        aircraft.bounds.own = own;
    }
}

/// Takes the open moment out as a picture. `NoMoment` says that no moment is open, `NoOwn` that the
/// open one has no ownship and stays open.
#[tactic(auto, unfolding(crate::specs::MomentStep::ended_picture))]
fn end(moment: &mut Option<Moment>) -> Result<Picture, LineFault>
    ensures ended { IfOk result (λ picture. (ended_picture moment.old ≡ Ok picture)
        × (moment.new ≡ None)) }
    ensures refused { IfErr result (λ fault. ended_picture moment.old ≡ Err fault) }
    ensures unchanged { OnErr result (moment.new ≡ moment.old) }
    ensures range { IfSome moment.old IsMomentInRange → IfOk result IsPictureInRange }
{
    match moment.take() {
        None => Err(LineFault::NoMoment),
        Some(
            Moment {
                time,
                own: Some(own),
                bounds,
                mut traffic,
            },
        ) => {
            put_beside(&mut traffic, bounds);
            Ok(Picture { time, own, traffic })
        }
        Some(open) => {
            *moment = Some(open);
            Err(LineFault::NoOwn)
        }
    }
}
