//! How far a leading flight was walked.

/// The legs before `walked` violate nothing, and where there is a hit leg `walked` does. No leg
/// from `end` on does. Candidates that leave after leg `past` are answered alike: each meets the
/// aircraft within the lookahead if there is a hit, and none does if there is not. To their masks
/// `answer` is added, which is the level's bit if there is a hit, else 0.
#[derive(Clone, Copy, Debug)]
pub(crate) struct Trail {
    pub(crate) walked: u32,
    pub(crate) end: u32,
    pub(crate) hit: bool,
    pub(crate) past: u32,
    pub(crate) answer: u8,
}
