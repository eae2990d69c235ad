//! Where the regions of an image lie.

use fx_base::Settings;
use rt_layout::parts::{DOM_OFFSET, part_words};
use rv_model::LOG_WORD;
use std::alloc::AllocError;

/// The regions of an image, in bytes.
#[derive(Clone, Copy)]
pub struct Regions {
    /// The first of the static words.
    pub statics: u64,
    /// The first domain's part.
    pub parts: u64,
    /// The size of a part.
    pub part: u64,
    pub heap: u64,
    /// The words of the image.
    pub words: u64,
}

/// The first byte of the static words, which lie behind the log.
pub fn statics_at(settings: &Settings) -> u64 {
    8 * (LOG_WORD + settings.out.div_ceil(8))
}

impl Regions {
    /// The regions where there are so many static words, and the tests of the program need so many words.
    pub fn new(
        settings: &Settings,
        static_words: usize,
        scratch: u32,
    ) -> Result<Regions, AllocError> {
        let Ok(count) = u32::try_from(static_words) else {
            return Err(AllocError);
        };
        let statics = statics_at(settings);
        let parts = statics.saturating_add(8 * u64::from(count));
        let part = 8 * part_words(u64::from(scratch));
        let heap = parts.saturating_add(u64::from(settings.domains).saturating_mul(part));
        Ok(Regions {
            statics,
            parts,
            part,
            heap,
            words: (heap / 8).saturating_add(settings.heap),
        })
    }

    /// The first domain's register.
    pub fn first_domain(&self) -> u64 {
        self.parts.saturating_add(DOM_OFFSET)
    }
}
