//! What a call of the program answers.

use fx_base::{Status, Written};
use rv_model::{Image, Report};

/// What a call of the program answers.
#[derive(Debug, Drop)]
pub struct Outcome {
    /// The status for the process.
    pub status: Status,
    /// The image, where the program was compiled.
    pub image: Option<Image>,
    /// The report, where the program was run.
    pub report: Option<Report>,
    /// Whether all of the answer reached the output; `None` where something was refused.
    pub written: Option<Written>,
}
