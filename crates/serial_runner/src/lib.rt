//! Runs an image, its harts in turns.
//!
//! Promised: [`run_serial`] takes every image and always returns. Its report has words and harts of a run
//! in some order of instructions. Where the image doesn't break the machine's promise, they are those at
//! which the rounds of turns come to rest, and the report has the bytes of the log and the end that the
//! words tell, else a spent budget, else a deadlock. A budget is spent exactly where a hart has retired as
//! many instructions as it has while the end word is 0, and a deadlock comes exactly where no hart has a
//! step. The promise is broken exactly where there is no room for the log, a hart is at fault in a run that
//! isn't over, or the end word, its first detail or the log's cursor are out of their ranges; an image that
//! keeps it is never broken.
//!
//! The loop looks only at what an instruction could have changed: the end word after each, and the one
//! hart's count after its turn. Whether a hart is at fault is looked at where an instruction didn't go.
//!
//! Stands on: `fx_base`, `rv_model`, `rv_step`.
#![tactic(auto)]

mod ending;
mod run;
mod turns;

pub use run::run_serial;
