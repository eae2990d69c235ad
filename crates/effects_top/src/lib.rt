//! The program as one call: it reads the command words and the file, checks it, compiles, runs, writes
//! and answers.
//!
//! Promised: [`effects_main`] compiles a file of the form `let () = print_int A` to an image that
//! stands for its program over every order of the harts' instructions, runs it in turns and writes
//! what it prints, or writes the listing of the image; it tells whether a file is a program; it writes
//! the made program of a number, or compiles and runs it; each refusal has its cause. Of the image of
//! another program it is promised that it has the settings of the words and that the report is that of
//! its run in turns, and nothing of what it means.
//!
//! The definitions stand in `specs/`: `Checked` for what a program is and why a file is refused, `Form`
//! and `Spelling` for the form that has its own compiler, `Expression` and `Compiled` for its code,
//! `Standing` and `Headline` for the promise.
//!
//! Stands on: `fx_base`, `ml_lexer`, `ml_syntax`, `ml_parser`, `prelude_ml`, `effect_meaning`,
//! `core_terms`, `type_terms`, `ml_infer`, `rv_model`, `rv_asm`, `serial_runner`, `image_build`, `itoa`.
#![tactic(auto)]

mod answers;
mod check;
mod compile;
mod made;
mod outcome;
mod output;
mod program;
mod reader;
mod source;
mod token;
mod top;
mod words;

pub use check::check_file;
pub use outcome::Outcome;
pub use program::{Ran, compile_file, run_file};
pub use top::{effects_main, refused};
