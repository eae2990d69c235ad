//! The command-line program: the host's files and standard streams, handed to the top call.
#![tactic(auto)]

use effects_top::{effects_main, refused};
use fx_base::{HostFiles, HostSink, NoGate, Refusal};
use std::process::ExitCode;
use std::{env, io};

#[cfg(test)]
mod tests;
#[cfg(test)]
mod worked;

// The command words, without the program's own name.
fn command_words(rt: &HostRuntime) -> io::Result<Vec<String>> {
    let mut words = Vec::new(rt.alloc());
    for word in env::args(rt)?.skip(1) {
        words.push(word)?;
    }
    Ok(words)
}

// Words that aren't text have no reading; else they can't be taken only for want of memory.
fn words_refusal(error: &io::Error) -> Refusal {
    match error.kind() {
        io::ErrorKind::InvalidData => Refusal::Usage,
        _ => Refusal::Memory,
    }
}

fn main(rt: HostRuntime) -> io::Result<ExitCode> {
    let mut files = HostFiles::new(&rt);
    let mut out = HostSink::new(rt.stdout());
    let mut err = HostSink::new(rt.stderr());
    let words = match command_words(&rt) {
        Ok(words) => words,
        Err(error) => {
            let outcome = refused(&mut err, words_refusal(&error), None);
            return Ok(ExitCode::from(outcome.status.0));
        }
    };
    let outcome = effects_main(
        &rt,
        rt.alloc(),
        &words,
        &mut files,
        &mut out,
        &mut err,
        &NoGate,
    );
    Ok(ExitCode::from(outcome.status.0))
}
