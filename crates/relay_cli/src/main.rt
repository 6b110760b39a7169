//! Plans a radio network like the command `solve`, and writes the answer while several senders make
//! the text of its certificate. It may wait for its senders, and is not known to return.
#![tactic(auto)]

use env_words::given_words;
use fapp_io::{StdSink, StdSource};
use fapp_run::{OpenGate, Status};
use run::run_relay;
use std::io;
use std::process::ExitCode;
use std::rt::Env;
use std::sync::Wait;
use std::thread::Threads;

mod options;
mod run;
#[cfg(test)]
mod tests;

fn main(rt: HostRuntime) -> ExitCode {
    ExitCode::from(status(&rt).code())
}

/// Runs the program over the standard streams.
fn status<R: Env + Input + Print + AllocGlobal + Threads + Wait + Sync>(rt: &R) -> Status {
    let Ok(words) = given_words(rt) else {
        return Status::NoMemory;
    };
    let mut source = StdSource::new(rt.reader());
    let mut sink = StdSink::new(io::writer(rt));
    run_relay(rt, rt.alloc(), &words, &mut source, &mut sink, &OpenGate)
}
