//! Plans a radio network, or checks an answer to one: reads it from standard input, and writes an
//! answer with its certificate, or whether an answer is accepted, to standard output. It also makes
//! networks.
#![tactic(auto)]

use env_words::given_words;
use fapp_io::{StdSink, StdSource};
use fapp_run::{OpenGate, Status, run};
use std::io;
use std::process::ExitCode;
use std::rt::Env;
use std::thread::Threads;

fn main(rt: HostRuntime) -> ExitCode {
    ExitCode::from(status(&rt).code())
}

/// Runs the program over the standard streams.
fn status<R: Env + Input + Print + AllocGlobal + Threads + Sync>(rt: &R) -> Status {
    let Ok(words) = given_words(rt) else {
        return Status::NoMemory;
    };
    let mut source = StdSource::new(rt.reader());
    let mut sink = StdSink::new(io::writer(rt));
    run(rt, rt.alloc(), &words, &mut source, &mut sink, &OpenGate)
}
