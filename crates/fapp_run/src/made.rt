// What is answered where the network is made and none is read.
ghost use Rattle.std.specs.Prelude.{◌≡◌, IfOk};
ghost use Rattle.fapp_model.specs.Instances.{IsInstance};
ghost use Rattle.fapp_gen.specs.Generated.{network_text};
ghost use Rattle.fapp_run.specs.Made.{AreSeed, Demonstrates, IsDemonstrated, demo_options};

use crate::reply::{Reply, settings_for, status_of};
use crate::solving::solve_answer;
use answer_writer::Status;
use cert_lines::verdict_text;
use fapp_gen::generate;
use fapp_io::NoMemory;
use fapp_model::Instance;
use fapp_words::{DEFAULT_POOL, DEFAULT_SPLIT, DEFAULT_WORKERS, Seed, SolveOptions};
use fapp_workers::Gate;
use record_reader::{ReadError, read_instance};
use std::alloc::Global;
use std::thread::Threads;

/// The fuel of each job for a made network.
pub const DEMO_FUEL: u32 = 40_000;

/// The text of the network that a seed makes.
pub fn generated(alloc: Global, seed: Seed) -> Result<Reply, NoMemory>
    requires { AreSeed seed }
    ensures status { IfOk result (λ reply. reply.status ≡ Status.Written) }
    ensures text { IfOk result (λ reply. reply.text.items ≡ network_text seed.number seed.paths) }
{
    let text = generate(alloc, seed.number, seed.paths)?;
    Ok(Reply {
        status: Status::Written,
        text,
    })
}

/// The verdict on the network that a seed makes.
pub fn demonstrated<R: Threads + Sync, G: Gate>(
    rt: &R,
    alloc: Global,
    seed: Seed,
    gate: &G,
) -> Result<Reply, NoMemory>
    requires { AreSeed seed }
    ensures { IfOk result (λ reply. Demonstrates (network_text seed.number seed.paths) reply.status
        reply.text.items) }
{
    let bytes = generate(alloc, seed.number, seed.paths)?;
    match read_instance(alloc, &bytes) {
        Ok(instance) => shown_verdict(rt, alloc, &instance, gate),
        // A made network is that of an instance.
        Err(ReadError::Bad(_)) => unreachable!(),
        Err(ReadError::NoMemory) => Err(NoMemory),
    }
}

/// How a made network is solved.
fn demo_options() -> SolveOptions
    ensures { result ≡ demo_options }
{
    SolveOptions {
        workers: DEFAULT_WORKERS,
        fuel: Some(DEMO_FUEL),
        split: DEFAULT_SPLIT,
        pool: DEFAULT_POOL,
        cert: 1,
        answer_only: false,
    }
}

/// The verdict on an instance.
fn shown_verdict<R: Threads + Sync, G: Gate>(
    rt: &R,
    alloc: Global,
    instance: &Instance,
    gate: &G,
) -> Result<Reply, NoMemory>
    requires { IsInstance instance.now }
    ensures { IfOk result (λ reply. IsDemonstrated instance.now reply.status reply.text.items) }
{
    let settings = settings_for(instance, &demo_options());
    let answer = solve_answer(rt, alloc, instance, &settings, gate)?;
    let text = verdict_text(alloc, &answer.verdict)?;
    Ok(Reply {
        status: status_of(&answer.verdict),
        text,
    })
}
