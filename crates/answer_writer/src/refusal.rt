ghost use Rattle.std.specs.Prelude.{◌≡◌, ◌++◌, IfOk, OnOk, string_bytes};
ghost use Rattle.answer_writer.specs.Refusals.{fault_line, triple_text, values_text, rejected_line, refusal_line};

use crate::{NoMemory, RejectCause, Rejected, Status};
use fapp_model::{Triple, triple_of};
use std::alloc::Global;

/// The line that tells of a refusal, and nothing for the other ways to end. `NoMemory` comes where
/// its room could not be had.
pub fn refusal_text(alloc: Global, status: &Status) -> Result<Vec<u8>, NoMemory>
    ensures { IfOk result (λ text. text.items ≡ refusal_line status.now) }
{
    Ok(refusal_line(alloc, *status)?.into_bytes())
}

fn refusal_line(alloc: Global, status: Status) -> Result<String, NoMemory>
    ensures { IfOk result (λ text. string_bytes text ≡ refusal_line status) }
{
    let line = match status {
        Status::BadInput(bad) => return fault_line(alloc, "BADINPUT", bad.line, bad.cause.name()),
        Status::BadAnswer(bad) => return fault_line(alloc, "BADANSWER", bad.line, bad.cause.name()),
        Status::Rejected(rejected) => return rejected_line(alloc, rejected),
        Status::Usage => "USAGE\n",
        Status::TooLong => "BADINPUT 0 TooLong\n",
        Status::NoAnswer => "BADANSWER 0 NoAnswer\n",
        Status::ReadFault => "READFAULT\n",
        Status::Best
        | Status::NoneFeasible
        | Status::Open
        | Status::Accepted
        | Status::Written
        | Status::WriteFault
        | Status::NoMemory => "",
    };
    String::from_str(alloc, line)
}

/// A word, the line that is refused, from 1, and why.
fn fault_line(alloc: Global, word: &str, line: u32, cause: &str) -> Result<String, NoMemory>
    ensures { IfOk result (λ text. string_bytes text ≡ fault_line word.now line cause.now) }
{
    let mut text = String::new(alloc);
    writeln!(text, "{word} {line} {cause}")?;
    Ok(text)
}

fn rejected_line(alloc: Global, rejected: Rejected) -> Result<String, NoMemory>
    ensures { IfOk result (λ text. string_bytes text ≡ rejected_line rejected) }
{
    let Rejected { line, cause } = rejected;
    let name = cause.name();
    let mut text = String::new(alloc);
    write!(text, "REJECTED {line} {name}")?;
    push_values(&mut text, cause)?;
    writeln!(text)?;
    Ok(text)
}

/// What the answer claims and what was found, where it is these that differ.
fn push_values(text: &mut String, cause: RejectCause) -> Result<(), NoMemory>
    ensures { OnOk result (string_bytes text.new ≡ string_bytes text.old ++ values_text cause) }
{
    match cause {
        RejectCause::TripleDiffers { claimed, found } => {
            push_triple(text, claimed)?;
            push_triple(text, found)
        }
        RejectCause::RootTagTooLow { claimed, found } => {
            push_triple(text, triple_of(claimed))?;
            push_triple(text, triple_of(found))
        }
        _ => Ok(()),
    }
}

fn push_triple(text: &mut String, triple: Triple) -> Result<(), NoMemory>
    ensures { OnOk result (string_bytes text.new ≡ string_bytes text.old ++ triple_text triple) }
{
    let Triple { k, v, s } = triple;
    write!(text, " {k} {v} {s}")
}
