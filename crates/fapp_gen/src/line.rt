//! Lines of a network's text.

ghost use Rattle.std.specs.Prelude.{◌≡◌, ◌++◌, ◌+◌, ◌*◌, ◌∷◌, ◌≤◌, [], OnOk, codes, flat_map};
ghost use Rattle.fapp_gen.specs.Lines.{falling, line_text, numbered, spaced};
ghost use Rattle.fapp_gen.specs.Generated.{distance_line, imperative_line};

use fapp_text::{NoMemory, push_number};

/// Appends numbers, each behind a space.
fn push_numbers(out: &mut Vec<u8>, numbers: &[u64]) -> Result<(), NoMemory>
    ensures { OnOk result (out.new.items ≡ out.old.items ++ spaced numbers.now) }
{
    for number in numbers {
        out.extend_from_slice(b" ")?;
        push_number(out, *number)?;
    }
    Ok(())
}

/// Appends a line of a word and numbers.
pub(crate) fn push_line(out: &mut Vec<u8>, word: &[u8], numbers: &[u64]) -> Result<(), NoMemory>
    ensures { OnOk result (out.new.items ≡ out.old.items
        ++ line_text (numbered word.now numbers.now)) }
{
    out.extend_from_slice(word)?;
    push_numbers(out, numbers)?;
    out.extend_from_slice(b"\n")?;
    Ok(())
}

/// Appends a number for each level: the first, and from level to level one that is lower by a step.
fn push_falling(out: &mut Vec<u8>, first: u64, step: u64) -> Result<(), NoMemory>
    requires { 10 * step ≤ first }
    ensures { OnOk result (out.new.items ≡ out.old.items ++ spaced (falling first step)) }
{
    for level in 0..11 {
        push_numbers(out, &[first - step * level])?;
    }
    Ok(())
}

/// Appends the line of a record of distances that fall from level to level.
pub(crate) fn push_distances(
    out: &mut Vec<u8>,
    word: &[u8],
    paths: (u64, u64),
    first: u64,
    step: u64,
) -> Result<(), NoMemory>
    requires { 10 * step ≤ first }
    ensures { OnOk result (out.new.items ≡ out.old.items
        ++ line_text (distance_line word.now paths.0 paths.1 (falling first step))) }
{
    out.extend_from_slice(word)?;
    push_numbers(out, &[paths.0, paths.1])?;
    push_falling(out, first, step)?;
    out.extend_from_slice(b"\n")?;
    Ok(())
}

/// Appends the line of an imperative record.
pub(crate) fn push_imperative(
    out: &mut Vec<u8>,
    kind: &[u8],
    paths: (u64, u64),
    number: u64,
) -> Result<(), NoMemory>
    ensures { OnOk result (out.new.items ≡ out.old.items
        ++ line_text (imperative_line kind.now paths.0 paths.1 number)) }
{
    out.extend_from_slice(b"CI")?;
    push_numbers(out, &[paths.0, paths.1])?;
    out.extend_from_slice(b" ")?;
    out.extend_from_slice(kind)?;
    out.extend_from_slice(b" E")?;
    push_numbers(out, &[number])?;
    out.extend_from_slice(b"\n")?;
    Ok(())
}
