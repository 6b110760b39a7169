//! The text of the network that a number makes.

ghost use Rattle.std.specs.Prelude.{◌≡◌, ◌++◌, ◌+◌, ◌-◌, ◌*◌, ◌∷◌, ◌≤◌, [], map, IfOk, OnOk, codes, flat_map};
ghost use Rattle.std.specs.List.{range_with_len};
ghost use Rattle.fapp_gen.specs.Lines.{falling, line_text, numbered};
ghost use Rattle.fapp_gen.specs.Generated.{distance_line, disturbed_by, domain_lines, first_lines, fixed_by, is_odd, network_lines, network_text, offset, path_line, stretch, record_lines};

use crate::line::{push_distances, push_imperative, push_line};
use fapp_text::NoMemory;
use std::alloc::Global;

/// The greatest number that a network is made from.
pub const MAX_SEED: u32 = 1_000_000_000;

/// The most paths of a network that is made.
pub const MAX_GENERATED: u32 = 2_000;

/// The text of the network of 2 to `MAX_GENERATED` paths that a number makes. The first two paths
/// choose among ten frequencies and two polarizations; each further path is fixed by one of the two
/// and disturbed by the other. `NoMemory` comes where the text's room could not be had.
pub fn generate(alloc: Global, number: u32, paths: u32) -> Result<Vec<u8>, NoMemory>
    requires number { number ≤ MAX_SEED }
    requires two { 2 ≤ paths }
    requires most { paths ≤ MAX_GENERATED }
    ensures { IfOk result (λ text. text.items ≡ network_text number paths) }
{
    let mut out = Vec::new(alloc);
    push_domain(&mut out, 1, 1000)?;
    push_domain(&mut out, 2, 3000)?;
    push_paths(&mut out, u64::from(paths))?;
    push_distances(&mut out, b"CE", (1, 2), 50, 5)?;
    push_distances(&mut out, b"CD", (1, 2), 0, 0)?;
    push_records(&mut out, u64::from(number), u64::from(paths))?;
    Ok(out)
}

fn push_domain(out: &mut Vec<u8>, domain: u64, first: u64) -> Result<(), NoMemory>
    requires { first ≤ 3000 }
    ensures { OnOk result (out.new.items ≡ out.old.items
        ++ flat_map line_text (domain_lines domain first)) }
{
    for place in 0..10 {
        push_line(out, b"DM", &[domain, first + 10 * place])?;
    }
    Ok(())
}

fn push_paths(out: &mut Vec<u8>, paths: u64) -> Result<(), NoMemory>
    requires two { 2 ≤ paths }
    requires most { paths ≤ MAX_GENERATED }
    ensures { OnOk result (out.new.items ≡ out.old.items
        ++ flat_map line_text (first_lines ++ map (λ path. path_line path 2)
        (range_with_len 3 (paths - 2)))) }
{
    push_path(out, 1, 1)?;
    push_path(out, 2, 1)?;
    push_further_paths(out, paths)?;
    Ok(())
}

fn push_further_paths(out: &mut Vec<u8>, paths: u64) -> Result<(), NoMemory>
    requires two { 2 ≤ paths }
    requires most { paths ≤ MAX_GENERATED }
    ensures { OnOk result (out.new.items ≡ out.old.items
        ++ flat_map line_text (map (λ path. path_line path 2) (range_with_len 3 (paths - 2)))) }
{
    for path in 3..paths + 1 {
        push_path(out, path, 2)?;
    }
    Ok(())
}

/// Appends the line of a path that may take either polarization.
fn push_path(out: &mut Vec<u8>, path: u64, domain: u64) -> Result<(), NoMemory>
    ensures { OnOk result (out.new.items ≡ out.old.items ++ line_text (path_line path domain)) }
{
    push_line(out, b"TR", &[path, domain, 0])
}

fn push_records(out: &mut Vec<u8>, number: u64, paths: u64) -> Result<(), NoMemory>
    requires number { number ≤ MAX_SEED }
    requires two { 2 ≤ paths }
    requires most { paths ≤ MAX_GENERATED }
    ensures { OnOk result (out.new.items ≡ out.old.items
        ++ flat_map line_text (flat_map (record_lines number) (range_with_len 3 (paths - 2)))) }
{
    for path in 3..paths + 1 {
        push_path_records(out, number, path)?;
    }
    Ok(())
}

fn push_path_records(out: &mut Vec<u8>, number: u64, path: u64) -> Result<(), NoMemory>
    requires number { number ≤ MAX_SEED }
    requires path { path ≤ MAX_GENERATED }
    ensures { OnOk result (out.new.items ≡ out.old.items
        ++ flat_map line_text (record_lines number path)) }
{
    let offset = 2000 + 10 * ((number + path) % 4);
    let stretch = 10 * (number * path % 10);
    let fixed = (fixed_by(path), path);
    let disturbed = (disturbed_by(path), path);
    push_imperative(out, b"F", fixed, offset)?;
    push_imperative(out, b"P", fixed, 0)?;
    push_distances(out, b"CE", disturbed, 2000 + stretch, 10)?;
    push_distances(out, b"CD", disturbed, 1970 + stretch, 10)?;
    Ok(())
}

/// The one of the first two paths that fixes a further path.
fn fixed_by(path: u64) -> u64
    ensures { result ≡ fixed_by path }
{
    if path % 2 == 1 { 1 } else { 2 }
}

/// The other one of the first two paths.
fn disturbed_by(path: u64) -> u64
    ensures { result ≡ disturbed_by path }
{
    if path % 2 == 1 { 2 } else { 1 }
}
