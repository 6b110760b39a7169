ghost use Rattle.std.specs.Prelude.{ℕ, ◌≤◌, ◌<◌, ◌+◌, length, slice_index};
ghost use Rattle.std.specs.List.Sorted.{IsStrictlyIncreasing};
ghost use Rattle.fapp_model.specs.Choices.{choice, choices};
ghost use Rattle.fapp_model.specs.Instances.{IsPath};

use fapp_model::Path;

/// The place of the first of some ascending frequencies that is not so far below another one.
fn place_within(freqs: &[u32], freq: u32, far: u64) -> usize
    requires { IsStrictlyIncreasing freqs.now }
    ensures inside { result ≤ length freqs.now }
    ensures below { (place : ℕ) → place < result → slice_index freqs.now place + far ≤ freq }
    ensures near { (place : ℕ) → result ≤ place → place < length freqs.now →
        freq < slice_index freqs.now place + far }
{
    if far > u64::from(freq) {
        return 0;
    }
    let last = freq - far as u32;
    freqs.partition_point(|lower| *lower <= last)
}

/// The first choice of a path whose frequency is not so far below another one.
pub fn first_within(path: &Path, freq: u32, far: u64) -> u32
    requires { IsPath path.now }
    ensures inside { result ≤ length (choices path.now) }
    ensures below { (index : ℕ) → index < result → (choice path.now index).freq + far ≤ freq }
    ensures near { (index : ℕ) → result ≤ index → index < length (choices path.now) →
        freq < (choice path.now index).freq + far }
{
    let place = place_within(path.freqs.as_slice(), freq, far) as u32;
    if path.pol == 0 { 2 * place } else { place }
}
