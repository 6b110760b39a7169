ghost use Rattle.std.specs.Prelude.{◌≡◌, ◌<◌, length, replicate, slice_set, IfOk};
ghost use Rattle.nogood.specs.Partials.{choice_given};

use fapp_model::NoMemory;
use std::alloc::Global;
use std::marker::Model;

/// The choices that were made so far, by path: an array with a choice's index for each path that is
/// set. Contracts see what it gives at each path.
#[derive(Debug, Drop)]
pub struct Partial {
    choices: Vec<Option<u16>>,
}

impl Model for Partial {
    ghost use Rattle.std.specs.Prelude.{ℕ, List, Option};

    ghost Value = { List (Option ℕ) };

    ghost view = { λ p. p.choices.items };
}

impl Partial {
    /// None of so many paths set.
    pub fn new(alloc: Global, paths: u32) -> Result<Partial, NoMemory>
        ensures { IfOk result (λ part. part ≡ replicate paths None) }
    {
        let choices = vec![in alloc; None; paths as usize]?;
        Ok(Partial { choices })
    }

    /// Sets a path to a choice, whatever it was set to.
    pub fn set(&mut self, path: u16, choice: u16)
        requires { path < length self.old }
        ensures { self.new ≡ slice_set self.old path (Some choice) }
    {
        self.choices[path as usize] = Some(choice);
    }

    /// Makes a path one that is not set.
    pub fn clear(&mut self, path: u16)
        requires { path < length self.old }
        ensures { self.new ≡ slice_set self.old path None }
    {
        self.choices[path as usize] = None;
    }

    /// The choice of a path, None where it is not set. A path out of range is never set.
    pub fn get(&self, path: u16) -> Option<u16>
        ensures { result ≡ choice_given self.now path }
    {
        self.choices.get(path as usize).copied().flatten()
    }
}
