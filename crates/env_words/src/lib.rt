//! The words that a program is started with.
#![tactic(auto)]

use std::alloc::AllocError;
use std::rt::Env;
use std::{env, io};

/// The words after the program's name. Where some word is no text, one empty word stands for all,
/// which no program takes. `AllocError` comes where the words' copies could not be had.
pub fn given_words<R: Env + AllocGlobal>(rt: &R) -> Result<Vec<String>, AllocError> {
    match words(rt) {
        Ok(words) => Ok(words),
        Err(error) if error.kind() == io::ErrorKind::OutOfMemory => Err(AllocError),
        Err(_) => one_empty(rt),
    }
}

fn words<R: Env + AllocGlobal>(rt: &R) -> io::Result<Vec<String>> {
    let mut words = Vec::new(rt.alloc());
    for word in env::args(rt)?.skip(1) {
        words.push(word)?;
    }
    Ok(words)
}

fn one_empty<R: AllocGlobal>(rt: &R) -> Result<Vec<String>, AllocError> {
    let mut words = Vec::new(rt.alloc());
    words.push(String::new(rt.alloc()))?;
    Ok(words)
}
