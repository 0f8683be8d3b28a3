//! The words of the command line, and whether they fit.
ghost use Rattle.std.specs.Prelude.{◌≡◌, map, string_bytes, IfOk, [], IsUtf8};
ghost use Rattle.bmx_cli.specs.Words.{misfit_in};

use bmx_types::NoMemory;
use std::alloc::Global;
use std::env::{Env, FillError};

/// How many bytes of a word are read: more than any word has that fits.
const LONGEST_WORD: usize = 256;

/// The words of the command line behind the program's name. An empty word, which fits nowhere, stands for
/// one that isn't UTF-8 or is longer than any that fits.
pub fn given_words<R: Env + AllocGlobal>(rt: &R) -> Result<Vec<String>, NoMemory> {
    let mut words = Vec::new(rt.alloc());
    let mut room = [0u8; LONGEST_WORD];
    for place in 1..usize::MAX {
        match rt.arg(place, &mut room) {
            Ok(length) => words.push(word_of(rt.alloc(), &room[..length])?)?,
            Err(FillError::TooLong) => words.push(String::new(rt.alloc()))?,
            Err(FillError::NotPresent) => break,
        }
    }
    Ok(words)
}

/// The word of these bytes; the empty word where they aren't UTF-8.
fn word_of(alloc: Global, bytes: &[u8]) -> Result<String, NoMemory>
    ensures utf8 { IfOk result (λ word. IsUtf8 bytes.now → string_bytes word ≡ bytes.now) }
    ensures others { IfOk result (λ word. (IsUtf8 bytes.now → ⊥) → string_bytes word ≡ []) }
{
    match str::from_utf8(bytes) {
        Ok(word) => Ok(String::from_str(alloc, word)?),
        Err(_) => Ok(String::new(alloc)),
    }
}

/// The place, from 0, of the first word that doesn't fit the one word `run`, or where it is missing.
pub fn misfit(words: &[String]) -> Option<u64>
    ensures { result ≡ misfit_in (map string_bytes words.now) }
{
    match words {
        [] => Some(0),
        [word] => {
            if word.as_str() == "run" {
                None
            } else {
                Some(0)
            }
        }
        [word, _, ..] => {
            if word.as_str() == "run" {
                Some(1)
            } else {
                Some(0)
            }
        }
    }
}
