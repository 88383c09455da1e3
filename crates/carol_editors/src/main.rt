//! Looks that every keyword of the language stands in the files by which editors colour it.
//!
//! Layer: program. Called by nobody: it is a program of its own.
#![tactic(auto)]

use carol_syntax::{LONGEST_NAME, keywords};
use std::fs;

const FILES: [&str; 2] = ["carol.vim", "carol.tmLanguage.json"];

fn main(rt: HostRuntime) -> anyhow::Result<()> {
    for name in FILES {
        let text = fs::read_to_string(&rt, name)?;
        for letters in 0..=LONGEST_NAME {
            for (word, _kind) in keywords(letters) {
                if !stands_in(word, text.as_str()) {
                    println!(rt; "{name} lacks {word}")?;
                }
            }
        }
        println!(rt; "{name} was looked through")?;
    }
    Ok(())
}

// Whether the word stands in the text, with no letter beside it.
fn stands_in(word: &str, text: &str) -> bool {
    text.split(|c: char| !c.is_ascii_lowercase())
        .any(|part| part == word)
}
