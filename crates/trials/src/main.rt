//! What sweeps ask of proved definitions. The first word of the command line says what runs:
//! `judge` tells whether a reply text may answer a script, and `operations` carries out lists of
//! operations.
#![tactic(auto)]

mod answers;
mod judge;
mod list;
mod operations;
mod outcome;

use anyhow::{Result, bail};
use std::env;
use std::process::ExitCode;

fn main(rt: HostRuntime) -> Result<ExitCode> {
    let words: Vec<String> = env::args(&rt)?.collect(rt.alloc())?;
    let [_, word, more @ ..] = words.as_slice() else {
        bail!("there is no word");
    };
    match word.as_str() {
        "judge" => Ok(judge::run(&rt, more)),
        "operations" => {
            operations::run(&rt)?;
            Ok(ExitCode::SUCCESS)
        }
        _ => bail!("{word} is no word of this program"),
    }
}
