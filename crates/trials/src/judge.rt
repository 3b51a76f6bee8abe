//! The word `judge`, which tells whether a reply text may answer a script. Standard input has the
//! script, a line `--` and the text. The word writes `allowed` and ends with 0, or `forbidden` and
//! ends with 1.
//!
//! The words after it name the filter of the world: the kinds to keep, as `nw`, and then the keys
//! in rising order, as OPL lines spell them. Without them every object is kept.

ghost use Rattle.std.specs.Prelude.{◌<◌, length};

use osm_judge::judge::may_answer;
use osm_model::filter::Filter;
use osm_opl::texts::read_text;
use osm_script::fault::ScriptFault;
use std::alloc::Global;
use std::io::Read;
use std::process::ExitCode;

const SEPARATOR: &[u8] = b"--\n";

/// The status with which the word ends, after the words of the filter.
pub(crate) fn run(rt: &HostRuntime, words: &[String]) -> ExitCode {
    let (word, status) = match judged(rt, words) {
        Ok(true) => ("allowed", 0),
        Ok(false) => ("forbidden", 1),
        Err(_) => ("not judged", 3),
    };
    match println!(rt; "{word}") {
        Ok(()) => ExitCode::from(status),
        Err(_) => ExitCode::from(3),
    }
}

// Why there is no judgement: the words name no filter, or the input can't be read, has no
// separator, or has no script before one.
#[derive(Clone, Copy, Debug)]
enum Unjudged {
    NoFilter,
    Input,
    NoSeparator,
    NoScript(ScriptFault),
}

fn judged(rt: &HostRuntime, words: &[String]) -> Result<bool, Unjudged> {
    let alloc = rt.alloc();
    let Some(filter) = filter_of(alloc, words) else {
        return Err(Unjudged::NoFilter);
    };
    let mut input = Vec::new(alloc);
    let Ok(_) = rt.stdin().read_to_end(&mut input) else {
        return Err(Unjudged::Input);
    };
    let Some((script, text)) = parts(input.as_slice()) else {
        return Err(Unjudged::NoSeparator);
    };
    match may_answer(alloc, &filter, script, text) {
        Ok(is_right) => Ok(is_right),
        Err(fault) => Err(Unjudged::NoScript(fault)),
    }
}

fn filter_of(alloc: Global, words: &[String]) -> Option<Filter> {
    let Some((kinds, names)) = words.split_first() else {
        return Some(Filter::all(alloc));
    };
    let mut keys = Vec::new(alloc);
    for name in names {
        keys.push(read_text(alloc, name.as_bytes()).ok()?).ok()?;
    }
    let nodes = kinds.contains('n');
    Filter::new(nodes, kinds.contains('w'), kinds.contains('r'), keys).ok()
}

// The bytes before the first line `--`, and those after it.
fn parts(input: &[u8]) -> Option<(&[u8], &[u8])> {
    for index in 0..input.len() {
        if let Some(text) = input[index..].strip_prefix(SEPARATOR)
            && begins_line(input, index)
        {
            return Some((&input[..index], text));
        }
    }
    None
}

fn begins_line(input: &[u8], index: usize) -> bool
    requires { index < length input.now }
{
    index == 0 || input[index - 1] == b'\n'
}
