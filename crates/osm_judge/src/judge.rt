//! Whether a reply text may answer a script.

ghost use Rattle.std.specs.Prelude.{◌≡◌, ◌<◌, ◌^◌, length, IfOk, IfSome, IsTrue};
ghost use Rattle.osm_world.specs.History.{history_of};
ghost use Rattle.osm_world.specs.Legal.{IsLegal};
ghost use Rattle.osm_judge.specs.Breaks.{AreBreaksNeeded};
ghost use Rattle.osm_judge.specs.Judge.{MayAnswer};

use crate::breaks::are_breaks_needed;
use crate::history::Pair;
use crate::legal::is_legal;
use crate::reading::{NotAReply, read_reply};
use osm_model::filter::Filter;
use osm_model::memory::WantOfMemory;
use osm_script::fault::ScriptFault;
use osm_script::replies::write_replies;
use osm_script::script::parse_script;
use osm_world::event::{Event, Reply};
use std::alloc::Global;

/// Whether a reply text may answer a script in a world with that filter. If true, the text has one
/// reply for each event, each reply is allowed after what came before it, and the follower breaks
/// only at a new entry. Fails if the script can't be read, or if memory runs out.
pub fn may_answer(
    alloc: Global,
    filter: &Filter,
    script: &[u8],
    text: &[u8],
) -> Result<bool, ScriptFault>
    requires { length script.now < 2 ^ 63 }
    ensures { IfOk result (λ b. IsTrue b → MayAnswer filter.now script.now text.now) }
{
    let events = parse_script(alloc, script)?;
    let replies = match read_replies(alloc, text, events.len()) {
        Ok(replies) => replies,
        Err(NotAReply::NoReply) => return Ok(false),
        Err(NotAReply::WantOfMemory) => return Err(ScriptFault::WantOfMemory),
    };
    if replies.len() != events.len() {
        return Ok(false);
    }
    let Ok(written) = write_replies(alloc, replies.as_slice()) else {
        return Err(ScriptFault::WantOfMemory);
    };
    if written.as_slice() != text {
        return Ok(false);
    }
    let history = pair_up(alloc, events, replies)?;
    match is_right(alloc, filter, history.as_slice()) {
        Ok(is_right) => Ok(is_right),
        Err(WantOfMemory) => Err(ScriptFault::WantOfMemory),
    }
}

fn is_right(alloc: Global, filter: &Filter, history: &[Pair]) -> Result<bool, WantOfMemory>
    ensures { IfOk result (λ b. IsTrue b
        → IsLegal filter.now history.now × AreBreaksNeeded filter.now history.now) }
{
    Ok(is_legal(alloc, filter, history)? && are_breaks_needed(alloc, filter, history)?)
}

fn read_replies(alloc: Global, text: &[u8], count: usize) -> Result<Vec<Reply>, NotAReply> {
    let mut replies = Vec::new(alloc);
    let mut rest = text;
    for _ in 0..count {
        let (reply, after) = read_reply(alloc, rest)?;
        replies.push(reply)?;
        rest = after;
    }
    Ok(replies)
}

// The events with their replies, the newest pair first.
fn pair_up(alloc: Global, events: Vec<Event>, replies: Vec<Reply>) -> Result<Vec<Pair>, ScriptFault>
    ensures { IfOk result (λ pairs. pairs.items ≡ history_of events.items replies.items) }
{
    let mut pairs = Vec::new(alloc);
    for pair in events.into_iter().zip(replies) {
        let Ok(()) = pairs.push(pair) else {
            return Err(ScriptFault::WantOfMemory);
        };
    }
    pairs.reverse();
    Ok(pairs)
}
