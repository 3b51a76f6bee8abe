//! A replay: reading a whole script, running it, and writing its reply text.

ghost use Rattle.std.specs.Prelude.{◌≡◌, ℕ, ◌≤◌, List, Option, length, IfOk, OnOk, IfErr};
ghost use Rattle.osm_model.specs.Limits.{max_file};
ghost use Rattle.osm_script.specs.Replay.{ReplayFault, ReplayLeaves, Replays, RepliesTo};
ghost use Rattle.osm_script.specs.Steps.Replaying.{AnswerStops, ReadingFault, most_reads};
ghost use Rattle.osm_script.specs.declared.fault.ScriptFault.{ScriptFault};
ghost use Rattle.std.specs.Io.KnownBytes.{Appends, Consumes, IsAtEnd};

use crate::asks::Asks;
use crate::fault::ScriptFault;
use crate::replies::write_reply;
use crate::script::{EventSink, send_events};
use osm_model::limits::MAX_FILE;
use osm_model::memory::WantOfMemory;
use osm_reading::writing::{NotWritten, write_whole};
use osm_world::event::Event;
use osm_world::laws::laws_of_runs;
use osm_world::world::World;
use std::alloc::Global;
use std::io::{Read, Write};

// One read for each byte of the largest script, one that finds a byte too many, and one more.
const MOST_READS: u64 = 67_108_866;

/// Reads a whole script, runs its events in a new world, and writes the reply text. The reader is
/// asked at most 67,108,866 times. A fault leaves nothing written, except `WriteFault`, which
/// leaves a prefix of the reply text. Every error of the reader or the writer is a fault, even an
/// interruption, and so is a write that takes 0 bytes.
pub fn replay_run<R: Read, W: Write>(
    alloc: Global,
    reader: &mut R,
    writer: &mut W,
) -> Result<(), ScriptFault>
    ensures replays { OnOk result
        (Replays (R.remaining reader.old) (W.contents writer.old) (W.contents writer.new)) }
    ensures fault { IfErr result (ReplayFault (R.remaining reader.old) (R.remaining reader.new)) }
    ensures leaves { IfErr result
        (ReplayLeaves (R.remaining reader.old) (W.contents writer.old) (W.contents writer.new)) }
{
    let script = read_script(alloc, reader, &mut Asks::none())?;
    let text = reply_text_of(alloc, script.as_slice())?;
    match write_whole(writer, text.as_slice()) {
        Ok(()) => Ok(()),
        Err(NotWritten) => Err(ScriptFault::WriteFault),
    }
}

/// States that a fault of a replay other than a failed write leaves nothing written. Does nothing
/// at run time.
pub fn laws_of_replays()
    ensures silent { (input old new : Option (List ℕ)) (fault : ScriptFault)
        → ReplayLeaves input old new fault → (fault ≡ ScriptFault.WriteFault → ⊥) → new ≡ old }
{}

// All that the reader has, or `TooLarge` past the largest script. No other function asks a reader.
fn read_script<R: Read>(
    alloc: Global,
    reader: &mut R,
    asks: &mut Asks,
) -> Result<Vec<u8>, ScriptFault>
    requires { asks.old ≡ 0 }
    ensures asked { asks.new ≤ most_reads }
    ensures script { IfOk result
        (λ bytes. Consumes (R.remaining reader.old) (R.remaining reader.new) bytes.items) }
    ensures end { OnOk result (IsAtEnd (R.remaining reader.new)) }
    ensures small { IfOk result (λ bytes. length bytes.items ≤ max_file) }
    ensures fault { IfErr result (ReadingFault (R.remaining reader.old) (R.remaining reader.new)) }
{
    let mut script = Vec::new(alloc);
    let mut block = [0u8; 16384];
    for _ in 0..MOST_READS {
        let Ok(count) = asks.ask(reader, &mut block) else {
            return Err(ScriptFault::ReadFault);
        };
        if count == 0 {
            return Ok(script);
        }
        if script.len() + count > MAX_FILE {
            return Err(ScriptFault::TooLarge);
        }
        let Ok(()) = script.extend_from_slice(&block[..count]) else {
            return Err(ScriptFault::WantOfMemory);
        };
    }
    Err(ScriptFault::TooLarge)
}

// A world that takes the events of a script, and the text of its replies so far. Each event is
// taken as soon as its line is read, and each reply is dropped once its lines are written, because
// the events and the views of a script are many times its size.
#[derive(Drop)]
struct Answering {
    world: World,
    text: Vec<u8>,
}

impl EventSink for Answering {
    ghost use Rattle.osm_script.specs.Steps.Replaying.{IsAnswered};

    ghost took = { λ a events. IsAnswered events a.world a.text.items };

    fn take(&mut self, event: Event) -> Result<(), WantOfMemory> {
        laws_of_runs();
        let reply = self.world.step(event);
        write_reply(&reply, &mut self.text)
    }
}

// The reply text of a script.
fn reply_text_of(alloc: Global, script: &[u8]) -> Result<Vec<u8>, ScriptFault>
    requires { length script.now ≤ max_file }
    ensures text { IfOk result (λ text. RepliesTo script.now text.items) }
    ensures fault { IfErr result (AnswerStops script.now) }
{
    laws_of_runs();
    let Ok(world) = World::new(alloc) else {
        return Err(ScriptFault::WantOfMemory);
    };
    let mut answering = Answering {
        world,
        text: Vec::new(alloc),
    };
    send_events(alloc, script, &mut answering)?;
    Ok(answering.text)
}
