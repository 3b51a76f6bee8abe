//! The reply text: a line for each reply, and more lines for a view.

ghost use Rattle.std.specs.Prelude.{◌≡◌, ◌<◌, ◌++◌, length, IfOk, OnOk, OnErr};
ghost use Rattle.osm_script.specs.Replies.{replies_text, reply_text};

use crate::show::write_view;
use osm_model::memory::WantOfMemory;
use osm_reading::number_lines::{write_applied, write_bytes, write_numbered};
use osm_world::event::Reply;
use std::alloc::Global;

/// Gives the reply text of these replies: their lines, each with its LF.
pub fn write_replies(alloc: Global, replies: &[Reply]) -> Result<Vec<u8>, WantOfMemory>
    ensures text { IfOk result (λ text. text.items ≡ replies_text replies.now) }
    ensures refused { OnErr result (0 < length replies.now) }
{
    let mut text = Vec::new(alloc);
    for reply in replies {
        write_reply(reply, &mut text)?;
    }
    Ok(text)
}

pub(crate) fn write_reply(reply: &Reply, text: &mut Vec<u8>) -> Result<(), WantOfMemory>
    ensures { OnOk result (text.new.items ≡ text.old.items ++ reply_text reply.now) }
{
    match reply {
        Reply::Edited => write_bytes(b"edited\n", text),
        Reply::BatchFull => write_bytes(b"batch full\n", text),
        Reply::WantOfMemory => write_bytes(b"no memory\n", text),
        Reply::Closed(number) => write_numbered(b"closed ", *number as u64, text),
        Reply::SequenceFull => write_bytes(b"sequence full\n", text),
        Reply::TimeBack => write_bytes(b"time back\n", text),
        Reply::TooLarge => write_bytes(b"too large\n", text),
        Reply::NotPublished => write_bytes(b"not published\n", text),
        Reply::Broken => write_bytes(b"broken\n", text),
        Reply::Old => write_bytes(b"old\n", text),
        Reply::Again => write_bytes(b"again\n", text),
        Reply::TooEarly => write_bytes(b"too early\n", text),
        Reply::Held => write_bytes(b"held\n", text),
        Reply::Applied { low, high } => write_applied(*low, *high, text),
        Reply::Broke => write_bytes(b"broke\n", text),
        Reply::Shown(view) => write_view(view, text),
        Reply::Saved(number) => write_numbered(b"saved ", *number as u64, text),
        Reply::Restarted(number) => write_numbered(b"restarted ", *number as u64, text),
        Reply::Begun(number) => write_numbered(b"begun ", *number as u64, text),
    }
}
