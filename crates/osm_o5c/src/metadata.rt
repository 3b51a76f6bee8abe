//! Who changed an object, and when: version, time, changeset and user.

ghost use Rattle.std.specs.Prelude.{◌≡◌, ◌≤◌, ◌++◌, OnOk, IfOk};
ghost use Rattle.osm_model.specs.Meta.{IsMeta};
ghost use Rattle.osm_o5c.specs.ObjectReading.{meta_at};
ghost use Rattle.osm_reading.specs.Answers.{Gives, Finds};
ghost use Rattle.osm_o5c.specs.StringReading.{uid_of, user_at};
ghost use Rattle.osm_o5c.specs.Written.{number_text, pair_in_line, pair_text, after_pair};
ghost use Rattle.osm_o5c.specs.Written.{meta_text};

use crate::counters::positive_sum;
use crate::file_string::text;
use crate::numbers::{positive, unsigned, write_difference, write_unsigned};
use crate::reader::Reader;
use crate::string_index::StringIndex;
use crate::strings::{StringTable, name_or_enter};
use crate::writer::State;
use osm_model::form::Why;
use osm_model::memory::WantOfMemory;
use osm_model::meta::Meta;
use osm_model::text::Text;
use osm_reading::refusal::Refusal;
use std::alloc::Global;

/// Reads the user id that all of the bytes spell.
#[inline(always)]
#[tactic(auto, unfolding(crate::specs::StringReading::uid_of))]
pub(crate) fn uid(bytes: &[u8]) -> Result<u32, Why>
    ensures finds { Finds (λ n. n) result (uid_of bytes.now) }
    ensures limits { IfOk result (λ n. 1 ≤ n) }
{
    if bytes.is_empty() {
        return Err(Why::NoMetadata);
    }
    let Ok((number, rest)) = unsigned(bytes) else {
        return Err(Why::BadNumber);
    };
    if !rest.is_empty() {
        return Err(Why::BadNumber);
    }
    if number == 0 {
        return Err(Why::NoMetadata);
    }
    if number > u32::MAX as u64 {
        return Err(Why::OutOfRange);
    }
    Ok(number as u32)
}

// The user id and the user's name at the start, and the bytes after them.
#[tactic(auto, unfolding(crate::specs::StringReading::user_at))]
fn user<'a>(
    strings: &mut StringTable<'a>,
    alloc: Global,
    bytes: &'a [u8],
) -> Result<(u32, Text, &'a [u8]), Refusal>
    ensures gives { Gives (λ r. ((r.0, r.1), strings.new, r.2.now)) result
        (user_at strings.old bytes.now) }
    ensures limits { IfOk result (λ r. 1 ≤ r.0) }
{
    let (first, second, rest) = strings.user_pair(alloc, bytes)?;
    let uid = uid(first.as_slice())?;
    let name = text(alloc, &second)?;
    Ok((uid, name, rest))
}

impl<'a> Reader<'a> {
    /// The metadata at the start, and the bytes after it.
    #[tactic(auto, unfolding(crate::specs::ObjectReading::meta_at))]
    pub(crate) fn meta(
        &mut self,
        alloc: Global,
        bytes: &'a [u8],
    ) -> Result<(Meta, &'a [u8]), Refusal>
        ensures gives { Gives (λ r. (r.0, self.new, r.1.now)) result (meta_at self.old bytes.now) }
        ensures limits { IfOk result (λ r. IsMeta r.0) }
    {
        let (version, rest) = positive(bytes)?;
        let (time, rest) = positive_sum(self.counters.time, rest)?;
        let (changeset, rest) = positive_sum(self.counters.changeset, rest)?;
        let (uid, name, rest) = user(&mut self.strings, alloc, rest)?;
        self.counters.time = time as i64;
        self.counters.changeset = changeset as i64;
        match Meta::new(version, time, changeset, uid, name) {
            Ok(meta) => Ok((meta, rest)),
            Err(_) => Err(Refusal::Fault(Why::NoMetadata)),
        }
    }
}

// Appends a user in line: the pair of the bytes of the user id, and the name.
fn write_user_in_line(out: &mut Vec<u8>, uid: u32, name: &[u8]) -> Result<(), WantOfMemory>
    ensures { OnOk result
        (out.new.items ≡ out.old.items ++ pair_in_line (number_text uid) name.now) }
{
    out.push(0)?;
    write_unsigned(out, uid as u64)?;
    out.push(0)?;
    out.extend_from_slice(name)?;
    out.push(0)?;
    Ok(())
}

// Appends a user: the least number that names the pair if there is one, otherwise the pair in line.
fn write_user(
    out: &mut Vec<u8>,
    strings: &mut StringIndex,
    uid: u32,
    name: &[u8],
) -> Result<(), WantOfMemory>
    ensures text { OnOk result
        (out.new.items ≡ out.old.items ++ pair_text strings.old (number_text uid) name.now) }
    ensures strings_are { OnOk result
        (strings.new ≡ after_pair strings.old (number_text uid) name.now) }
{
    let start = out.len();
    write_user_in_line(out, uid, name)?;
    // The in-line form adds three bytes 00.
    let size = out.len() - start - 3;
    name_or_enter(out, strings, start, size)
}

/// Appends version, time, changeset and user, whose name is these bytes.
#[inline(always)]
pub fn write_meta_parts(
    out: &mut Vec<u8>,
    state: &mut State,
    version: u32,
    time: u32,
    changeset: u32,
    uid: u32,
    user: &[u8],
) -> Result<(), WantOfMemory>
    ensures text { OnOk result (out.new.items ≡ out.old.items ++ meta_text state.old (record {
      version = version;
      time = time;
      changeset = changeset;
      uid = uid;
      user = user.now;
    })) }
    ensures state_is { OnOk result (state.new ≡ record state.old {
      strings = after_pair state.old.strings (number_text uid) user.now;
    }) }
{
    write_unsigned(out, version as u64)?;
    write_difference(out, state.counters.time, time as i64)?;
    write_difference(out, state.counters.changeset, changeset as i64)?;
    write_user(out, &mut state.strings, uid, user)
}

/// Appends version, time, changeset and user.
pub(crate) fn write_meta(
    out: &mut Vec<u8>,
    state: &mut State,
    meta: &Meta,
) -> Result<(), WantOfMemory>
    ensures text { OnOk result (out.new.items ≡ out.old.items ++ meta_text state.old meta.now) }
    ensures state_is { OnOk result (state.new ≡ record state.old {
      strings = after_pair state.old.strings (number_text meta.now.uid) meta.now.user;
    }) }
{
    write_meta_parts(
        out,
        state,
        meta.version(),
        meta.time(),
        meta.changeset(),
        meta.uid(),
        meta.user().as_str().as_bytes(),
    )
}
