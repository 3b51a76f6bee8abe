//! Scripts: one event a line, as `edit n1 v1 dV c7 t2024-01-01T00:00:00Z i5 uann T x1 y2`, `close
//! 2024-01-01T00:00:00Z`, `deliver 1 opl`, `deliver 1 o5c`, `show`, `save`, `restart` and `begin
//! 1`. Empty lines and lines that begin with `#` are skipped.

ghost use Rattle.std.specs.Prelude.{◌≡◌, ℕ, ◌<◌, ◌++◌, ◌^◌, List, [], ◌∷◌, length};
ghost use Rattle.std.specs.Prelude.{IfOk, IfErr, OnOk, IfSome, IfNone};
ghost use Rattle.osm_script.specs.Script.{IsEventLine, ScriptOf, ScriptStops, form_text};
ghost use Rattle.osm_world.specs.declared.event.Event.{Event};
ghost use Rattle.osm_world.specs.declared.event.Form.{Form};
ghost use Rattle.osm_script.specs.Steps.Parsing.{AllAreTaken, IsBeginOf, IsCloseOf, IsDeliverOf};
ghost use Rattle.osm_script.specs.Steps.Parsing.{IsEditOf, IsTakenAs, LineStops, EventStops};

use crate::fault::ScriptFault;
use osm_model::memory::WantOfMemory;
use osm_model::time::time_read;
use osm_opl::lines::{LineError, read_line};
use osm_reading::lines::{is_skipped_line, split_line};
use osm_reading::sequence::sequence_read;
use osm_world::event::{Event, Form};
use std::alloc::Global;

/// Why a line isn't taken.
#[derive(Clone, Copy, Debug, PartialEq, Eq)]
enum LineFault {
    WantOfMemory,
    NoEvent,
}

/// Takes the events of a script, one after another.
pub(crate) trait EventSink {
    /// The sink took these events, in this order.
    ghost took: { Self → List Event → Type 0 };

    fn take(&mut self, event: Event) -> Result<(), WantOfMemory>
        ensures taken { (events : List Event) → took self.old events
            → OnOk result (took self.new (events ++ event ∷ [])) };
}

impl EventSink for Vec<Event> {
    ghost use Rattle.std.specs.Prelude.{◌≡◌};

    ghost took = { λ sink events. sink.items ≡ events };

    fn take(&mut self, event: Event) -> Result<(), WantOfMemory> {
        self.push(event)?;
        Ok(())
    }
}

/// Reads the events of a script, one a line; empty lines and lines that begin with `#` are skipped.
/// The first line that is neither skipped nor an event is refused as `BadScript`, with its number,
/// counted from 1 over all lines. The only other fault is `WantOfMemory`.
pub fn parse_script(alloc: Global, script: &[u8]) -> Result<Vec<Event>, ScriptFault>
    requires { length script.now < 2 ^ 63 }
    ensures events { IfOk result (λ events. ScriptOf script.now events.items) }
    ensures refused { IfErr result (ScriptStops script.now) }
{
    let mut events = Vec::new(alloc);
    send_events(alloc, script, &mut events)?;
    Ok(events)
}

/// Sends the event of each line to the sink as soon as the line is read. The first line that is
/// neither skipped nor an event is refused as `BadScript`, with its number, counted from 1 over all
/// lines. The only other fault is `WantOfMemory`.
pub(crate) fn send_events<S: EventSink>(
    alloc: Global,
    script: &[u8],
    sink: &mut S,
) -> Result<(), ScriptFault>
    requires short { length script.now < 2 ^ 63 }
    requires empty { S.took sink.old [] }
    ensures sent { OnOk result (AllAreTaken (S.took sink.new) script.now) }
    ensures refused { IfErr result (ScriptStops script.now) }
{
    let mut rest = Some(script);
    let mut number = 0u64;
    while let Some(bytes) = rest {
        let (line, after) = split_line(bytes);
        number += 1;
        match line_event(alloc, line, number) {
            Ok(None) => {}
            Ok(Some(event)) => {
                let Ok(()) = sink.take(event) else {
                    return Err(ScriptFault::WantOfMemory);
                };
            }
            Err(fault) => return Err(fault),
        }
        rest = after;
    }
    Ok(())
}

// The event of the line with that number; None if it is skipped.
fn line_event(alloc: Global, line: &[u8], number: u64) -> Result<Option<Event>, ScriptFault>
    ensures taken { IfOk result (IsTakenAs line.now) }
    ensures refused { IfErr result (LineStops line.now number) }
{
    if is_skipped_line(line) {
        return Ok(None);
    }
    match parse_event(alloc, line) {
        Ok(event) => Ok(Some(event)),
        Err(LineFault::WantOfMemory) => Err(ScriptFault::WantOfMemory),
        Err(LineFault::NoEvent) => Err(ScriptFault::BadScript(number)),
    }
}

fn parse_event(alloc: Global, line: &[u8]) -> Result<Event, LineFault>
    ensures event { IfOk result (λ e. IsEventLine line.now e) }
    ensures refused { IfErr result (EventStops (IsEventLine line.now)) }
{
    if let Some(object) = after_prefix(line, b"edit ") {
        return parse_edit(alloc, object);
    }
    if let Some(text) = after_prefix(line, b"close ") {
        return parse_close(text);
    }
    if let Some(words) = after_prefix(line, b"deliver ") {
        return parse_deliver(words);
    }
    if let Some(digits) = after_prefix(line, b"begin ") {
        return parse_begin(digits);
    }
    match line {
        b"show" => Ok(Event::Show),
        b"save" => Ok(Event::Save),
        b"restart" => Ok(Event::Restart),
        _ => Err(LineFault::NoEvent),
    }
}

fn parse_edit(alloc: Global, object: &[u8]) -> Result<Event, LineFault>
    ensures event { IfOk result (λ e. IsEditOf object.now e) }
    ensures refused { IfErr result (EventStops (IsEditOf object.now)) }
{
    match read_line(alloc, object) {
        Ok(change) => Ok(Event::Edit(change)),
        Err(LineError::WantOfMemory) => Err(LineFault::WantOfMemory),
        Err(LineError::Fault(_)) => Err(LineFault::NoEvent),
    }
}

fn parse_close(text: &[u8]) -> Result<Event, LineFault>
    ensures event { IfOk result (λ e. IsCloseOf text.now e) }
    ensures refused { IfErr result (EventStops (IsCloseOf text.now)) }
{
    match time_read(text) {
        Some(time) => Ok(Event::Close(time)),
        None => Err(LineFault::NoEvent),
    }
}

fn parse_deliver(words: &[u8]) -> Result<Event, LineFault>
    ensures event { IfOk result (λ e. IsDeliverOf words.now e) }
    ensures refused { IfErr result (EventStops (IsDeliverOf words.now)) }
{
    let Some((digits, form)) = before_form(words) else {
        return Err(LineFault::NoEvent);
    };
    match sequence_read(digits) {
        Some(number) => Ok(Event::Deliver { number, form }),
        None => Err(LineFault::NoEvent),
    }
}

fn parse_begin(digits: &[u8]) -> Result<Event, LineFault>
    ensures event { IfOk result (λ e. IsBeginOf digits.now e) }
    ensures refused { IfErr result (EventStops (IsBeginOf digits.now)) }
{
    match sequence_read(digits) {
        Some(number) => Ok(Event::Begin(number)),
        None => Err(LineFault::NoEvent),
    }
}

// What comes before the name of a form at the end of the words, and that form.
fn before_form(words: &[u8]) -> Option<(&[u8], Form)>
    ensures found { IfSome result (λ r. words.now ≡ r.0.now ++ form_text r.1) }
    ensures none { IfNone result ((digits : List ℕ) (form : Form)
        → words.now ≡ digits ++ form_text form → ⊥) }
{
    if let Some(digits) = before_suffix(words, b" opl") {
        return Some((digits, Form::Opl));
    }
    if let Some(digits) = before_suffix(words, b" o5c") {
        return Some((digits, Form::O5c));
    }
    None
}

// The rest of a line that begins with the prefix.
fn after_prefix<'a>(line: &'a [u8], prefix: &[u8]) -> Option<&'a [u8]>
    ensures found { IfSome result (λ rest. line.entry.now ≡ prefix.now ++ rest.now) }
    ensures none { IfNone result ((rest : List ℕ) → line.entry.now ≡ prefix.now ++ rest → ⊥) }
{
    match line.strip_prefix(prefix) {
        Some(rest) => Some(rest),
        None => None,
    }
}

// The rest of words that end with the suffix.
fn before_suffix<'a>(words: &'a [u8], suffix: &[u8]) -> Option<&'a [u8]>
    ensures found { IfSome result (λ rest. words.entry.now ≡ rest.now ++ suffix.now) }
    ensures none { IfNone result ((rest : List ℕ) → words.entry.now ≡ rest ++ suffix.now → ⊥) }
{
    match words.strip_suffix(suffix) {
        Some(rest) => Some(rest),
        None => None,
    }
}
