//! The filter that the command line asks for.

ghost use Rattle.std.specs.Prelude.{◌≡◌, ◌++◌, ◌∷◌, [], IfErr, IfNone, IfOk, IfSome, OnOk, map};
ghost use Rattle.std.specs.Prelude.{true};
ghost use Rattle.osm_model.specs.Filter.{has_kind};
ghost use Rattle.osm_save.specs.Filters.{kinds_text};
ghost use Rattle.osm_runs.specs.Filters.{AreNoKinds, FilterStops, IsAsked};
ghost use Rattle.osm_runs.specs.Steps.Filtering.{AreKeysOf, TextStops, WordStops};

use crate::fault::RunFault;
use osm_model::filter::Filter;
use osm_model::memory::WantOfMemory;
use osm_model::text::{Text, TextError};
use std::alloc::Global;

/// Makes the filter of these kinds and keys. The kinds are some of the letters `n`, `w` and `r`, at
/// least one, each once and in this order. The keys come in any order, and a repeated key counts
/// once. Anything else is refused as `BadFilter`, and so are a key that can't be the key of a tag
/// and more than 100 keys. The filters are those of `osmium tags-filter`, without values.
pub fn filter_of(alloc: Global, kinds: &str, keys: &[&str]) -> Result<Filter, RunFault>
    ensures asked { IfOk result (IsAsked kinds.now (map (λ key. key.now) keys.now)) }
    ensures refused { IfErr result (FilterStops kinds.now (map (λ key. key.now) keys.now)) }
{
    let Some(kinds) = kinds_of(kinds) else {
        return Err(RunFault::BadFilter);
    };
    let keys = sorted_keys(alloc, keys)?;
    match Filter::new(kinds.nodes, kinds.ways, kinds.relations, keys) {
        Ok(filter) => Ok(filter),
        Err(_) => Err(RunFault::BadFilter),
    }
}

// Which kinds are chosen.
#[derive(Clone, Copy)]
struct Kinds {
    nodes: bool,
    ways: bool,
    relations: bool,
}

// The kinds with these letters, of which there is one at least.
fn kinds_of(letters: &str) -> Option<Kinds>
    ensures found { IfSome result (λ k. letters.now ≡ kinds_text k.nodes k.ways k.relations) }
    ensures some { IfSome result (λ k. has_kind k.nodes k.ways k.relations ≡ true) }
    ensures none { IfNone result (AreNoKinds letters.now) }
{
    let (nodes, ways, relations) = match letters {
        "n" => (true, false, false),
        "w" => (false, true, false),
        "r" => (false, false, true),
        "nw" => (true, true, false),
        "nr" => (true, false, true),
        "wr" => (false, true, true),
        "nwr" => (true, true, true),
        _ => return None,
    };
    Some(Kinds {
        nodes,
        ways,
        relations,
    })
}

// The keys as texts, rising by their bytes, each once.
fn sorted_keys(alloc: Global, keys: &[&str]) -> Result<Vec<Text>, RunFault>
    ensures keys { IfOk result (λ texts. AreKeysOf (map (λ key. key.now) keys.now) texts.items) }
    ensures stops { IfErr result (TextStops (map (λ key. key.now) keys.now)) }
{
    let mut texts = texts_of(alloc, keys)?;
    texts.sort_unstable();
    texts.dedup();
    Ok(texts)
}

// The keys as texts, in their order.
fn texts_of(alloc: Global, keys: &[&str]) -> Result<Vec<Text>, RunFault>
    ensures same { IfOk result (λ texts. texts.items ≡ map (λ key. key.now) keys.now) }
    ensures stops { IfErr result (TextStops (map (λ key. key.now) keys.now)) }
{
    let mut texts = Vec::new(alloc);
    for key in keys {
        match text_of(alloc, key) {
            Ok(text) => add(text, &mut texts)?,
            Err(fault) => return Err(fault),
        }
    }
    Ok(texts)
}

fn add(text: Text, texts: &mut Vec<Text>) -> Result<(), WantOfMemory>
    ensures { OnOk result (texts.new.items ≡ texts.old.items ++ text ∷ []) }
{
    texts.push(text)?;
    Ok(())
}

fn text_of(alloc: Global, key: &str) -> Result<Text, RunFault>
    ensures text { IfOk result (λ text. text ≡ key.now) }
    ensures stops { IfErr result (WordStops key.now) }
{
    match Text::new(alloc, key) {
        Ok(text) => Ok(text),
        Err(TextError::HasNul | TextError::TooLong) => Err(RunFault::BadFilter),
        Err(TextError::WantOfMemory) => Err(RunFault::WantOfMemory),
    }
}
