//! Sinks, which take the objects of a data file.

ghost use Rattle.std.specs.Prelude.{◌≡◌, ◌++◌, ◌∷◌, [], List, OnOk};
ghost use Rattle.osm_model.specs.Change.{ChangeValue};
ghost use Rattle.osm_model.specs.Flat.{flat_node};

use osm_model::change::Change;
use osm_model::flat::{FlatNode, FlatTag};
use osm_model::memory::WantOfMemory;

/// Takes the objects of a data file, one after another.
pub trait ObjectSink {
    /// What the sink becomes when it takes the given objects, in order.
    ghost takes: { Self → List ChangeValue → Self → Type 0 };

    /// Takes an object.
    fn take(&mut self, object: &Change) -> Result<(), WantOfMemory>
        ensures { OnOk result (takes self.old (object.now ∷ []) self.new) };

    /// Takes a node that wasn't built, and its tags.
    fn take_node(&mut self, node: &FlatNode<'_>, tags: &[FlatTag<'_>]) -> Result<(), WantOfMemory>
        ensures { OnOk result (takes self.old (flat_node node.now tags.now ∷ []) self.new) };

    /// Tells the prover the laws of taking objects. Does nothing at run time.
    fn laws()
        ensures none { (sink : Self) → takes sink [] sink }
        ensures more { (a b c : Self) (xs ys : List ChangeValue)
            → takes a xs b → takes b ys c → takes a (xs ++ ys) c };
}

/// Gives objects to a sink, in order.
pub fn take_all<K: ObjectSink>(sink: &mut K, objects: &[Change]) -> Result<(), WantOfMemory>
    ensures { OnOk result (K.takes sink.old objects.now sink.new) }
{
    K::laws();
    for object in objects {
        sink.take(object)?;
    }
    Ok(())
}
