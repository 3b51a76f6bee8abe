//! What a change has in the columns.

ghost use Rattle.std.specs.Prelude.{◌≡◌};
ghost use Rattle.osm_model.specs.KeyOrder.{kind_rank};
ghost use Rattle.osm_range.specs.Columns.{combination_of, number_in};

use crate::columns::{Column, Columns};
use osm_model::change::Change;
use osm_model::kind::Kind;

/// A number for each column, in the order of the columns, and then zeros.
pub(crate) type Combination = (u32, u32, u32, u32);

/// Gives what a change has in the columns, and 0 in each place without a column.
pub(crate) fn combination_of(columns: Columns, change: &Change) -> Combination
    ensures { result ≡ combination_of columns change.now }
{
    (
        number_in(columns.first, change),
        number_in(columns.second, change),
        number_in(columns.third, change),
        number_in(columns.fourth, change),
    )
}

// What a change has in a column: the first second of its day, the number of its user or its
// changeset, or the position of its kind.
fn number_in(column: Option<Column>, change: &Change) -> u32
    ensures { result ≡ number_in column change.now }
{
    let meta = change.meta();
    match column {
        None => 0,
        Some(Column::Day) => meta.time() / 86400 * 86400,
        Some(Column::User) => meta.uid(),
        Some(Column::Changeset) => meta.changeset(),
        Some(Column::Kind) => position(change.key().kind),
    }
}

fn position(kind: Kind) -> u32
    ensures { result ≡ kind_rank kind }
{
    match kind {
        Kind::Node => 0,
        Kind::Way => 1,
        Kind::Relation => 2,
    }
}
