//! The cores of views.
ghost use Rattle.std.specs.Prelude.{OnOk};
ghost use Rattle.graph_model.specs.declared.queries.Ask.TheVariants.{Core as CoreOf, CoreNumbers};
ghost use Rattle.view_trait.specs.Coverage.{Covers};
ghost use Rattle.answer_parts.specs.WorldPart.{AddsPart};

use crate::nodes::add_names;
use crate::store_row::{StoreRow, add_rows};
use core_algorithm::{Core, core_numbers, k_core};
use event_rows::RowWriter;
use graph_model::Memory;
use graph_store::Store;
use itoa::Buffer;
use std::alloc::Global;
use std::sync::ledger::Ledger;
use time_column::Steps;
use view_trait::{Roster, View};

impl StoreRow for Core {
    ghost use Rattle.std.specs.Prelude.{◌<◌, length};
    ghost use Rattle.core_algorithm.specs.Cores.{core_row_of};

    ghost as_row = { core_row_of };

    ghost is_known = { λ c core. core.node.0 < length c.nodes };

    fn add_to(&self, out: &mut RowWriter, store: &Store) -> Result<(), Memory> {
        out.add_fields(&[
            store.node_name(self.node).as_str().as_bytes(),
            Buffer::new().format(self.number).as_bytes(),
        ])
    }
}

/// Adds the part of the world of a view: the nodes of the core of a number. They are the same for
/// every roster that covers the view.
pub fn add_core<V: View, L: Ledger>(
    alloc: Global,
    out: &mut RowWriter,
    view: &V,
    roster: Roster<'_>,
    k: u32,
    steps: &mut Steps<L>,
) -> Result<(), Memory>
    requires covers { Covers (V.contents view.now) (V.world view.now) roster }
    ensures { OnOk result (AddsPart (V.world view.now) (CoreOf k) out.old out.new) }
{
    let rows = k_core(alloc, view, roster, k, steps)?;
    add_names(out, view.bounds(), view.store(), &rows)
}

/// Adds the part of the world of a view: the present nodes with their core numbers. They are the same
/// for every roster that covers the view.
pub fn add_core_numbers<V: View, L: Ledger>(
    alloc: Global,
    out: &mut RowWriter,
    view: &V,
    roster: Roster<'_>,
    steps: &mut Steps<L>,
) -> Result<(), Memory>
    requires covers { Covers (V.contents view.now) (V.world view.now) roster }
    ensures { OnOk result (AddsPart (V.world view.now) CoreNumbers out.old out.new) }
{
    let rows = core_numbers(alloc, view, roster, steps)?;
    add_rows(out, view.bounds(), view.store(), rows.as_slice())
}
