//! The types of the nodes that a view names, copied as a list.
ghost use Rattle.std.specs.Prelude.{◌≡◌, IfOk};
ghost use Rattle.view_trait.specs.Coverage.{Covers};
ghost use Rattle.view_lists.specs.Types.{types_listed};

use graph_model::{Memory, TypeList};
use std::alloc::Global;
use std::sync::ledger::Ledger;
use time_column::Steps;
use view_lists::{TypedNode, list_typed_nodes};
use view_trait::{Roster, View};

/// A list of types of nodes.
fn copied_types(alloc: Global, typed: &[TypedNode<'_>]) -> Result<TypeList, Memory>
    ensures { IfOk result (λ types. types ≡ types_listed typed.now) }
{
    let mut types = TypeList::new(alloc);
    for one in typed {
        types.push((one.node.copy()?, one.kind.copy()?))?;
    }
    Ok(types)
}

/// The types of the nodes that the events of a view name, rising by the node's name. They are the
/// same for every roster that covers the view. Each span of the roster is asked once.
pub fn list_types<V: View, L: Ledger>(
    alloc: Global,
    view: &V,
    roster: Roster<'_>,
    steps: &mut Steps<L>,
) -> Result<TypeList, Memory>
    requires covers { Covers (V.contents view.now) (V.world view.now) roster }
    ensures { IfOk result (λ types. types ≡ (V.world view.now).types) }
{
    let typed = list_typed_nodes(alloc, view, roster, steps)?;
    copied_types(alloc, typed.as_slice())
}
