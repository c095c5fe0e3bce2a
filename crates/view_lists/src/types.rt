//! The types of the nodes that a view names.
ghost use Rattle.std.specs.Prelude.{◌≡◌, ℕ, ◌<◌, [], ◌∷◌, ◌++◌, List, true, length, slice_set};
ghost use Rattle.std.specs.Prelude.{IfOk, OnOk, if◌then◌else◌};
ghost use Rattle.std.specs.List.{filter, flat_map, All};
ghost use Rattle.graph_model.specs.declared.events.Entity.{Entity};
ghost use Rattle.graph_model.specs.World.{names_node};
ghost use Rattle.graph_store.specs.Contents.{name_at};
ghost use Rattle.view_trait.specs.Coverage.{Covers};
ghost use Rattle.view_lists.specs.Listing.{entity_named, AreFound, IsNumbered, IsShownEntity};
ghost use Rattle.view_lists.specs.Listing.{entities_of};
ghost use Rattle.view_lists.specs.Types.{AreMarked, types_listed, typed_node};

use crate::listing::{ShownEntity, Subject, shown_by_number};
use graph_model::{Memory, Name};
use graph_store::{NodeId, Store};
use std::alloc::Global;
use std::sync::ledger::Ledger;
use time_column::Steps;
use view_trait::{Roster, View};

/// A node and its type, by the names that the store has for them.
#[derive(Clone, Copy)]
pub struct TypedNode<'s> {
    pub node: &'s Name,
    pub kind: &'s Name,
}

/// Sets the flag of a node.
fn mark(flags: &mut Vec<bool>, n: NodeId)
    requires { n.0 < length flags.old.items }
    ensures { flags.new.items ≡ slice_set flags.old.items n.0 true }
{
    flags[n.0 as usize] = true;
}

/// Sets the flags of the nodes that a node or an edge names.
fn mark_named(flags: &mut Vec<bool>, store: &Store, one: ShownEntity<'_>)
    requires numbered { IsNumbered store.now one.subject }
    requires len { length flags.old.items ≡ length store.now.nodes }
    ensures { (es : List Entity)
        → AreMarked store.now es flags.old.items
        → AreMarked store.now (es ++ entity_named one.entry.subject ∷ []) flags.new.items }
{
    let _indexed = store.nodes();
    match one.subject {
        Subject::Node(node, _) => mark(flags, node),
        Subject::Edge(edge, _, _, _) => {
            let (src, dst, _) = store.edge_parts(edge);
            mark(flags, src);
            mark(flags, dst);
        }
    }
}

/// A flag for each node of the store: whether the shown nodes and edges name it.
fn named_nodes<V: View>(
    alloc: Global,
    view: &V,
    shown: &[ShownEntity<'_>],
) -> Result<Vec<bool>, Memory>
    requires { All (IsShownEntity (V.contents view.now) (V.world view.now)) shown.now }
    ensures { IfOk result (λ flags.
        AreMarked (V.contents view.now) (entities_of shown.now) flags.items) }
{
    let store = view.store();
    let mut flags = vec![in alloc; false; store.nodes() as usize]?;
    for one in shown {
        mark_named(&mut flags, store, *one);
    }
    Ok(flags)
}

/// Adds a node with its type, if it is named and has a type.
fn push_typed<'s>(
    typed: &mut Vec<TypedNode<'s>>,
    store: &'s Store,
    n: NodeId,
    is_named: bool,
) -> Result<(), Memory>
    requires { n.0 < length store.now.nodes }
    ensures { OnOk result (types_listed typed.new.items
        ≡ types_listed typed.old.items
        ++ (if is_named then typed_node store.now.types (name_at store.now.nodes n.0)
        else [])) }
{
    if !is_named {
        return Ok(());
    }
    if let Some(kind) = store.type_of(n) {
        let node = store.node_name(n);
        let kind = store.type_name(kind);
        typed.push(TypedNode { node, kind })?;
    }
    Ok(())
}

/// The nodes that the events of a view name and that have types, by their numbers, where a flag
/// says of each node whether it is named.
fn typed_nodes<'s, V: View>(
    alloc: Global,
    view: &'s V,
    shown: &[ShownEntity<'_>],
    flags: &[bool],
) -> Result<Vec<TypedNode<'s>>, Memory>
    requires marked { AreMarked (V.contents view.now) (entities_of shown.now) flags.now }
    requires found { AreFound (V.contents view.now) (V.world view.now) shown.now }
    ensures { IfOk result (λ typed.
        types_listed typed.items
        ≡ flat_map (typed_node (V.contents view.now).types)
        (filter (names_node (V.world view.now).events) (V.contents view.now).nodes)) }
{
    let store = view.store();
    let mut typed = Vec::new(alloc);
    for n in 0..store.nodes() {
        push_typed(&mut typed, store, NodeId(n), flags[n as usize])?;
    }
    Ok(typed)
}

/// The nodes that the events of a view name and that have types, rising by the node's name. The
/// nodes and edges are those that have events in the view.
pub(crate) fn typed_in_order<'s, V: View>(
    alloc: Global,
    view: &'s V,
    shown: &[ShownEntity<'_>],
) -> Result<Vec<TypedNode<'s>>, Memory>
    requires { AreFound (V.contents view.now) (V.world view.now) shown.now }
    ensures { IfOk result (λ typed. types_listed typed.items ≡ (V.world view.now).types) }
{
    let store = view.store();
    let _lawful = store.events();
    let flags = named_nodes(alloc, view, shown)?;
    let mut typed = typed_nodes(alloc, view, shown, flags.as_slice())?;
    typed.sort_unstable_by(|a, b| a.node.cmp(b.node));
    Ok(typed)
}

/// The nodes that the events of a view name and that have types, rising by the node's name. They
/// are the same for every roster that covers the view. Each span of the roster is asked once.
pub fn list_typed_nodes<'s, V: View, L: Ledger>(
    alloc: Global,
    view: &'s V,
    roster: Roster<'_>,
    steps: &mut Steps<L>,
) -> Result<Vec<TypedNode<'s>>, Memory>
    requires covers { Covers (V.contents view.now) (V.world view.now) roster }
    ensures { IfOk result (λ typed. types_listed typed.items ≡ (V.world view.now).types) }
{
    let shown = shown_by_number(alloc, view, roster, steps)?;
    typed_in_order(alloc, view, shown.as_slice())
}
