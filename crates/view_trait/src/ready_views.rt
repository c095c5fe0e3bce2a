//! Finding the numbers of the names that views give.
ghost use Rattle.std.specs.Prelude.{◌≡◌, ℕ, ◌<◌, List, true, length, map, IfOk};
ghost use Rattle.std.specs.List.{list_all};
ghost use Rattle.graph_model.specs.Keep.{has_type};
ghost use Rattle.graph_model.specs.Range.{op_in_range};
ghost use Rattle.graph_model.specs.Searches.{kind_of_view};
ghost use Rattle.graph_model.specs.Stack.{view as view_of, apply};
ghost use Rattle.graph_model.specs.World.{World};
ghost use Rattle.graph_store.specs.Contents.{name_at, base_of};
ghost use Rattle.view_trait.specs.Drawn.{IsDrawn, Selects};
ghost use Rattle.view_trait.specs.Numbered.{has_bit, is_listed};
ghost use Rattle.view_trait.specs.Ready.{ready_view, ready_apply, ready_kind, in_range};

use crate::facts::store_facts;
use crate::numbers::NodeList;
use crate::ready_ops::{ReadyOp, ReadyOps};
use graph_model::{Bounds, Memory, NameList, Op, OpList};
use graph_store::{NodeId, Store};
use std::alloc::Global;

/// The layers of these names, as bits. A name that no layer has sets none.
fn layer_bits(store: &Store, names: &NameList) -> u64
    ensures { Selects store.now.layers names.now (has_bit result) }
{
    store_facts(store);
    let mut bits: u64 = 0;
    for i in 0..names.len() {
        if let Some(layer) = store.layer_of(names.item(i)) {
            bits |= 1 << layer;
        }
    }
    bits
}

/// The numbers of the nodes of these names. A name that no node has adds none.
pub fn nodes_of(alloc: Global, store: &Store, names: &NameList) -> Result<NodeList, Memory>
    ensures { IfOk result (λ nodes. Selects store.now.nodes names.now (is_listed nodes)) }
{
    store_facts(store);
    let mut nodes = NodeList::new(alloc);
    for i in 0..names.len() {
        if let Some(node) = store.node_of(names.item(i)) {
            nodes.push(node)?;
        }
    }
    Ok(nodes)
}

/// The numbers of the types of these names. A name that no type has adds none.
fn types_of(alloc: Global, store: &Store, names: &NameList) -> Result<Vec<u32>, Memory>
    ensures { IfOk result (λ kinds. Selects store.now.kinds names.now (is_listed kinds.items)) }
{
    store_facts(store);
    let mut kinds = Vec::new(alloc);
    for i in 0..names.len() {
        if let Some(kind) = store.type_id(names.item(i)) {
            kinds.push(kind)?;
        }
    }
    Ok(kinds)
}

/// Whether the type of a node is among some.
fn has_kind(store: &Store, n: NodeId, kinds: &[u32]) -> bool
    requires { n.0 < length store.now.nodes }
    ensures { (names : List (List ℕ))
        → Selects store.now.kinds names (is_listed kinds.now)
        → result ≡ has_type store.now.types names (name_at store.now.nodes n.0) }
{
    match store.type_of(n) {
        Some(kind) => kinds.contains(&kind),
        None => false,
    }
}

/// The numbers of the nodes that have a type of one of these names.
fn typed_nodes(alloc: Global, store: &Store, names: &NameList) -> Result<NodeList, Memory>
    ensures { let typed = has_type store.now.types names.now in
        IfOk result (λ nodes. (n : ℕ) → n < length store.now.nodes
        → is_listed nodes n ≡ typed (name_at store.now.nodes n)) }
{
    let kinds = types_of(alloc, store, names)?;
    let mut nodes = NodeList::new(alloc);
    for n in 0..store.nodes() {
        if has_kind(store, NodeId(n), &kinds) {
            nodes.push(NodeId(n))?;
        }
    }
    Ok(nodes)
}

/// A view by the numbers of its names, which shows the same of each world over the store.
fn ready_op(alloc: Global, store: &Store, op: &Op) -> Result<ReadyOp, Memory>
    requires { op_in_range op.now ≡ true }
    ensures view { IfOk result (λ ready. (w : World) → IsDrawn store.now w
        → ready_view store.now w ready ≡ view_of w op.now) }
    ensures in_range { IfOk result (λ ready. in_range ready ≡ true) }
    ensures kind { IfOk result (λ ready. ready_kind ready ≡ kind_of_view op.now) }
{
    match op {
        Op::Window(from, to) => Ok(ReadyOp::Window(*from, *to)),
        Op::At(t) => Ok(ReadyOp::Window(*t, *t + 1)),
        Op::Before(t) => Ok(ReadyOp::Window(Bounds::EARLIEST, *t)),
        Op::After(t) => Ok(ReadyOp::Window(*t + 1, Bounds::LATEST)),
        Op::Layers(names) => Ok(ReadyOp::Layers(layer_bits(store, names))),
        Op::ExcludeLayers(names) => Ok(ReadyOp::Layers(!layer_bits(store, names))),
        Op::Subgraph(names) => Ok(ReadyOp::Subgraph(nodes_of(alloc, store, names)?)),
        Op::ExcludeNodes(names) => Ok(ReadyOp::ExcludeNodes(nodes_of(alloc, store, names)?)),
        Op::EdgesWhere(key, cmp, value) => {
            Ok(ReadyOp::EdgesWhere(store.edge_key(key), *cmp, value.copy()?))
        }
        Op::NodesWhere(key, cmp, value) => {
            Ok(ReadyOp::NodesWhere(store.node_key(key), *cmp, value.copy()?))
        }
        Op::Valid => Ok(ReadyOp::Valid),
        Op::NodeTypes(names) => Ok(ReadyOp::Subgraph(typed_nodes(alloc, store, names)?)),
    }
}

/// The views by the numbers of their names in a store. A name that the store does not have selects
/// nothing, and a key that it does not have has no number. No stored time is read.
pub fn ready(alloc: Global, store: &Store, views: &OpList) -> Result<ReadyOps, Memory>
    requires { list_all op_in_range views.now ≡ true }
    ensures base { let base = base_of store.now in
        IfOk result (λ ops. ready_apply store.now ops base ≡ apply views.now base) }
    // So it is with each world that shows what the accepted events say.
    ensures world { IfOk result (λ ops. (w : World) → IsDrawn store.now w
        → ready_apply store.now ops w ≡ apply views.now w) }
    ensures in_range { IfOk result (λ ops. list_all in_range ops ≡ true) }
    ensures kinds { IfOk result (λ ops. map ready_kind ops ≡ map kind_of_view views.now) }
{
    store_facts(store);
    let mut ops = ReadyOps::new(alloc);
    for i in 0..views.len() {
        ops.push(ready_op(alloc, store, views.item(i))?)?;
    }
    Ok(ops)
}
