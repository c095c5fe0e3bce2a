//! What a view shows as present.
ghost use Rattle.std.specs.Prelude.{◌≡◌, ◌<◌, ◌||◌, ◌+◌, ◌*◌, length};
ghost use Rattle.std.specs.List.{AllByRecursion, list_any};
ghost use Rattle.graph_model.specs.Entity.{is_about};
ghost use Rattle.graph_model.specs.declared.events.Model.TheVariants.{Event as Instants};
ghost use Rattle.graph_model.specs.Presence.{edge_present as is_edge_present};
ghost use Rattle.graph_model.specs.Presence.{node_present as is_node_present};
ghost use Rattle.graph_store.specs.PairIndex.{pairs_from, pairs_to};
ghost use Rattle.graph_store.specs.Contents.{name_at};
ghost use Rattle.view_trait.specs.Meaning.{StepsWithin, node_at, edge_named};
ghost use Rattle.view_trait.specs.Present.{pair_leads, any_pair_leads};
ghost use Rattle.view_trait.specs.Present.{edge_count, edge_count_of, edge_count_at};

use crate::view::View;
use graph_store::{EdgeId, NodeId, PairId, PairWalk};
use std::sync::ledger::Ledger;
use time_column::Steps;

/// Whether an edge is present.
pub fn edge_present<V: View, L: Ledger>(view: &V, e: EdgeId, steps: &mut Steps<L>) -> bool
    requires { e.0 < length (V.contents view.now).edges }
    ensures present { let edge = edge_named (V.contents view.now) e.0 in
        result ≡ is_edge_present (V.world view.now) edge }
    ensures cost { let among = length (V.contents view.now).accepted in
        (V.world view.now).model ≡ Instants
        → StepsWithin steps.old steps.new (V.searches view.now).edges among }
{
    let store = view.store();
    let span = view.edge_span(e, steps);
    store
        .edge_history(e)
        .present(span, view.bounds(), store.model(), steps)
}

/// Whether a pair is present: a present edge leads from its source to its destination. In the event
/// model each edge of the pair is searched once at the most; in the other no clause bounds the
/// steps.
pub fn pair_present<V: View, L: Ledger>(view: &V, p: PairId, steps: &mut Steps<L>) -> bool
    requires { p.0 < length (V.contents view.now).pairs }
    ensures present { result ≡ pair_leads (V.contents view.now) (V.world view.now) p.0 }
    ensures cost { let c = V.contents view.now in
        let searches = edge_count c p.0 * (V.searches view.now).edges in
        (V.world view.now).model ≡ Instants
        → StepsWithin steps.old steps.new searches (length c.accepted) }
{
    let mut edges = view.store().edges_of(p);
    while let Some(e) = edges.next() {
        if edge_present(view, e, steps) {
            return true;
        }
    }
    false
}

/// Whether one of the pairs yet to come is present.
fn any_pair_present<V: View, L: Ledger>(view: &V, pairs: PairWalk<'_>, steps: &mut Steps<L>) -> bool
    requires { AllByRecursion (λ p. p < length (V.contents view.now).pairs) pairs }
    ensures present { result ≡ any_pair_leads (V.contents view.now) (V.world view.now) pairs.entry }
    ensures cost { let c = V.contents view.now in
        let searches = edge_count_of c pairs.entry * (V.searches view.now).edges in
        (V.world view.now).model ≡ Instants
        → StepsWithin steps.old steps.new searches (length c.accepted) }
{
    let mut pairs = pairs;
    while let Some(p) = pairs.next() {
        if pair_present(view, p, steps) {
            return true;
        }
    }
    false
}

/// Whether a present edge begins or ends at a node.
fn has_present_pair<V: View, L: Ledger>(view: &V, n: NodeId, steps: &mut Steps<L>) -> bool
    requires { n.0 < length (V.contents view.now).nodes }
    ensures present { let c = V.contents view.now in
        let leads = any_pair_leads c (V.world view.now) in
        result ≡ (leads (pairs_from c.pairs n.0) || leads (pairs_to c.pairs n.0)) }
    ensures cost { let c = V.contents view.now in
        let searches = edge_count_at c n.0 * (V.searches view.now).edges in
        (V.world view.now).model ≡ Instants
        → StepsWithin steps.old steps.new searches (length c.accepted) }
{
    let store = view.store();
    any_pair_present(view, store.out_pairs(n), steps)
        || any_pair_present(view, store.in_pairs(n), steps)
}

/// Whether a node has an event of its own. Its span is asked once.
pub fn has_event<V: View, L: Ledger>(view: &V, n: NodeId, steps: &mut Steps<L>) -> bool
    requires { n.0 < length (V.contents view.now).nodes }
    ensures event { let node = node_at (V.contents view.now) n.0 in
        result ≡ list_any (is_about node) (V.world view.now).events }
    ensures cost { let among = length (V.contents view.now).accepted in
        StepsWithin steps.old steps.new (V.searches view.now).nodes among }
{
    let store = view.store();
    let span = view.node_span(n, steps);
    store.node_history(n).last_kind(span).is_some()
}

/// Whether a node is present: it has an event of its own, or is an end of a present edge. In the
/// event model its span is searched once at the most, and each edge that begins or ends at it; in
/// the other no clause bounds the steps.
pub fn node_present<V: View, L: Ledger>(view: &V, n: NodeId, steps: &mut Steps<L>) -> bool
    requires { n.0 < length (V.contents view.now).nodes }
    ensures present { let node = name_at (V.contents view.now).nodes n.0 in
        result ≡ is_node_present (V.world view.now) node }
    ensures cost { let c = V.contents view.now in
        let s = V.searches view.now in
        let searches = s.nodes + edge_count_at c n.0 * s.edges in
        (V.world view.now).model ≡ Instants
        → StepsWithin steps.old steps.new searches (length c.accepted) }
{
    has_event(view, n, steps) || has_present_pair(view, n, steps)
}
