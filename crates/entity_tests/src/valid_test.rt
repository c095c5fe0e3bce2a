//! The test of edges whose last event is an addition.
ghost use Rattle.std.specs.Prelude.{◌≡◌, ℕ, ℤ, List, false};
ghost use Rattle.graph_model.specs.declared.events.Entity.{Entity};
ghost use Rattle.graph_model.specs.Keep.{is_valid};
ghost use Rattle.graph_model.specs.Presence.{ends_in_addition as is_added_last};
ghost use Rattle.time_history.specs.Telling.{Fits};
ghost use Rattle.time_history.specs.Spans.{IsSpan, spelled};
ghost use Rattle.entity_tests.specs.Kinds.{is_add};
ghost use Rattle.entity_tests.specs.Tests.{never_asked};

use crate::entity_test::EntityTest;
use graph_store::{EdgeId, NodeId, Store};
use time_history::{History, Kind, Span};

fn is_addition(kind: Kind) -> bool
    ensures { result ≡ is_add kind }
{
    matches!(kind, Kind::Add)
}

/// Whether the last event of a part of an entity's history is an addition.
pub fn ends_in_addition(history: &History, span: Span) -> bool
    requires { IsSpan history.now.updates span }
    ensures { (entity : Entity) (names : ℕ → List ℕ) (lo : ℤ) → Fits entity history.now.updates → result ≡ is_added_last (spelled entity names history.now.updates span lo) }
{
    match history.last_kind(span) {
        Some(kind) => is_addition(kind),
        None => false,
    }
}

/// All nodes, and the edges whose last event is an addition.
#[derive(Clone, Copy)]
pub struct ValidTest;

impl EntityTest for ValidTest {
    ghost passes = { λ test c w. is_valid w };

    ghost by_ends = { λ test. false };

    ghost ends = { λ test c w edge h. never_asked h };

    fn asks_ends(&self) -> bool {
        false
    }

    fn layers(&self) -> u64 {
        u64::MAX
    }

    fn passes_node(&self, _store: &Store, _n: NodeId, _span: Span) -> bool {
        true
    }

    fn passes_edge(&self, store: &Store, e: EdgeId, span: Span) -> bool {
        ends_in_addition(store.edge_history(e), span)
    }
}
