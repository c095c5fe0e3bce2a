//! The store.
ghost use Rattle.std.specs.Prelude.{◌≡◌, ◌||◌, ℕ, ◌<◌, ◌≤◌, [], ◌∷◌, ◌++◌, None, MatchOption, IfSome, IsOk, IfOk, OnOk, OnErr, ◌+◌, length, map, slice_get, Some, is_some, option_map, position, true, false, IsTrue, IfErr, IfNone, ◌≢◌};
ghost use Rattle.std.specs.List.{list_any, find};
ghost use Rattle.graph_model.specs.Names.{same_name};

use crate::edges::EdgeTable;
use crate::filing::reserve_nodes;
use crate::judging::{
    StoreRefusal, Totals, count_with, count_with_both, first_above, is_allowed, key_count,
    leaves_room,
};
use crate::keys::KeyTable;
use crate::naming::{number_name, number_node, number_of_edge};
use crate::pairs::Ends;
use crate::taking::{Arrival, Filed, take_edge, take_node};
use crate::types::TypeTable;
use crate::walks::{EdgeId, EdgeWalk, NodeId, PairId, PairWalk};
use graph_model::{
    Bounds, EdgeName, Event, MOST_LAYERS, MOST_NODES, MOST_TYPES, Memory, Model, Name, Props,
    ValueType, What,
};
use name_intern::NameTable;
use std::alloc::Global;
use std::sync::ledger::Ledger;
use time_column::Steps;
use time_history::{History, Kind};

/// The accepted events of a graph, as a history of each node and of each edge that they name, and the
/// types of nodes. Nodes, layers, keys, names of types, edges and pairs have numbers, in the order in
/// which they were first named.
#[derive(Drop)]
pub struct Store {
    alloc: Global,
    model: Model,
    bounds: Bounds,
    events: u32,
    nodes: NameTable,
    layers: NameTable,
    kinds: NameTable,
    types: TypeTable,
    node_keys: KeyTable,
    edge_keys: KeyTable,
    links: EdgeTable,
    node_histories: Vec<History>,
    edge_histories: Vec<History>,
}

impl std::marker::Model for Store {
    ghost use Rattle.graph_store.specs.Contents.{Contents};

    ghost Value = { Contents };

    ghost use Rattle.graph_store.specs.StoreInvariant.{contents, IsStored};

    ghost view = { contents };

    ghost invariant = { IsStored };
}

impl Store {
    ghost use Rattle.graph_model.specs.Entity.{same_entity, is_about};
    ghost use Rattle.graph_model.specs.Interval.{is_inside};
    ghost use Rattle.graph_model.specs.Limits.{most_events, most_nodes, most_layers, most_keys, most_types};
    ghost use Rattle.graph_model.specs.World.{names_node, type_of, put_type, events_of, allows, IsLawful};
    ghost use Rattle.graph_model.specs.Accepting.{Quantity, all_quantities, layer_names, key_names, type_names, node_events, edge_events, count_of, limit_of, mistyped, passed_limit, event_refusal, is_other_type, type_refusal};
    ghost use Rattle.graph_model.specs.declared.events.Entity.TheVariants.{Node as NodeNamed, Edge as EdgeNamed};
    ghost use Rattle.time_history.specs.Telling.{events_told, Fits};
    ghost use Rattle.time_history.specs.Asked.{AreNamed};
    ghost use Rattle.time_history.specs.Spans.{AreWithin, IsAllowed, IsTaken};
    ghost use Rattle.graph_store.specs.Histories.{span_of_all};
    ghost use Rattle.graph_store.specs.Ends.{same_ends, ends_at};
    ghost use Rattle.graph_store.specs.EdgeParts.{ends_of, parts_at};
    ghost use Rattle.indexmap.specs.IndexSet.{insert_key};
    ghost use Rattle.graph_model.specs.Searches.{digits};
    ghost use Rattle.graph_store.specs.FiledAs.{IsFiledAs};
    ghost use Rattle.graph_store.specs.WithEvent.{node_event, with_node_event, edge_event, with_edge_event, with_event, HasRoom};
    ghost use Rattle.graph_store.specs.WithType.{with_type};
    ghost use Rattle.graph_store.specs.WithUpdate.{with_ends};
    ghost use Rattle.time_history.specs.Kinds.{is_node, is_delete};
    ghost use Rattle.graph_store.specs.Keys.{key_name, with_keys};
    ghost use Rattle.graph_store.specs.PairIndex.{pairs_from, pairs_to};
    ghost use Rattle.graph_store.specs.EdgeIndex.{edges_between};
    ghost use Rattle.graph_store.specs.Refusals.{total_of, is_above, IsMistyped, IsRefusal, IsTypeRefusal};
    ghost use Rattle.graph_store.specs.declared.judging.StoreRefusal.TheVariants.{Memory as MemoryWanting};
    ghost use Rattle.graph_store.specs.Contents.{name_at, edge_name, edge_entities, base_of};
    ghost use Rattle.graph_store.specs.Indexed.{IsIndexed};

    /// A store of no event and no type. It takes no memory.
    pub fn new(alloc: Global, model: Model, bounds: Bounds) -> Store
        ensures model { result.model ≡ model }
        ensures bounds { result.bounds ≡ bounds }
        ensures accepted { result.accepted ≡ [] }
        ensures types { result.types ≡ [] }
        ensures nodes { result.nodes ≡ [] }
        ensures layers { result.layers ≡ [] }
        ensures kinds { result.kinds ≡ [] }
        ensures node_keys { result.node_keys ≡ [] }
        ensures edge_keys { result.edge_keys ≡ [] }
        ensures edges { result.edges ≡ [] }
        ensures pairs { result.pairs ≡ [] }
    {
        Store {
            alloc,
            model,
            bounds,
            events: 0,
            nodes: NameTable::new(alloc, MOST_NODES),
            layers: NameTable::new(alloc, MOST_LAYERS),
            kinds: NameTable::new(alloc, MOST_TYPES),
            types: TypeTable::new(alloc),
            node_keys: KeyTable::new(alloc),
            edge_keys: KeyTable::new(alloc),
            links: EdgeTable::new(alloc),
            node_histories: Vec::new(alloc),
            edge_histories: Vec::new(alloc),
        }
    }

    /// Whether edges are instants, or last until they are deleted.
    pub fn model(&self) -> Model
        ensures { result ≡ self.now.model }
    {
        self.model
    }

    /// The moments that events may have.
    pub fn bounds(&self) -> Bounds
        ensures { result ≡ self.now.bounds }
    {
        self.bounds
    }

    /// How many events were accepted.
    pub fn events(&self) -> u32
        ensures len { result ≡ length self.now.accepted }
        ensures lawful { IsLawful (base_of self.now) }
        ensures limits { (counted : Quantity)
            → count_of counted self.now.accepted self.now.types ≤ limit_of counted }
    {
        let _indexed = self.nodes();
        let _kinds = self.kinds.len();
        let _node_keys = self.node_keys.len();
        let _edge_keys = self.edge_keys.len();
        let _order = self.bounds.lo();
        self.events
    }

    /// How many nodes there are. Their numbers are below that.
    pub fn nodes(&self) -> u32
        ensures len { result ≡ length self.now.nodes }
        ensures few { result ≤ most_nodes }
        ensures indexed { IsIndexed self.now }
    {
        let _layers = self.layers.len();
        let _kinds = self.kinds.len();
        let _edges = self.links.len();
        let _pairs = self.links.pairs();
        self.nodes.len()
    }

    /// How many layers there are, `MOST_LAYERS` at the most. Their numbers are below that.
    pub fn layers(&self) -> u32
        ensures len { result ≡ length self.now.layers }
        ensures few { result ≤ most_layers }
    {
        self.layers.len()
    }

    /// How many keys of nodes there are, `MOST_KEYS` at the most. Their numbers are below that.
    pub fn node_keys(&self) -> u32
        ensures len { result ≡ length self.now.node_keys }
        ensures few { result ≤ most_keys }
    {
        self.node_keys.len()
    }

    /// How many keys of edges there are, `MOST_KEYS` at the most. Their numbers are below that.
    pub fn edge_keys(&self) -> u32
        ensures len { result ≡ length self.now.edge_keys }
        ensures few { result ≤ most_keys }
    {
        self.edge_keys.len()
    }

    /// How many names of types there are, `MOST_TYPES` at the most. Their numbers are below that.
    pub fn types(&self) -> u32
        ensures len { result ≡ length self.now.kinds }
        ensures few { result ≤ most_types }
    {
        self.kinds.len()
    }

    /// How many edges there are. Their numbers are below that.
    pub fn edges(&self) -> u32
        ensures { result ≡ length self.now.edges }
    {
        self.links.len()
    }

    /// How many pairs there are: sources and destinations of edges. Their numbers are below that.
    pub fn pairs(&self) -> u32
        ensures { result ≡ length self.now.pairs }
    {
        self.links.pairs()
    }

    /// The number of a node, if an accepted event or type has named it.
    pub fn node_of(&self, name: &Name) -> Option<NodeId>
        ensures place { option_map (λ n. n.0) result
            ≡ position (same_name name.now) self.now.nodes }
        ensures known { is_some result
            ≡ (names_node self.now.accepted name.now || is_some (type_of self.now.types name.now)) }
    {
        match self.nodes.find(name) {
            Some(node) => Some(NodeId(node)),
            None => None,
        }
    }

    /// The name of a node's number.
    pub fn node_name(&self, n: NodeId) -> &Name
        requires { n.0 < length self.now.nodes }
        ensures { slice_get self.now.nodes n.0 ≡ Some result.now }
    {
        self.nodes.name_of(n.0)
    }

    /// The name of a layer's number.
    pub fn layer_name(&self, layer: u8) -> &Name
        requires { layer < length self.now.layers }
        ensures { slice_get self.now.layers layer ≡ Some result.now }
    {
        self.layers.name_of(layer as u32)
    }

    /// The number of a layer, if an accepted event has named it.
    pub fn layer_of(&self, name: &Name) -> Option<u8>
        ensures place { result ≡ position (same_name name.now) self.now.layers }
        ensures known { is_some result
            ≡ list_any (same_name name.now) (layer_names self.now.accepted) }
    {
        let _few = self.layers.len();
        match self.layers.find(name) {
            Some(layer) => Some(layer as u8),
            None => None,
        }
    }

    /// The number of a key of nodes, if an accepted event has given it a value.
    pub fn node_key(&self, key: &Name) -> Option<u32>
        ensures place { result ≡ position (same_name key.now) (map (λ p. p.0) self.now.node_keys) }
        ensures known { is_some result
            ≡ list_any (same_name key.now) (key_names (node_events self.now.accepted)) }
    {
        match self.node_keys.find(key) {
            Some(place) => Some(place as u32),
            None => None,
        }
    }

    /// The number of a key of edges, if an accepted event has given it a value.
    pub fn edge_key(&self, key: &Name) -> Option<u32>
        ensures place { result ≡ position (same_name key.now) (map (λ p. p.0) self.now.edge_keys) }
        ensures known { is_some result
            ≡ list_any (same_name key.now) (key_names (edge_events self.now.accepted)) }
    {
        match self.edge_keys.find(key) {
            Some(place) => Some(place as u32),
            None => None,
        }
    }

    /// The name of the number of a key of nodes.
    pub fn node_key_name(&self, key: u32) -> &Name
        requires { key < length self.now.node_keys }
        ensures { slice_get (map (λ p. p.0) self.now.node_keys) key ≡ Some result.now }
    {
        self.node_keys.name_of(key)
    }

    /// The name of the number of a key of edges.
    pub fn edge_key_name(&self, key: u32) -> &Name
        requires { key < length self.now.edge_keys }
        ensures { slice_get (map (λ p. p.0) self.now.edge_keys) key ≡ Some result.now }
    {
        self.edge_keys.name_of(key)
    }

    /// The number of an edge, if an accepted event has named it.
    pub fn edge_of(&self, name: &EdgeName) -> Option<EdgeId>
        ensures place { option_map (λ e. e.0) result
            ≡ position (same_entity (EdgeNamed name.now))
            (edge_entities self.now.nodes self.now.layers self.now.edges) }
        ensures known { is_some result
            ≡ list_any (is_about (EdgeNamed name.now)) self.now.accepted }
    {
        match number_of_edge(&self.nodes, &self.layers, &self.links, name) {
            Some(edge) => Some(EdgeId(edge)),
            None => None,
        }
    }

    /// The numbers of an edge's source, destination and layer.
    pub fn edge_parts(&self, e: EdgeId) -> (NodeId, NodeId, u8)
        requires { e.0 < length self.now.edges }
        ensures src { result.0.0 ≡ (parts_at self.now.edges e.0).src }
        ensures dst { result.1.0 ≡ (parts_at self.now.edges e.0).dst }
        ensures layer { result.2 ≡ (parts_at self.now.edges e.0).layer }
        ensures src_within { result.0.0 < length self.now.nodes }
        ensures dst_within { result.1.0 < length self.now.nodes }
        ensures layer_within { result.2 < length self.now.layers }
    {
        let parts = self.links.parts_of(e.0);
        (NodeId(parts.src), NodeId(parts.dst), parts.layer)
    }

    /// The numbers of a pair's source and destination.
    pub fn pair_ends(&self, p: PairId) -> (NodeId, NodeId)
        requires { p.0 < length self.now.pairs }
        ensures src { result.0.0 ≡ (ends_at self.now.pairs p.0).src }
        ensures dst { result.1.0 ≡ (ends_at self.now.pairs p.0).dst }
    {
        let ends = self.links.pair_ends(p.0);
        (NodeId(ends.src), NodeId(ends.dst))
    }

    /// The number of a pair, if an accepted event has named an edge with these ends.
    pub fn pair_of(&self, src: NodeId, dst: NodeId) -> Option<PairId>
        ensures place { option_map (λ p. p.0) result
            ≡ position (same_ends (record { src = src.0; dst = dst.0 })) self.now.pairs }
        ensures known { let ends : Ends = record { src = src.0; dst = dst.0 } in
            is_some result ≡ list_any (λ e. same_ends ends (ends_of e)) self.now.edges }
    {
        let ends = Ends {
            src: src.0,
            dst: dst.0,
        };
        match self.links.find_pair(ends) {
            Some(pair) => Some(PairId(pair)),
            None => None,
        }
    }

    /// The number of a node's type, if it has one.
    pub fn type_of(&self, n: NodeId) -> Option<u32>
        requires { n.0 < length self.now.nodes }
        ensures kind { option_map (name_at self.now.kinds) result
            ≡ type_of self.now.types (name_at self.now.nodes n.0) }
        ensures within { IfSome result (λ kind. kind < length self.now.kinds) }
    {
        self.types.kind_of(n.0)
    }

    /// The number of the name of a type, if a node has a type of this name.
    pub fn type_id(&self, kind: &Name) -> Option<u32>
        ensures place { result ≡ position (same_name kind.now) self.now.kinds }
        ensures known { is_some result ≡ list_any (same_name kind.now) (type_names self.now.types) }
    {
        self.kinds.find(kind)
    }

    /// The name of the number of a type.
    pub fn type_name(&self, t: u32) -> &Name
        requires { t < length self.now.kinds }
        ensures { slice_get self.now.kinds t ≡ Some result.now }
    {
        self.kinds.name_of(t)
    }

    /// The updates of a node, which tell its events in the base world.
    pub fn node_history(&self, n: NodeId) -> &History
        requires { n.0 < length self.now.nodes }
        ensures told { let node = NodeNamed (name_at self.now.nodes n.0) in
            events_told node (key_name self.now.node_keys) result.now.updates
            ≡ events_of (base_of self.now) node }
        ensures fits { Fits (NodeNamed (name_at self.now.nodes n.0)) result.now.updates }
        ensures keys { AreNamed (key_name self.now.node_keys) (length self.now.node_keys)
            result.now.updates }
        ensures within { AreWithin self.now.bounds result.now.updates }
        ensures allowed { IsAllowed self.now.model result.now.updates }
        ensures whole { IsTaken self.now.model self.now.bounds result.now.updates
            (span_of_all result.now.updates) }
    {
        let _keys = self.node_keys.len();
        &self.node_histories[n.0 as usize]
    }

    /// The updates of an edge, which tell its events in the base world.
    pub fn edge_history(&self, e: EdgeId) -> &History
        requires { e.0 < length self.now.edges }
        ensures told { let parts = parts_at self.now.edges e.0 in
            let edge = EdgeNamed (edge_name self.now.nodes self.now.layers parts) in
            events_told edge (key_name self.now.edge_keys) result.now.updates
            ≡ events_of (base_of self.now) edge }
        ensures fits { let parts = parts_at self.now.edges e.0 in
            Fits (EdgeNamed (edge_name self.now.nodes self.now.layers parts)) result.now.updates }
        ensures keys { AreNamed (key_name self.now.edge_keys) (length self.now.edge_keys)
            result.now.updates }
        ensures within { AreWithin self.now.bounds result.now.updates }
        ensures allowed { IsAllowed self.now.model result.now.updates }
        ensures whole { IsTaken self.now.model self.now.bounds result.now.updates
            (span_of_all result.now.updates) }
    {
        let _keys = self.edge_keys.len();
        &self.edge_histories[e.0 as usize]
    }

    /// The pairs whose source is a node, each once.
    pub fn out_pairs(&self, n: NodeId) -> PairWalk<'_>
        requires { n.0 < length self.now.nodes }
        ensures { result ≡ pairs_from self.now.pairs n.0 }
    {
        PairWalk::over(self.links.begin_at(n.0))
    }

    /// The pairs whose destination is a node, each once.
    pub fn in_pairs(&self, n: NodeId) -> PairWalk<'_>
        requires { n.0 < length self.now.nodes }
        ensures { result ≡ pairs_to self.now.pairs n.0 }
    {
        PairWalk::over(self.links.end_at(n.0))
    }

    /// The edges of a pair, each once.
    pub fn edges_of(&self, p: PairId) -> EdgeWalk<'_>
        requires { p.0 < length self.now.pairs }
        ensures { result ≡ edges_between self.now.edges (ends_at self.now.pairs p.0) }
    {
        EdgeWalk::over(self.links.edges_of(p.0))
    }

    /// How many events, nodes, layers, keys and names of types there would be with an event more.
    fn totals_with(&self, event: &Event) -> Totals
        ensures { (counted : Quantity) → total_of result counted
            ≡ count_of counted (self.now.accepted ++ event.now ∷ []) self.now.types }
    {
        let events = self.events + 1;
        let layers = self.layers.len();
        let types = self.kinds.len();
        let nodes = self.nodes.len();
        let node_keys = self.node_keys.len() as usize;
        let edge_keys = self.edge_keys.len() as usize;
        match &event.what {
            What::Node(name, props) => Totals {
                events,
                nodes: count_with(&self.nodes, name),
                layers,
                node_keys: self.node_keys.count_with(props),
                edge_keys,
                types,
            },
            What::Add(edge, props) => Totals {
                events,
                nodes: count_with_both(&self.nodes, &edge.src, &edge.dst),
                layers: count_with(&self.layers, &edge.layer),
                node_keys,
                edge_keys: self.edge_keys.count_with(props),
                types,
            },
            What::Delete(edge) => Totals {
                events,
                nodes: count_with_both(&self.nodes, &edge.src, &edge.dst),
                layers: count_with(&self.layers, &edge.layer),
                node_keys,
                edge_keys,
                types,
            },
        }
    }

    /// The types of the first value, by the bytes of its key, that has another type than its key
    /// keeps: the type that is kept, and the one that is given.
    fn clash_with(&self, event: &Event) -> Option<(ValueType, ValueType)>
        ensures { MatchOption result (mistyped self.now.accepted event.now ≡ None)
            (IsMistyped self.now.accepted event.now) }
    {
        match &event.what {
            What::Node(_, props) => self.node_keys.clash(props),
            What::Add(_, props) => self.edge_keys.clash(props),
            What::Delete(_) => None,
        }
    }

    /// Whether there is room within the limits whatever the event names. No name is looked up for it.
    fn has_room(&self, event: &Event) -> bool
        ensures { IsTrue result
            → passed_limit (self.now.accepted ++ event.now ∷ []) self.now.types ≡ None }
    {
        let totals = Totals {
            events: self.events,
            nodes: self.nodes.len(),
            layers: self.layers.len(),
            node_keys: self.node_keys.len() as usize,
            edge_keys: self.edge_keys.len() as usize,
            types: self.kinds.len(),
        };
        leaves_room(totals, key_count(event))
    }

    /// Why an event is refused, if it is.
    fn refusal_of(&self, event: &Event) -> Option<StoreRefusal>
        ensures { MatchOption result
            (event_refusal self.now.model self.now.accepted self.now.types event.now ≡ None)
            (IsRefusal self.now.model self.now.accepted self.now.types event.now) }
    {
        if !is_allowed(self.model, event) {
            return Some(StoreRefusal::Deletion);
        }
        if let Some((kept, given)) = self.clash_with(event) {
            return Some(StoreRefusal::KeyType { kept, given });
        }
        if self.has_room(event) {
            return None;
        }
        match first_above(self.totals_with(event)) {
            Some(count) => Some(StoreRefusal::Limit(count)),
            None => None,
        }
    }

    /// Why an event is refused, if it is. There is room for one that is not.
    fn judge(&self, event: &Event) -> Option<StoreRefusal>
        ensures refusal { MatchOption result
            (event_refusal self.now.model self.now.accepted self.now.types event.now ≡ None)
            (IsRefusal self.now.model self.now.accepted self.now.types event.now) }
        ensures room { IfNone result (HasRoom self.now (with_event self.now event.now)) }
    {
        let _nodes = self.nodes.len();
        let _layers = self.layers.len();
        let _kinds = self.kinds.len();
        let _node_keys = self.node_keys.len();
        let _edge_keys = self.edge_keys.len();
        self.refusal_of(event)
    }

    /// Takes an event that is not refused. It answers the number of the event's entity.
    fn take<L: Ledger>(&mut self, event: Event, steps: &mut Steps<L>) -> Result<Filed, Memory>
        requires room { HasRoom self.old (with_event self.old event) }
        requires inside { IsTrue (is_inside self.old.bounds event.time) }
        requires allowed { IsTrue (allows self.old.model event) }
        requires typed { mistyped self.old.accepted event ≡ None }
        ensures ok { OnOk result (self.new ≡ with_event self.old event) }
        ensures filed { IfOk result (IsFiledAs self.new event) }
        ensures err { OnErr result (self.new ≡ self.old) }
        ensures cost { steps.new ≤ steps.old + (digits (length self.old.accepted) + 1) }
    {
        let alloc = self.alloc;
        let Event { time, order, what } = event;
        match what {
            What::Node(name, props) => self.update_node(time, order, name, &props, steps),
            What::Add(edge, props) => {
                self.update_edge(time, order, Kind::Add, edge, &props, steps)
            }
            What::Delete(edge) => {
                let none = Props::new(alloc);
                self.update_edge(time, order, Kind::Delete, edge, &none, steps)
            }
        }
    }

    /// Accepts an event whose time is inside the bounds, or refuses it for the first cause. Where it
    /// is accepted, the answer is the number of its node or edge. Where it is refused, or memory is
    /// wanting, the store stays as it is.
    pub fn apply<L: Ledger>(
        &mut self,
        event: Event,
        steps: &mut Steps<L>,
    ) -> Result<Filed, StoreRefusal>
        requires inside { IsTrue (is_inside self.old.bounds event.time) }

        ensures ok { OnOk result (self.new ≡ with_event self.old event) }
        ensures filed { IfOk result (IsFiledAs self.new event) }
        ensures accepted { OnOk result
            (event_refusal self.old.model self.old.accepted self.old.types event ≡ None) }
        ensures events { OnOk result (self.new.accepted ≡ self.old.accepted ++ event ∷ []) }
        ensures model { self.new.model ≡ self.old.model }
        ensures bounds { self.new.bounds ≡ self.old.bounds }
        ensures types { self.new.types ≡ self.old.types }

        ensures refused { IfErr result
            (IsRefusal self.old.model self.old.accepted self.old.types event) }
        ensures err { OnErr result (self.new ≡ self.old) }

        ensures cost { steps.new ≤ steps.old + (digits (length self.old.accepted) + 1) }
        // What is refused for another cause than memory has taken no step.
        ensures free { IfErr result (λ refusal. refusal ≢ MemoryWanting → steps.new ≡ steps.old) }
    {
        if let Some(refusal) = self.judge(&event) {
            return Err(refusal);
        }
        match self.take(event, steps) {
            Ok(filed) => Ok(filed),
            Err(_) => Err(StoreRefusal::Memory),
        }
    }

    /// Takes an update of a node, for which there is room within the limits.
    fn update_node<L: Ledger>(
        &mut self,
        time: i64,
        order: u32,
        name: Name,
        props: &Props,
        steps: &mut Steps<L>,
    ) -> Result<Filed, Memory>
        requires few_events { length self.old.accepted < most_events }
        requires few_nodes { length (insert_key same_name self.old.nodes name) ≤ most_nodes }
        requires few_keys { length (with_keys self.old.node_keys props.now) ≤ most_keys }
        requires inside { IsTrue (is_inside self.old.bounds time) }
        requires typed { mistyped self.old.accepted (node_event time order name props.now) ≡ None }
        ensures ok { OnOk result (self.new ≡ with_node_event self.old time order name props.now) }
        ensures filed { IfOk result
            (IsFiledAs self.new (node_event time order name props.now)) }
        ensures err { OnErr result (self.new ≡ self.old) }
        ensures cost { steps.new ≤ steps.old + (digits (length self.old.accepted) + 1) }
    {
        let _rise = props.len();
        let arrival = Arrival {
            time,
            order,
            number: self.events,
            kind: Kind::Node,
        };
        let number = take_node(
            self.alloc,
            &mut self.node_keys,
            &mut self.nodes,
            &mut self.links,
            &mut self.node_histories,
            name,
            props,
            arrival,
            steps,
        )?;
        self.events += 1;
        Ok(Filed::Node(NodeId(number)))
    }

    /// Takes an addition or a deletion of an edge, for which there is room within the limits.
    fn update_edge<L: Ledger>(
        &mut self,
        time: i64,
        order: u32,
        kind: Kind,
        edge: EdgeName,
        props: &Props,
        steps: &mut Steps<L>,
    ) -> Result<Filed, Memory>
        requires few_events { length self.old.accepted < most_events }
        requires few_nodes { length (with_ends self.old.nodes edge) ≤ most_nodes }
        requires few_layers { length (insert_key same_name self.old.layers edge.layer)
            ≤ most_layers }
        requires few_keys { length (with_keys self.old.edge_keys props.now) ≤ most_keys }
        requires inside { IsTrue (is_inside self.old.bounds time) }
        requires allowed { IsTrue
            (allows self.old.model (edge_event time order kind edge props.now)) }
        requires typed { mistyped self.old.accepted (edge_event time order kind edge props.now)
            ≡ None }
        requires kind { is_node kind ≡ false }
        requires deletion { is_delete kind ≡ true → props.now ≡ [] }
        ensures ok { OnOk result (self.new
            ≡ with_edge_event self.old (edge_event time order kind edge props.now) edge props.now) }
        ensures filed { IfOk result
            (IsFiledAs self.new (edge_event time order kind edge props.now)) }
        ensures err { OnErr result (self.new ≡ self.old) }
        ensures cost { steps.new ≤ steps.old + (digits (length self.old.accepted) + 1) }
    {
        let _indexed = self.nodes();
        let _rise = props.len();
        let arrival = Arrival {
            time,
            order,
            number: self.events,
            kind,
        };
        let number = take_edge(
            self.alloc,
            &mut self.edge_keys,
            &mut self.nodes,
            &mut self.layers,
            &mut self.links,
            &mut self.node_histories,
            &mut self.edge_histories,
            edge,
            props,
            arrival,
            steps,
        )?;
        self.events += 1;
        Ok(Filed::Edge(EdgeId(number)))
    }

    /// The number of the type of a node, by the node's name.
    fn kind_of(&self, node: &Name) -> Option<u32>
        ensures kind { option_map (name_at self.now.kinds) result
            ≡ type_of self.now.types node.now }
        ensures within { IfSome result (λ kind. kind < length self.now.kinds) }
    {
        match self.nodes.find(node) {
            Some(number) => self.types.kind_of(number),
            None => None,
        }
    }

    /// The number of the type of a node, where it has another one than this.
    fn other_type(&self, node: &Name, kind: &Name) -> Option<u32>
        ensures other { is_some result ≡ is_other_type self.now.types node.now kind.now }
        ensures kept { IfSome result (λ kept. slice_get self.now.kinds kept
            ≡ type_of self.now.types node.now) }
    {
        let kept = self.kind_of(node)?;
        if *self.kinds.name_of(kept) == *kind {
            None
        } else {
            Some(kept)
        }
    }

    /// How many events, nodes, layers, keys and names of types there would be with a type more.
    fn totals_with_type(&self, node: &Name, kind: &Name) -> Totals
        ensures totals { (counted : Quantity) → total_of result counted
            ≡ count_of counted self.now.accepted (self.now.types ++ (node.now, kind.now) ∷ []) }
        ensures nodes { result.nodes ≡ length (insert_key same_name self.now.nodes node.now) }
        ensures types { result.types ≡ length (insert_key same_name self.now.kinds kind.now) }
        ensures again { type_of self.now.types node.now ≡ Some kind.now
            → find (is_above result) all_quantities ≡ None }
    {
        let _node_limit = self.nodes.len();
        let _kind_limit = self.kinds.len();
        Totals {
            events: self.events,
            nodes: count_with(&self.nodes, node),
            layers: self.layers.len(),
            node_keys: self.node_keys.len() as usize,
            edge_keys: self.edge_keys.len() as usize,
            types: count_with(&self.kinds, kind),
        }
    }

    /// Why the type of a node is refused, if it is.
    fn type_refusal_of(&self, node: &Name, kind: &Name) -> Option<StoreRefusal>
        ensures refusal { MatchOption result
            (type_refusal self.now.accepted self.now.types node.now kind.now ≡ None)
            (IsTypeRefusal self.now node.now kind.now) }
        ensures few_nodes { IfNone result
            (length (insert_key same_name self.now.nodes node.now) ≤ most_nodes) }
        ensures few_kinds { IfNone result
            (length (insert_key same_name self.now.kinds kind.now) ≤ most_types) }
        ensures again { type_of self.now.types node.now ≡ Some kind.now → result ≡ None }
    {
        if let Some(kept) = self.other_type(node, kind) {
            return Some(StoreRefusal::Retype { kept });
        }
        match first_above(self.totals_with_type(node, kind)) {
            Some(count) => Some(StoreRefusal::Limit(count)),
            None => None,
        }
    }

    /// Gives a node, which has none, a type. There is room within the limits.
    fn add_type(&mut self, node: Name, kind: Name) -> Result<(), Memory>
        requires few_nodes { length (insert_key same_name self.old.nodes node) ≤ most_nodes }
        requires few_kinds { length (insert_key same_name self.old.kinds kind) ≤ most_types }
        requires absent { type_of self.old.types node ≡ None }
        ensures ok { OnOk result (self.new ≡ with_type self.old node kind) }
        ensures err { OnErr result (self.new ≡ self.old) }
    {
        reserve_nodes(
            &mut self.nodes,
            &mut self.links,
            &mut self.node_histories,
            1,
            0,
        )?;
        self.kinds.reserve(1)?;
        self.types.reserve(1)?;
        let number = number_node(
            self.alloc,
            &mut self.nodes,
            &mut self.links,
            &mut self.node_histories,
            node,
        );
        let kind_number = number_name(&mut self.kinds, kind);
        self.types.put(number, kind_number);
        Ok(())
    }

    /// Gives a node a type, whether or not an event names the node. A type given again changes
    /// nothing and takes no memory. `Retype` has the number of the type that the node has.
    pub fn set_type(&mut self, node: Name, kind: Name) -> Result<(), StoreRefusal>
        ensures ok { OnOk result (self.new ≡ with_type self.old node kind) }
        ensures accepted { OnOk result
            (type_refusal self.old.accepted self.old.types node kind ≡ None) }
        ensures refused { IfErr result (IsTypeRefusal self.old node kind) }
        ensures err { OnErr result (self.new ≡ self.old) }

        // The type of a node, and nothing else that a contract of other crates reads.
        ensures types { OnOk result (self.new.types ≡ put_type (node, kind) self.old.types) }
        ensures events { self.new.accepted ≡ self.old.accepted }
        ensures model { self.new.model ≡ self.old.model }
        ensures bounds { self.new.bounds ≡ self.old.bounds }
        ensures again { type_of self.old.types node ≡ Some kind → IsOk result }
    {
        let _known = self.nodes.len();
        if let Some(refusal) = self.type_refusal_of(&node, &kind) {
            return Err(refusal);
        }
        if self.kind_of(&node).is_some() {
            return Ok(());
        }
        match self.add_type(node, kind) {
            Ok(()) => Ok(()),
            Err(_) => Err(StoreRefusal::Memory),
        }
    }
}
