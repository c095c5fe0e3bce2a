//! Laws of links. The functions do nothing: their contracts are the laws.
ghost use Rattle.std.specs.Prelude.{◌≡◌, ◌≢◌, ◌<◌, ◌+◌, ◌++◌, ℕ, Bool, List, length};
ghost use Rattle.graph_model.specs.Names.{name_cmp};
ghost use Rattle.graph_model.specs.Neighbours.{leads, neighbours};
ghost use Rattle.graph_model.specs.Rising.{rising};
ghost use Rattle.graph_model.specs.World.{IsLawful, World};
ghost use Rattle.graph_model.specs.declared.events.Model.TheVariants.{Event as Instants};
ghost use Rattle.graph_model.specs.declared.queries.Direction.{Direction};
ghost use Rattle.graph_model.specs.declared.queries.Direction.TheVariants.{Both, Inward, Outward};
ghost use Rattle.graph_store.specs.Contents.{Contents, base_of, name_at};
ghost use Rattle.graph_store.specs.Indexed.{IsIndexed};
ghost use Rattle.graph_store.specs.declared.pairs.Ends.{Ends};
ghost use Rattle.view_trait.specs.Meaning.{IsShown};
ghost use Rattle.view_trait.specs.Numbered.{is_listed};
ghost use Rattle.present_links.specs.Adjacent.{AdjacentNodes, AreAdjacent, number_at, row_at};
ghost use Rattle.present_links.specs.Links.{HasLinks, ShowsEdges, links_of, rising_links, shown_links};
ghost use Rattle.present_links.specs.Links.{links_from, links_to, links_to_alone, names_linked_from, names_linked_to};

/// Where a world shows some of a store's edges, the pairs with an edge that is shown are its links.
pub fn shown_pairs_are_links()
    ensures { (c : Contents) → IsIndexed c → (w : World) (shown : ℕ → Bool)
        → ShowsEdges c w shown → HasLinks w c.nodes (shown_links shown c) }
{}

/// What a view shows has the pairs with a present edge as its links, in any order, and so has it the
/// rising list of them.
pub fn views_have_links()
    ensures links { (c : Contents) (w : World) → IsShown c w → HasLinks w c.nodes (links_of c w) }
    ensures rising { (c : Contents) (w : World) → IsShown c w → HasLinks w c.nodes (rising_links c w) }
{}

/// In the event model all pairs of a store are links of its base world.
pub fn pairs_are_links()
    ensures { (c : Contents) → c.model ≡ Instants → IsLawful (base_of c) → IsIndexed c
        → HasLinks (base_of c) c.nodes c.pairs }
{}

/// The neighbours of a node are at the other ends of its links.
pub fn neighbours_are_at_the_ends_of_links()
    ensures outward { (w : World) (nodes : List (List ℕ)) (links : List Ends)
        → HasLinks w nodes links → (n : ℕ) → n < length nodes
        → neighbours w Outward (name_at nodes n) ≡ rising name_cmp (names_linked_to nodes links n) }
    ensures inward { (w : World) (nodes : List (List ℕ)) (links : List Ends)
        → HasLinks w nodes links → (n : ℕ) → n < length nodes
        → neighbours w Inward (name_at nodes n) ≡ rising name_cmp (names_linked_from nodes links n) }
    ensures both { (w : World) (nodes : List (List ℕ)) (links : List Ends)
        → HasLinks w nodes links → (n : ℕ) → n < length nodes
        → neighbours w Both (name_at nodes n)
        ≡ rising name_cmp (names_linked_to nodes links n ++ names_linked_from nodes links n) }
{}

/// A node has as many neighbours as links, each way; both ways it has as many as links from it, and
/// links to it that have no link back.
pub fn links_count_neighbours()
    ensures outward { (w : World) (nodes : List (List ℕ)) (links : List Ends)
        → HasLinks w nodes links → (n : ℕ) → n < length nodes
        → length (neighbours w Outward (name_at nodes n)) ≡ length (links_from links n) }
    ensures inward { (w : World) (nodes : List (List ℕ)) (links : List Ends)
        → HasLinks w nodes links → (n : ℕ) → n < length nodes
        → length (neighbours w Inward (name_at nodes n)) ≡ length (links_to links n) }
    ensures both { (w : World) (nodes : List (List ℕ)) (links : List Ends)
        → HasLinks w nodes links → (n : ℕ) → n < length nodes
        → length (neighbours w Both (name_at nodes n)) ≡
        length (links_from links n) + length (links_to_alone links n) }
{}

/// Another node is a neighbour of a node, in a direction, where its place stands in the node's row.
pub fn rows_have_neighbours()
    ensures { (c : Contents) (w : World) → IsShown c w → (d : Direction) (a : AdjacentNodes)
        → AreAdjacent (rising_links c w) d a
        → (v u : ℕ) → v < length a.nodes → u < length a.nodes → v ≢ u
        → is_listed (row_at a.rows v) u
        ≡ leads w d (name_at c.nodes (number_at a.nodes v)) (name_at c.nodes (number_at a.nodes u)) }
{}
