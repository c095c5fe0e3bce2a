//! The ways of all nodes by links.
ghost use Rattle.std.specs.Prelude.{◌≡◌, ◌⊎◌, ◌^◌, ◌<◌, true, length, IfOk};
ghost use Rattle.std.specs.List.{IsDistinct};
ghost use Rattle.graph_store.specs.Ends.{same_ends};
ghost use Rattle.present_links.specs.Links.{ends_in, link_ends};
ghost use Rattle.walk_algorithms.specs.Counted.{CountsWays};
ghost use Rattle.walk_algorithms.specs.Paired.{ArePaired, NoneFar, both_ends, next_back, turned};

use crate::ways::WayTable;
use graph_model::Memory;
use graph_store::NodeId;
use present_links::{Link, Links};
use std::alloc::Global;

/// The number that a link shares with its way back, and with no other: its lower end, and then its
/// higher one.
fn both_ends(link: Link) -> u64
    ensures { result ≡ both_ends (link_ends link) }
{
    let (src, dst) = (u64::from(link.src), u64::from(link.dst));
    if dst < src {
        dst * 4294967296 + src
    } else {
        src * 4294967296 + dst
    }
}

/// Whether a link leads from the end of another to its beginning. Two links that share their number
/// lead back each from the other, or are the same.
fn leads_back(link: Link, other: Link) -> bool
    ensures back { result ≡ same_ends (turned (link_ends other)) (link_ends link) }
    ensures shared { both_ends (link_ends link) ≡ both_ends (link_ends other)
        → result ≡ true ⊎ link_ends link ≡ link_ends other }
{
    link.src == other.dst && link.dst == other.src
}

/// Whether the link after one leads back. Of those behind that none does.
fn next_leads_back(links: &[Link], i: usize) -> bool
    requires paired { ArePaired (ends_in links.now) }
    requires here { i < length links.now }
    ensures next { result ≡ next_back (ends_in links.now) i }
    ensures far { NoneFar (ends_in links.now) i }
{
    i + 1 < links.len() && leads_back(links[i + 1], links[i])
}

/// The ways of nodes by links, each of which stands beside its way back, if there is one. Both are
/// counted at once.
fn count_links(alloc: Global, links: &[Link]) -> Result<WayTable, Memory>
    requires paired { ArePaired (ends_in links.now) }
    requires few { length links.now < 2 ^ 32 }
    ensures { IfOk result (CountsWays (ends_in links.now) (ends_in links.now)) }
{
    let mut ways = WayTable::new(alloc);
    let mut i = 0;
    while i < links.len() {
        let link = links[i];
        let paired = next_leads_back(links, i);
        let back = paired || link.src == link.dst;
        ways.count(NodeId(link.src), NodeId(link.dst), true, back)?;
        i += if paired { 2 } else { 1 };
    }
    Ok(ways)
}

/// The ways of all nodes by distinct links. They are sorted again, so that each stands beside its way
/// back, and none has to be looked for. It takes memory for the nodes where one begins or ends.
pub fn link_ways(alloc: Global, links: Links) -> Result<WayTable, Memory>
    requires once { IsDistinct same_ends links }
    requires few { length links < 2 ^ 32 }
    ensures { IfOk result (CountsWays links links) }
{
    let mut links = links.into_vec();
    links.sort_unstable_by_key(|link| both_ends(*link));
    count_links(alloc, links.as_slice())
}
