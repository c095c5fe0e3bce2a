//! Lists of links.
ghost use Rattle.std.specs.Prelude.{◌≡◌, ◌<◌, [], length, slice_get, Some};
ghost use Rattle.std.specs.List.Retain.{IsFiltered, DiffersFromLast};
ghost use Rattle.graph_model.specs.Rising.{rising};
ghost use Rattle.present_links.specs.Links.{ends_cmp, ends_in, link_ends, same_link};

use std::marker::Model;

/// A link, by the numbers of the nodes where it begins and where it ends. Links are compared by where
/// they begin, and then by where they end.
#[derive(Clone, Copy, PartialEq, Eq, PartialOrd, Ord, Drop)]
pub struct Link {
    pub src: u32,
    pub dst: u32,
}

/// The links that a view shows, each once, rising by source and then by destination. A contract sees
/// the list of their ends.
#[derive(Drop)]
pub struct Links {
    links: Vec<Link>,
}

impl Model for Links {
    ghost use Rattle.std.specs.Prelude.{List};
    ghost use Rattle.graph_store.specs.declared.pairs.Ends.{Ends};
    ghost use Rattle.present_links.specs.Links.{ends_in};

    ghost Value = { List Ends };

    ghost view = { λ l. ends_in l.links.items };
}

impl Links {
    /// The distinct links among some, rising. It takes no memory.
    pub fn from_vec(links: Vec<Link>) -> Links
        ensures { result ≡ rising ends_cmp (ends_in links.items) }
    {
        let mut links = links;
        links.sort_unstable();
        drop_repeated(&mut links);
        Links { links }
    }

    /// How many links there are.
    pub fn len(&self) -> usize
        ensures { result ≡ length self.now }
    {
        self.links.len()
    }

    /// The link at a place, counted from 0.
    pub fn item(&self, i: usize) -> Link
        requires { i < length self.now }
        ensures { slice_get self.now i ≡ Some (link_ends result) }
    {
        self.links[i]
    }

    /// The links alone, which may be put into another order. It takes no memory.
    pub fn into_vec(self) -> Vec<Link>
        ensures { ends_in result.items ≡ self }
    {
        self.links
    }
}

/// Drops each link that is the same as the one before.
fn drop_repeated(links: &mut Vec<Link>)
    ensures { IsFiltered (DiffersFromLast same_link) [] links.old.items links.new.items }
{
    links.dedup();
}
