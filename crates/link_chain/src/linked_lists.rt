//! Lists of items that are linked by index, and that grow at their ends.
ghost use Rattle.std.specs.Prelude.{◌≡◌, ℕ, ◌+◌, ◌-◌, ◌^◌, ◌<◌, ◌≤◌, [], ◌∷◌, ◌++◌, length, vec_len, slice_set, drop, OnOk, OnErr, IfOk, IfSome, IsOk};
ghost use Rattle.std.specs.Vec.{vec_capacity};
ghost use Rattle.link_chain.specs.Chains.{list_at, link_count, put_last, first_link, from_link, walk_left, IsLink, IsLinkedOnce};
ghost use Rattle.link_chain.specs.HeadsAndLinks.{head_at, link_at};

use crate::{Memory, NOWHERE};
use std::alloc::Global;
use std::marker::Model;

/// Where a list begins and ends.
#[derive(Clone, Copy, Drop)]
struct Head {
    first: u32,
    last: u32,
}

/// An item, and the link that follows it.
#[derive(Clone, Copy, Drop)]
struct Link {
    item: u32,
    next: u32,
}

/// Begins the list of a head, which was empty, with its first link.
fn begin(heads: &mut Vec<Head>, head: usize, link: u32)
    requires { head < vec_len heads.old }
    ensures items { heads.new.items ≡ slice_set heads.old.items head (record { first = link; last = link }) }
    ensures len { vec_len heads.new ≡ vec_len heads.old }
    ensures capacity { vec_capacity heads.new ≡ vec_capacity heads.old }
{
    heads[head] = Head {
        first: link,
        last: link,
    };
}

/// Ends the list of a head with a link.
fn end_with(heads: &mut Vec<Head>, head: usize, link: u32)
    requires { head < vec_len heads.old }
    ensures items { heads.new.items ≡ slice_set heads.old.items head (record { first = (head_at heads.old.items head).first; last = link }) }
    ensures len { vec_len heads.new ≡ vec_len heads.old }
    ensures capacity { vec_capacity heads.new ≡ vec_capacity heads.old }
{
    heads[head].last = link;
}

/// Lets a link follow another one.
fn lead_on(links: &mut Vec<Link>, at: usize, link: u32)
    requires { at < vec_len links.old }
    ensures items { links.new.items ≡ slice_set links.old.items at (record { item = (link_at links.old.items at).item; next = link }) }
    ensures len { vec_len links.new ≡ vec_len links.old }
    ensures capacity { vec_capacity links.new ≡ vec_capacity links.old }
{
    links[at].next = link;
}

/// Lists of items that grow at their ends. A head is the place of a list, counted from 0. Each item
/// stands with a link, a number by which a walk goes on, and no link stands twice.
///
/// Chains are seen as a list, by heads, of lists of pairs of a link and an item, and with two numbers
/// more: the heads and the links that may be added with no memory taken. There are at most 2^32 - 1
/// heads and as many links.
///
/// All heads lie in one block of memory and all links in another, so a list takes no memory of its
/// own. A head has the indexes of its list's first and last link, and a link has its item and the
/// index of the next link. So each reader makes one read, and `append` writes at most three places.
#[derive(Drop)]
pub struct Chains {
    heads: Vec<Head>,
    links: Vec<Link>,
}

impl Model for Chains {
    ghost use Rattle.std.specs.Prelude.{◌-◌};
    ghost use Rattle.std.specs.Vec.{vec_len, vec_capacity};
    ghost use Rattle.link_chain.specs.Chains.{ChainLists};
    ghost use Rattle.link_chain.specs.HeadsAndLinks.{lists_of, AreChains};

    ghost Value = { ChainLists };

    ghost view = { λ c. record {
      lists = lists_of c.heads.items c.links.items;
      spare_heads = vec_capacity c.heads - vec_len c.heads;
      spare_links = vec_capacity c.links - vec_len c.links;
    } };

    ghost invariant = { λ c. AreChains c.heads.items c.links.items (lists_of c.heads.items c.links.items) };
}

impl Chains {
    /// Chains with no list. It takes no memory.
    pub fn new(alloc: Global) -> Chains
        ensures { result.lists ≡ [] }
    {
        Chains {
            heads: Vec::new(alloc),
            links: Vec::new(alloc),
        }
    }

    /// Adds an empty list at the end and answers its head.
    ///
    /// It cannot want memory while there are spare heads, and uses up at most one of them. Where it
    /// wants memory, nothing changes.
    pub fn add_head(&mut self) -> Result<u32, Memory>
        requires few { length self.old.lists < 2 ^ 32 - 1 }
        ensures head { IfOk result (λ head. head ≡ length self.old.lists) }
        ensures lists { OnOk result (self.new.lists ≡ self.old.lists ++ [] ∷ []) }
        ensures head_count { OnOk result (length self.new.lists ≡ length self.old.lists + 1) }
        ensures link_count { link_count self.new.lists ≡ link_count self.old.lists }
        ensures err { OnErr result (self.new ≡ self.old) }

        ensures room { 0 < self.old.spare_heads → IsOk result }
        ensures spare_heads { self.old.spare_heads ≤ self.new.spare_heads + 1 }
        ensures spare_links { self.new.spare_links ≡ self.old.spare_links }
    {
        self.heads.reserve(1)?;
        let head = self.heads.len() as u32;
        self.heads.push_reserved(Head {
            first: NOWHERE,
            last: NOWHERE,
        });
        Ok(head)
    }

    /// Adds an item with a new link, whose number is the count of links so far, at the end of a
    /// head's list. No other pair changes.
    ///
    /// It cannot want memory while there are spare links, and uses up at most one of them. Where it
    /// wants memory, nothing changes.
    pub fn append(&mut self, head: u32, item: u32) -> Result<(), Memory>
        requires head { head < length self.old.lists }
        requires few { link_count self.old.lists < 2 ^ 32 - 1 }
        ensures lists { OnOk result (self.new.lists ≡ put_last head item self.old.lists) }
        ensures head_count { length self.new.lists ≡ length self.old.lists }
        ensures link_count { OnOk result (link_count self.new.lists ≡ link_count self.old.lists + 1) }
        ensures err { OnErr result (self.new ≡ self.old) }

        ensures room { 0 < self.old.spare_links → IsOk result }
        ensures spare_links { self.old.spare_links ≤ self.new.spare_links + 1 }
        ensures spare_heads { self.new.spare_heads ≡ self.old.spare_heads }
    {
        self.links.reserve(1)?;
        let last = self.heads[head as usize].last;
        let link = self.links.len() as u32;
        self.links.push_reserved(Link {
            item,
            next: NOWHERE,
        });
        if last == NOWHERE {
            begin(&mut self.heads, head as usize, link);
            return Ok(());
        }
        lead_on(&mut self.links, last as usize, link);
        end_with(&mut self.heads, head as usize, link);
        Ok(())
    }

    /// The first link of a head's list, and `None` exactly where the list is empty.
    pub fn first(&self, head: u32) -> Option<u32>
        requires head { head < length self.now.lists }
        ensures first { result ≡ first_link (list_at self.now.lists head) }
        ensures exists { IfSome result (λ link. IsLink self.now.lists link) }

        // A walk from the first link passes the whole list.
        ensures walk { walk_left self.now.lists result ≡ list_at self.now.lists head }
        ensures once { IsLinkedOnce self.now.lists }
    {
        let first = self.heads[head as usize].first;
        if first == NOWHERE { None } else { Some(first) }
    }

    /// The link that follows a link in its list, and `None` exactly where the link is the last one.
    pub fn next(&self, link: u32) -> Option<u32>
        requires link { IsLink self.now.lists link }
        ensures next { result ≡ first_link (drop 1 (from_link link self.now.lists)) }
        ensures exists { IfSome result (λ next. IsLink self.now.lists next) }

        // A walk from there passes what a walk from the link passes after the link.
        ensures walk { walk_left self.now.lists result ≡ drop 1 (from_link link self.now.lists) }
    {
        let next = self.links[link as usize].next;
        if next == NOWHERE { None } else { Some(next) }
    }

    /// The item that stands with a link.
    pub fn item(&self, link: u32) -> u32
        requires link { IsLink self.now.lists link }
        ensures { from_link link self.now.lists ≡ (link, result) ∷ drop 1 (from_link link self.now.lists) }
    {
        self.links[link as usize].item
    }

    /// Makes room, so that so many heads and so many items may be added with no memory taken.
    ///
    /// The lists stay as they are. Where memory is wanting they stay too, and neither spare number
    /// falls, but the spare heads may have grown.
    pub fn reserve(&mut self, heads: u32, items: u32) -> Result<(), Memory>
        ensures lists { self.new.lists ≡ self.old.lists }
        ensures heads { OnOk result (heads ≤ self.new.spare_heads) }
        ensures items { OnOk result (items ≤ self.new.spare_links) }
        ensures spare_heads { self.old.spare_heads ≤ self.new.spare_heads }
        ensures spare_links { self.old.spare_links ≤ self.new.spare_links }
    {
        self.heads.reserve(heads as usize)?;
        self.links.reserve(items as usize)
    }
}
