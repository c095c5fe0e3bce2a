//! Lists of numbers that grow at their ends, and of which most are short.
ghost use Rattle.std.specs.Prelude.{◌≡◌, ℕ, ◌+◌, ◌-◌, ◌^◌, ◌<◌, ◌≤◌, [], ◌∷◌, ◌++◌, length, OnOk, MatchOption, MatchBool};
ghost use Rattle.link_chain.specs.NumberLists.{numbers_at, with_last};
ghost use Rattle.link_chain.specs.FirstsAndChains.{firsts_of};

use crate::{ChainWalk, Chains, Memory, NOWHERE};
use std::alloc::Global;
use std::marker::Model;

/// The first numbers of a list, at most three. `NOWHERE` stands for none, and behind it nothing is
/// read.
#[derive(Clone, Copy, Drop)]
struct Firsts {
    first: u32,
    second: u32,
    third: u32,
}

impl Firsts {
    /// No number.
    fn none() -> Firsts
        ensures { firsts_of result ≡ [] }
    {
        Firsts {
            first: NOWHERE,
            second: NOWHERE,
            third: NOWHERE,
        }
    }

    /// Whether there are three.
    fn is_full(self) -> bool
        ensures { MatchBool result (length (firsts_of self) ≡ 3) (length (firsts_of self) < 3) }
    {
        self.first != NOWHERE && self.second != NOWHERE && self.third != NOWHERE
    }

    /// The numbers and one more behind them, and `None` exactly where there are three.
    fn with(self, number: u32) -> Option<Firsts>
        requires { number < 2 ^ 32 - 1 }
        ensures { MatchOption result (length (firsts_of self) ≡ 3) (λ f. (firsts_of f ≡ firsts_of self ++ number ∷ []) × (length (firsts_of self) < 3)) }
    {
        let mut longer = self;
        if self.first == NOWHERE {
            longer.first = number;
            longer.second = NOWHERE;
        } else if self.second == NOWHERE {
            longer.second = number;
            longer.third = NOWHERE;
        } else if self.third == NOWHERE {
            longer.third = number;
        } else {
            return None;
        }
        Some(longer)
    }

    /// Takes the first number.
    fn step(&mut self) -> Option<u32>
        ensures { MatchOption result ((firsts_of self.old ≡ []) × (firsts_of self.new ≡ [])) (λ x. firsts_of self.old ≡ x ∷ firsts_of self.new) }
    {
        let first = self.first;
        if first == NOWHERE {
            return None;
        }
        self.first = self.second;
        self.second = self.third;
        self.third = NOWHERE;
        Some(first)
    }
}

/// Lists of numbers that grow at their ends, and of which most are short. The lists are counted from
/// 0, and a number is at most 2^32 - 2.
///
/// Up to three numbers of a list lie beside one another in its own entry, so one read finds them. The
/// others stand in a chain, each a read of its own. A list takes no memory of its own.
///
/// They are seen as a list of lists, and with three numbers more: how many numbers stand in chains,
/// and the lists and the numbers that may be added with no memory taken. There are at most 2^32 - 1
/// lists and as many numbers in chains.
#[derive(Drop)]
pub struct NumberLists {
    firsts: Vec<Firsts>,
    more: Chains,
}

impl Model for NumberLists {
    ghost use Rattle.std.specs.Prelude.{◌-◌, min};
    ghost use Rattle.std.specs.Vec.{vec_len, vec_capacity};
    ghost use Rattle.link_chain.specs.Chains.{link_count};
    ghost use Rattle.link_chain.specs.NumberLists.{ListsOfNumbers};
    ghost use Rattle.link_chain.specs.FirstsAndChains.{numbers_from, AreNumbers};

    ghost Value = { ListsOfNumbers };

    ghost view = { λ n. record {
      lists = numbers_from n.firsts.items n.more.lists;
      links = link_count n.more.lists;
      spare_lists = min (vec_capacity n.firsts - vec_len n.firsts) n.more.spare_heads;
      spare_links = n.more.spare_links;
    } };

    ghost invariant = { λ n. AreNumbers n.firsts.items n.more.lists };
}

impl NumberLists {
    /// No list. It takes no memory.
    pub fn new(alloc: Global) -> NumberLists
        ensures lists { result.lists ≡ [] }
        ensures links { result.links ≡ 0 }
    {
        NumberLists {
            firsts: Vec::new(alloc),
            more: Chains::new(alloc),
        }
    }

    /// Adds an empty list at the end and answers its number. It takes no memory, and uses up at most
    /// one spare list.
    pub fn add_list(&mut self) -> u32
        requires few { length self.old.lists < 2 ^ 32 - 1 }
        requires room { 0 < self.old.spare_lists }
        ensures number { result ≡ length self.old.lists }
        ensures lists { self.new.lists ≡ self.old.lists ++ [] ∷ [] }
        ensures links { self.new.links ≡ self.old.links }

        ensures spare_lists { self.old.spare_lists ≤ self.new.spare_lists + 1 }
        ensures spare_links { self.new.spare_links ≡ self.old.spare_links }
    {
        let list = self.firsts.len() as u32;
        self.firsts.push_reserved(Firsts::none());
        let _ = self.more.add_head();
        list
    }

    /// Adds a number at the end of a list. It takes no memory, and uses up at most one spare link.
    pub fn append(&mut self, list: u32, number: u32)
        requires list { list < length self.old.lists }
        requires number { number < 2 ^ 32 - 1 }
        requires few { self.old.links < 2 ^ 32 - 1 }
        requires room { 0 < self.old.spare_links }
        ensures lists { self.new.lists ≡ with_last list number self.old.lists }
        ensures list_count { length self.new.lists ≡ length self.old.lists }
        ensures links { self.new.links ≤ self.old.links + 1 }

        ensures spare_lists { self.new.spare_lists ≡ self.old.spare_lists }
        ensures spare_links { self.old.spare_links ≤ self.new.spare_links + 1 }
    {
        let firsts = self.firsts[list as usize];
        match firsts.with(number) {
            Some(longer) => {
                self.firsts[list as usize] = longer;
            }
            None => {
                let _ = self.more.append(list, number);
            }
        }
    }

    /// The numbers of a list. Only where it has three or more is its chain read.
    pub fn walk(&self, list: u32) -> NumberWalk<'_>
        requires { list < length self.now.lists }
        ensures { result ≡ numbers_at self.now.lists list }
    {
        let firsts = self.firsts[list as usize];
        let more = if firsts.is_full() {
            ChainWalk::along(&self.more, list)
        } else {
            ChainWalk::nothing(&self.more)
        };
        NumberWalk { firsts, more }
    }

    /// Makes room, so that so many lists and so many numbers may be added with no memory taken.
    ///
    /// The lists stay as they are. Where memory is wanting they stay too, and neither spare number
    /// falls, but the spare lists may have grown.
    pub fn reserve(&mut self, lists: u32, links: u32) -> Result<(), Memory>
        ensures lists { self.new.lists ≡ self.old.lists }
        ensures links { self.new.links ≡ self.old.links }
        ensures room_for_lists { OnOk result (lists ≤ self.new.spare_lists) }
        ensures room_for_links { OnOk result (links ≤ self.new.spare_links) }
        ensures spare_lists { self.old.spare_lists ≤ self.new.spare_lists }
        ensures spare_links { self.old.spare_links ≤ self.new.spare_links }
    {
        self.firsts.reserve(lists as usize)?;
        self.more.reserve(lists, links)
    }
}

/// What is left of a walk over a list of numbers. A contract sees the numbers yet to come.
#[derive(Drop)]
pub struct NumberWalk<'a> {
    firsts: Firsts,
    more: ChainWalk<'a>,
}

impl<'a> Model for NumberWalk<'a> {
    ghost use Rattle.std.specs.Prelude.{ℕ, List, ◌++◌};
    ghost use Rattle.link_chain.specs.FirstsAndChains.{firsts_of};

    ghost Value = { List ℕ };

    ghost view = { λ w. firsts_of w.firsts ++ w.more };
}

impl<'a> NumberWalk<'a> {
    /// The next number.
    pub fn step(&mut self) -> Option<u32>
        ensures { MatchOption result ((self.old ≡ []) × (self.new ≡ [])) (λ x. self.old ≡ x ∷ self.new) }
    {
        match self.firsts.step() {
            Some(number) => Some(number),
            None => self.more.step(),
        }
    }
}
