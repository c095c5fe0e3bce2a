//! Walks along chains.
ghost use Rattle.std.specs.Prelude.{◌≡◌, ◌<◌, ◌∷◌, [], length, MatchOption};
ghost use Rattle.link_chain.specs.Chains.{items_at};

use crate::Chains;
use std::marker::Model;

/// What is left of a walk along a chain. A contract sees the items yet to come.
#[derive(Drop)]
pub struct ChainWalk<'a> {
    chains: &'a Chains,
    at: Option<u32>,
}

impl<'a> Model for ChainWalk<'a> {
    ghost use Rattle.std.specs.Prelude.{ℕ, List, map};
    ghost use Rattle.std.specs.Option.{ForSome};
    ghost use Rattle.link_chain.specs.Chains.{walk_left, IsLink};

    ghost Value = { List ℕ };

    ghost view = { λ w. map (λ p. p.1) (walk_left w.chains.now.lists w.at) };

    ghost invariant = { λ w. ForSome w.at (λ link. IsLink w.chains.now.lists link) };
}

impl<'a> ChainWalk<'a> {
    /// The items of a head's list.
    pub fn along(chains: &'a Chains, head: u32) -> ChainWalk<'a>
        requires { head < length chains.now.lists }
        ensures { result ≡ items_at chains.now.lists head }
    {
        ChainWalk {
            chains,
            at: chains.first(head),
        }
    }

    /// A walk with nothing to pass.
    pub fn nothing(chains: &'a Chains) -> ChainWalk<'a>
        ensures { result ≡ [] }
    {
        ChainWalk { chains, at: None }
    }

    /// The next item.
    pub fn step(&mut self) -> Option<u32>
        ensures { MatchOption result ((self.old ≡ []) × (self.new ≡ [])) (λ x. self.old ≡ x ∷ self.new) }
    {
        let chains = self.chains;
        let link = self.at?;
        self.at = chains.next(link);
        Some(chains.item(link))
    }
}
