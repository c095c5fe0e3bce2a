//! The ends of windows, one after another.
ghost use Rattle.std.specs.Prelude.{◌≡◌, [], ℕ, IsTrue, length};
ghost use Rattle.window_ends.specs.Ends.{ends_from, HaveEnds};

use crate::ends::{Ends, ends_at};
use graph_model::Each;
use std::marker::Model;

/// The ends of the windows that are yet to come. A contract sees them as a list.
#[derive(Drop)]
pub struct WindowEnds {
    each: Each,
    /// The time of the first event.
    first: i64,
    /// The place of the next window.
    next: u32,
    /// How many windows there are, those that have come among them.
    count: u32,
}

impl Model for WindowEnds {
    ghost use Rattle.std.specs.Prelude.{List, ◌-◌};
    ghost use Rattle.window_ends.specs.Ends.{ends_from, HaveEnds};
    ghost use Rattle.window_ends.specs.declared.ends.Ends.{Ends};

    ghost Value = { List Ends };

    ghost view = { λ w. ends_from w.each w.first w.next (w.count - w.next) };

    ghost invariant = { λ w. HaveEnds w.each w.first w.next w.count };
}

impl WindowEnds {
    /// No window.
    pub fn none() -> WindowEnds
        ensures { result ≡ [] }
    {
        WindowEnds {
            each: Each::Expanding(1),
            first: 0,
            next: 0,
            count: 0,
        }
    }

    /// The first windows, so many, of events that begin at a first time.
    pub(crate) fn all(each: Each, first: i64, count: u32) -> WindowEnds
        requires { HaveEnds each first 0 count }
        ensures { result ≡ ends_from each first 0 count }
    {
        WindowEnds {
            each,
            first,
            next: 0,
            count,
        }
    }

    /// How many windows are yet to come.
    pub fn len(&self) -> u32
        ensures { result ≡ length self.now }
    {
        self.count - self.next
    }
}

impl Iterator for WindowEnds {
    ghost use Rattle.std.specs.Iterator.{item_count};
    ghost use Rattle.window_ends.specs.Ends.{IsNext};

    type Item = Ends;

    ghost next_gives = { IsNext };

    ghost remaining = { item_count (λ ends. ends) };

    fn next(&mut self) -> Option<Ends> {
        if self.next == self.count {
            return None;
        }
        let ends = ends_at(self.each, self.first, self.next);
        self.next += 1;
        Some(ends)
    }
}
