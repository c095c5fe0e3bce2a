//! The sweep.
ghost use Rattle.std.specs.Prelude.{◌≡◌, ℕ, ◌≤◌, [], false, length, OnOk};
ghost use Rattle.event_sweep.specs.Numbers.{is_listed};
ghost use Rattle.event_sweep.specs.Swept.{TimesRise, is_shown, events_between};

use crate::held_events::{HeldEvent, list_between, mark_from, pass};
use crate::number_set::NumberSet;
use graph_model::Memory;
use std::alloc::Global;
use std::marker::Model;

/// Events in the order of time, and the numbers of what a window over them shows. Two marks among
/// the events, for the window's beginning and its end, go forward with windows whose ends do not
/// fall. The lists serve for each window again.
#[derive(Drop)]
pub struct EventSweep {
    held: Vec<HeldEvent>,
    carries: bool,
    first: usize,
    last: usize,
    carried: NumberSet,
    listed: NumberSet,
}

impl Model for EventSweep {
    ghost use Rattle.event_sweep.specs.Swept.{Swept, TimesRise, IsPassed};

    ghost Value = { Swept };

    ghost view = { λ s. record { carries = s.carries; held = s.held.items; listed = s.listed } };

    ghost invariant = { λ s. TimesRise s.held.items
        × IsPassed s.carries s.held.items s.first s.carried };
}

impl EventSweep {
    /// A sweep over events in the order of time, before its first window. It says whether what is
    /// added lasts until it is deleted, and so is carried into later windows.
    pub fn new(alloc: Global, carries: bool, held: Vec<HeldEvent>) -> EventSweep
        requires { TimesRise held.items }
        ensures { result ≡ record { carries = carries; held = held.items; listed = [] } }
    {
        EventSweep {
            held,
            carries,
            first: 0,
            last: 0,
            carried: NumberSet::new(alloc),
            listed: NumberSet::new(alloc),
        }
    }

    /// Goes to the window from `from` up to but not including `to`. Windows whose ends do not fall
    /// are swept in the time of the events and of what each of them shows; any window may be gone to.
    pub fn move_to(&mut self, from: i64, to: i64) -> Result<(), Memory>
        ensures held { self.new.held ≡ self.old.held }
        ensures carries { self.new.carries ≡ self.old.carries }
        ensures listed { OnOk result ((n : ℕ) → is_listed self.new.listed n
            ≡ is_shown self.old.carries self.old.held from to n) }
        ensures few { OnOk result (self.old.carries ≡ false
            → length self.new.listed ≤ length (events_between from to self.old.held)) }
    {
        pass(
            self.held.as_slice(),
            self.carries,
            &mut self.first,
            &mut self.carried,
            from,
        )?;
        self.last = mark_from(self.held.as_slice(), self.last, to);
        list_between(
            self.held.as_slice(),
            self.first,
            self.last,
            self.carried.numbers(),
            &mut self.listed,
        )
    }

    /// The distinct numbers of what the window shows, in no order.
    pub fn listed(&self) -> &[u32]
        ensures { result.now ≡ self.now.listed }
    {
        self.listed.numbers()
    }
}
