//! The history of one entity.
ghost use Rattle.std.specs.Prelude.{◌≡◌, ℕ, ◌+◌, ◌-◌, ◌*◌, ◌^◌, ◌<◌, ◌≤◌, ◌≤ℤ◌, ◌<ℤ◌, [], ◌∷◌, ◌||◌, ◌==◌, length, int_lt, nat_lt, true, false, OnOk, OnErr, IsOk};
ghost use Rattle.std.specs.List.{All};
ghost use Rattle.std.specs.Option.{option_copied};
ghost use Rattle.std.specs.Ordering.{int_eq};
ghost use Rattle.std.specs.Int.{int_max};
ghost use Rattle.graph_model.specs.Searches.{digits};
ghost use Rattle.graph_model.specs.Interval.{Interval, is_inside, latest};
ghost use Rattle.graph_model.specs.declared.events.Model.TheVariants.{Event as Instants, Persistent};
ghost use Rattle.time_history.specs.Kinds.{OfOneSort};
ghost use Rattle.time_column.specs.Stamp.{is_not_after};
ghost use Rattle.time_history.specs.Updates.{stamp_of, update_at, placed, ComesLast, UpdatesRise, TimesRise, ValuesRise};
ghost use Rattle.time_history.specs.Spans.{carries, IsSpan, IsCut, IsTaken, IsEmptyOrInside, IsAllowed, IsClipped};
ghost use Rattle.time_history.specs.Asked.{IsAliveAt, HappensAt, IsPresent, IsLastKind, IsValue, IsValueIn, IsNextUpdate, IsNextContact, is_final_at};

use crate::search::{Probe, first_after, last_place};
use crate::span::Span;
use crate::updates::{KeyValues, Kind, Update};
use graph_model::{Bounds, Model as Lasting, Value};
use std::alloc::{AllocError, Global};
use std::marker::Model;
use std::sync::ledger::Ledger;
use time_column::{Steps, TimeColumn};

fn later_of(a: i64, b: i64) -> i64
    ensures { result ≡ int_max a b }
{
    if a < b { b } else { a }
}

fn same_moment(a: i64, b: i64) -> bool
    ensures { result ≡ int_eq a b }
{
    a == b
}

/// The updates of one entity, rising by time, then by order, then by arrival. A contract sees the
/// updates, and for how many more there is room.
#[derive(Drop)]
pub struct History {
    column: TimeColumn<Kind, KeyValues>,
}

impl Model for History {
    ghost use Rattle.time_history.specs.History.{UpdateList, IsSound, updates_of};

    ghost Value = { UpdateList };

    ghost view = { λ h. record {
      updates = updates_of h.column.stamps h.column.besides;
      spare = h.column.spare;
    } };

    ghost invariant = { λ h. IsSound h.column.stamps h.column.besides };
}

impl History {
    /// No update. The first takes no memory.
    pub fn new(alloc: Global) -> History
        ensures updates { result.updates ≡ [] }
        ensures spare { result.spare ≡ 1 }
    {
        History {
            column: TimeColumn::new(alloc),
        }
    }

    pub fn len(&self) -> u32
        ensures len { result ≡ length self.now.updates }
        ensures rising { UpdatesRise self.now.updates }
        ensures values { ValuesRise self.now.updates }
    {
        self.column.len() as u32
    }

    /// All updates.
    pub fn whole(&self) -> Span
        ensures { result ≡ record { from = 0; to = length self.now.updates; carried = false } }
    {
        Span {
            from: 0,
            to: self.len(),
            carried: false,
        }
    }

    pub fn kind_at(&self, i: u32) -> Kind
        requires { i < length self.now.updates }
        ensures { result ≡ (update_at self.now.updates i).kind }
    {
        self.column.tag_at(i as usize)
    }

    pub fn values_at(&self, i: u32) -> &KeyValues
        requires { i < length self.now.updates }
        ensures { result.now ≡ (update_at self.now.updates i).props }
    {
        self.column.beside_at(i as usize)
    }

    pub fn time_at<L: Ledger>(&self, i: u32, steps: &mut Steps<L>) -> i64
        requires { i < length self.now.updates }
        ensures value { result ≡ (update_at self.now.updates i).time }
        ensures cost { steps.new ≡ steps.old + 1 }
    {
        self.column.time_at(i as usize, steps)
    }

    pub fn order_at<L: Ledger>(&self, i: u32, steps: &mut Steps<L>) -> u32
        requires { i < length self.now.updates }
        ensures value { result ≡ (update_at self.now.updates i).order }
        ensures cost { steps.new ≡ steps.old + 1 }
    {
        self.column.order_at(i as usize, steps)
    }

    /// Makes room for one more update.
    pub fn reserve(&mut self) -> Result<(), AllocError>
        ensures updates { self.new.updates ≡ self.old.updates }
        ensures room { OnOk result (0 < self.new.spare) }
        ensures free { 0 < self.old.spare → IsOk result }
        ensures spare { self.old.spare ≤ self.new.spare }
        ensures err { OnErr result (self.new ≡ self.old) }
    {
        self.column.reserve()
    }

    /// Places an update after all whose time and order are not greater.
    pub fn put<L: Ledger>(&mut self, update: Update, steps: &mut Steps<L>) -> Result<(), AllocError>
        requires last { All (λ u. u.arrival < update.arrival) self.old.updates }
        requires room { length self.old.updates < 2 ^ 32 - 1 }
        requires kinds { OfOneSort (update ∷ self.old.updates) }
        ensures ok { OnOk result (self.new.updates ≡ placed update self.old.updates) }
        ensures err { OnErr result (self.new ≡ self.old) }
        ensures free { 0 < self.old.spare → IsOk result }
        ensures spare { self.old.spare ≤ self.new.spare + 1 }
        ensures cost { steps.new ≤ steps.old + (digits (length self.old.updates) + 1) }
        ensures cost_at_end { ComesLast update self.old.updates → steps.new ≤ steps.old + 1 }
    {
        let at = self.place_of(update.time, update.order, steps);
        self.reserve()?;
        self.place(at, update);
        Ok(())
    }

    /// The place after all updates whose time and order are not greater. The last is tried first.
    fn place_of<L: Ledger>(&self, time: i64, order: u32, steps: &mut Steps<L>) -> usize
        ensures within { result ≤ length self.now.updates }
        ensures before { (k : ℕ) → k < result
            → is_not_after time order (stamp_of (update_at self.now.updates k)) ≡ true }
        ensures after { (k : ℕ) → result ≤ k → k < length self.now.updates
            → is_not_after time order (stamp_of (update_at self.now.updates k)) ≡ false }
        ensures cost { steps.new ≤ steps.old + (digits (length self.now.updates) + 1) }
        ensures cost_at_end { ((k : ℕ) → k < length self.now.updates
            → is_not_after time order (stamp_of (update_at self.now.updates k)) ≡ true)
            → steps.new ≤ steps.old + 1 }
    {
        last_place(&self.column, Probe::NotAfter(time, order), steps)
    }

    /// Puts an update before the one at a place, where there is room for it.
    fn place(&mut self, at: usize, update: Update)
        requires within { at ≤ length self.old.updates }
        requires before { (k : ℕ) → k < at
            → is_not_after update.time update.order (stamp_of (update_at self.old.updates k))
            ≡ true }
        requires after { (k : ℕ) → at ≤ k → k < length self.old.updates
            → is_not_after update.time update.order (stamp_of (update_at self.old.updates k))
            ≡ false }
        requires last { All (λ u. u.arrival < update.arrival) self.old.updates }
        requires fits { length self.old.updates < 2 ^ 32 - 1 }
        requires room { 0 < self.old.spare }
        ensures updates { self.new.updates ≡ placed update self.old.updates }
        ensures spare { self.old.spare ≤ self.new.spare + 1 }
    {
        let Update {
            time,
            order,
            arrival,
            kind,
            props,
        } = update;
        let _rise = props.len();
        self.column.put(at, time, order, arrival, (kind, props));
    }

    /// Whether what comes before a place is carried over it.
    fn carries_over(&self, model: Lasting, from: u32) -> bool
        requires { from ≤ length self.now.updates }
        ensures { result ≡ carries model self.now.updates from }
    {
        match model {
            Lasting::Event => false,
            Lasting::Persistent => from > 0 && !self.kind_at(from - 1).is_deletion(),
        }
    }

    /// The first place from one up to another whose time is not earlier than a moment, or the end.
    /// Times never fall.
    fn first_from<L: Ledger>(&self, from: u32, to: u32, time: i64, steps: &mut Steps<L>) -> u32
        requires order { from ≤ to }
        requires end { to ≤ length self.now.updates }
        ensures from { from ≤ result }
        ensures to { result ≤ to }
        ensures before { (k : ℕ) → from ≤ k → k < result
            → (update_at self.now.updates k).time <ℤ time }
        ensures after { (k : ℕ) → result ≤ k → k < to
            → time ≤ℤ (update_at self.now.updates k).time }
        ensures rise { TimesRise self.now.updates }
        ensures cost { steps.new ≤ steps.old + digits (to - from) }
    {
        let probe = Probe::Earlier(time);
        first_after(&self.column, from as usize, to as usize, probe, steps) as u32
    }

    /// The span of the window `cut`, from a span of the bounds that it lies in.
    pub fn clip<L: Ledger>(
        &self,
        span: Span,
        bounds: Bounds,
        cut: Bounds,
        model: Lasting,
        steps: &mut Steps<L>,
    ) -> Span
        requires span { IsSpan self.now.updates span }
        requires taken { IsTaken model bounds self.now.updates span }
        requires part { IsEmptyOrInside bounds cut }
        requires allowed { IsAllowed model self.now.updates }
        ensures span { IsSpan self.now.updates result }
        ensures taken { IsTaken model cut self.now.updates result }
        ensures clipped { IsClipped model bounds cut self.now.updates span result }
        ensures cost { steps.new ≤ steps.old + 2 * digits (span.to - span.from) }
    {
        if cut.is_empty() {
            return Span {
                from: span.from,
                to: span.from,
                carried: false,
            };
        }
        if span.is_empty() {
            return span;
        }
        let from = self.first_from(span.from, span.to, cut.lo(), steps);
        let to = self.first_from(from, span.to, cut.hi(), steps);
        let carried = self.carries_over(model, from);
        Span { from, to, carried }
    }

    /// Whether a span has an update at a moment.
    fn happens_at<L: Ledger>(&self, span: Span, m: i64, steps: &mut Steps<L>) -> bool
        requires span { IsSpan self.now.updates span }
        ensures happens { HappensAt self.now.updates span m result }
        ensures cost { steps.new ≤ steps.old + (digits (span.to - span.from) + 1) }
    {
        let at = self.first_from(span.from, span.to, m, steps);
        at < span.to && same_moment(self.time_at(at, steps), m)
    }

    /// Whether the edge of a span lasts over a moment inside the bounds.
    fn lasts_at<L: Ledger>(&self, span: Span, m: i64, steps: &mut Steps<L>) -> bool
        requires span { IsSpan self.now.updates span }
        requires below { m <ℤ latest }
        ensures alive { (bounds : Interval) → is_inside bounds m ≡ true
            → IsAliveAt Persistent bounds self.now.updates span m result }
        ensures cost { steps.new ≤ steps.old + digits (span.to - span.from) }
    {
        let at = self.first_from(span.from, span.to, m + 1, steps);
        if at > span.from {
            !self.kind_at(at - 1).is_deletion()
        } else {
            span.carried
        }
    }

    /// Whether the edge of a span is alive at a moment.
    pub fn alive_at<L: Ledger>(
        &self,
        span: Span,
        bounds: Bounds,
        model: Lasting,
        m: i64,
        steps: &mut Steps<L>,
    ) -> bool
        requires span { IsSpan self.now.updates span }
        requires taken { IsTaken model bounds self.now.updates span }
        requires allowed { IsAllowed model self.now.updates }
        ensures alive { IsAliveAt model bounds self.now.updates span m result }
        ensures cost { steps.new ≤ steps.old + (digits (span.to - span.from) + 1) }
    {
        match model {
            Lasting::Event => self.happens_at(span, m, steps),
            Lasting::Persistent => bounds.holds(m) && self.lasts_at(span, m, steps),
        }
    }

    /// Whether the edge of a span is alive at some moment, where it lasts until it is deleted.
    fn ever_alive<L: Ledger>(&self, span: Span, bounds: Bounds, steps: &mut Steps<L>) -> bool
        requires span { IsSpan self.now.updates span }
        requires taken { IsTaken Persistent bounds self.now.updates span }
        ensures present { IsPresent Persistent bounds self.now.updates span result }
    {
        let _column = &self.column;
        if span.from == span.to {
            return span.carried;
        }
        if span.carried && self.is_later(span.from, bounds.lo(), steps) {
            return true;
        }
        for i in span.from..span.to {
            if self.is_final(i, span.to, steps) {
                return true;
            }
        }
        false
    }

    /// Whether an update is later than a moment.
    fn is_later<L: Ledger>(&self, i: u32, m: i64, steps: &mut Steps<L>) -> bool
        requires { i < length self.now.updates }
        ensures { result ≡ int_lt m (update_at self.now.updates i).time }
    {
        m < self.time_at(i, steps)
    }

    /// Whether an update adds an edge, and the next before `to` is later.
    fn is_final<L: Ledger>(&self, i: u32, to: u32, steps: &mut Steps<L>) -> bool
        requires place { i < to }
        requires end { to ≤ length self.now.updates }
        ensures { result ≡ is_final_at self.now.updates i to }
    {
        if self.kind_at(i).is_deletion() {
            return false;
        }
        if i + 1 == to {
            return true;
        }
        let time = self.time_at(i, steps);
        self.is_later(i + 1, time, steps)
    }

    /// Whether the edge of a span is alive at some moment.
    pub fn present<L: Ledger>(
        &self,
        span: Span,
        bounds: Bounds,
        model: Lasting,
        steps: &mut Steps<L>,
    ) -> bool
        requires span { IsSpan self.now.updates span }
        requires taken { IsTaken model bounds self.now.updates span }
        requires allowed { IsAllowed model self.now.updates }
        ensures present { IsPresent model bounds self.now.updates span result }
        ensures free { model ≡ Instants → steps.new ≡ steps.old }
    {
        match model {
            Lasting::Event => span.from < span.to,
            Lasting::Persistent => self.ever_alive(span, bounds, steps),
        }
    }

    /// The kind of the last event of a span.
    pub fn last_kind(&self, span: Span) -> Option<Kind>
        requires span { IsSpan self.now.updates span }
        ensures { IsLastKind self.now.updates span result }
    {
        if span.from < span.to {
            Some(self.kind_at(span.to - 1))
        } else if span.carried {
            Some(self.kind_at(span.from - 1))
        } else {
            None
        }
    }

    /// The last value of a key among the updates from one place up to another that no deletion follows.
    fn value_in(&self, start: u32, to: u32, key: u32) -> Option<&Value>
        requires order { start ≤ to }
        requires end { to ≤ length self.now.updates }
        ensures { IsValueIn self.now.updates start to key (option_copied result) }
    {
        let mut i = to;
        while i > start {
            i -= 1;
            let kind = self.kind_at(i);
            if kind.is_deletion() {
                return None;
            }
            if let Some(value) = self.values_at(i).find(key) {
                return Some(value);
            }
        }
        None
    }

    /// The value of a key in a span.
    pub fn value(&self, span: Span, key: u32) -> Option<&Value>
        requires span { IsSpan self.now.updates span }
        ensures { IsValue self.now.updates span key (option_copied result) }
    {
        let _column = &self.column;
        let start = if span.carried { 0 } else { span.from };
        self.value_in(start, span.to, key)
    }

    /// The time of the first update of a span that is later than a moment.
    fn next_update<L: Ledger>(&self, span: Span, after: i64, steps: &mut Steps<L>) -> Option<i64>
        requires span { IsSpan self.now.updates span }
        requires below { after <ℤ latest }
        ensures { IsNextUpdate self.now.updates span after result }
    {
        let at = self.first_from(span.from, span.to, after + 1, steps);
        if at < span.to {
            Some(self.time_at(at, steps))
        } else {
            None
        }
    }

    /// The least contact of an edge later than a moment, where edges are instants.
    fn next_instant<L: Ledger>(
        &self,
        span: Span,
        bounds: Bounds,
        after: i64,
        steps: &mut Steps<L>,
    ) -> Option<i64>
        requires span { IsSpan self.now.updates span }
        requires taken { IsTaken Instants bounds self.now.updates span }
        requires allowed { IsAllowed Instants self.now.updates }
        requires below { after <ℤ latest }
        ensures { IsNextContact Instants bounds self.now.updates span after result }
    {
        self.next_update(span, after, steps)
    }

    /// The least contact of an edge later than a moment, where edges last until they are deleted.
    fn next_lasting<L: Ledger>(
        &self,
        span: Span,
        bounds: Bounds,
        after: i64,
        steps: &mut Steps<L>,
    ) -> Option<i64>
        requires span { IsSpan self.now.updates span }
        requires cut { IsCut Persistent bounds self.now.updates span }
        requires below { after <ℤ latest }
        requires high { bounds.hi ≤ℤ latest }
        ensures { IsNextContact Persistent bounds self.now.updates span after result }
    {
        let first = later_of(after + 1, bounds.lo());
        if !bounds.holds(first) {
            return None;
        }
        if self.lasts_at(span, first, steps) {
            return Some(first);
        }
        let at = self.first_from(span.from, span.to, first + 1, steps);
        for i in at..span.to {
            if self.is_final(i, span.to, steps) {
                return Some(self.time_at(i, steps));
            }
        }
        None
    }

    /// The least contact of an edge later than a moment, if there is one.
    pub fn next_contact<L: Ledger>(
        &self,
        span: Span,
        bounds: Bounds,
        model: Lasting,
        after: i64,
        steps: &mut Steps<L>,
    ) -> Option<i64>
        requires span { IsSpan self.now.updates span }
        requires taken { IsTaken model bounds self.now.updates span }
        requires allowed { IsAllowed model self.now.updates }
        ensures { IsNextContact model bounds self.now.updates span after result }
    {
        if span.is_empty() {
            return None;
        }
        let hi = bounds.hi();
        if after >= hi {
            return None;
        }
        match model {
            Lasting::Event => self.next_instant(span, bounds, after, steps),
            Lasting::Persistent => self.next_lasting(span, bounds, after, steps),
        }
    }
}
