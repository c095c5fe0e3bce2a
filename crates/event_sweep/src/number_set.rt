//! A set of numbers that costs what it holds: its numbers side by side, and for each of them its
//! place there. (P. Briggs and L. Torczon, An efficient representation for sparse sets, 1993.)
ghost use Rattle.std.specs.Prelude.{◌≡◌, ℕ, ◌<◌, ◌≤◌, ◌+◌, ◌==◌, ◌||◌, ◌&&◌, not, List, [], ◌∷◌, ◌++◌, false, length, slice_index, IfSome, IsNone, OnOk, OnErr};
ghost use Rattle.event_sweep.specs.Numbers.{is_listed, ArePlaced};

use graph_model::Memory;
use std::alloc::Global;
use std::marker::Model;

/// Distinct numbers, in no order. What memory it has serves again after `clear`.
#[derive(Drop)]
pub(crate) struct NumberSet {
    numbers: Vec<u32>,
    places: Vec<usize>,
}

impl Model for NumberSet {
    ghost use Rattle.std.specs.Prelude.{List, ℕ};
    ghost use Rattle.event_sweep.specs.Numbers.{ArePlaced};

    ghost Value = { List ℕ };

    ghost view = { λ s. s.numbers.items };

    ghost invariant = { λ s. ArePlaced s.numbers.items s.places.items };
}

/// The place of a number, where it is there.
fn place_of(numbers: &[u32], places: &[usize], n: u32) -> Option<usize>
    requires { ArePlaced numbers.now places.now }
    ensures some { IfSome result (λ i. (i < length numbers.now) × (slice_index numbers.now i ≡ n)) }
    ensures none { IsNone result → is_listed numbers.now n ≡ false }
{
    let place = *places.get(n as usize)?;
    if place < numbers.len() && numbers[place] == n {
        Some(place)
    } else {
        None
    }
}

/// Makes room for the place of a number.
fn make_room(places: &mut Vec<usize>, n: u32) -> Result<(), Memory>
    ensures placed { (numbers : List ℕ)
        → ArePlaced numbers places.old.items
        → ArePlaced numbers places.new.items }
    ensures ok { OnOk result (n < length places.new.items) }
{
    if places.len() <= n as usize {
        places.resize(n as usize + 1, 0)?;
    }
    Ok(())
}

/// Adds a number that is not there.
fn add(numbers: &mut Vec<u32>, places: &mut Vec<usize>, n: u32) -> Result<(), Memory>
    requires placed { ArePlaced numbers.old.items places.old.items }
    requires missing { is_listed numbers.old.items n ≡ false }
    ensures placed { ArePlaced numbers.new.items places.new.items }
    ensures ok { OnOk result (numbers.new.items ≡ numbers.old.items ++ n ∷ []) }
    ensures err { OnErr result (numbers.new.items ≡ numbers.old.items) }
{
    make_room(places, n)?;
    let place = numbers.len();
    numbers.push(n)?;
    places[n as usize] = place;
    Ok(())
}

/// Takes the number at a place away. The last number moves there.
fn take_away(numbers: &mut Vec<u32>, places: &mut Vec<usize>, place: usize)
    requires placed { ArePlaced numbers.old.items places.old.items }
    requires place { place < length numbers.old.items }
    ensures placed { ArePlaced numbers.new.items places.new.items }
    ensures others { (m : ℕ) → is_listed numbers.new.items m
        ≡ (is_listed numbers.old.items m && not (slice_index numbers.old.items place == m)) }
{
    numbers.swap_remove(place);
    if place < numbers.len() {
        let moved = numbers[place];
        places[moved as usize] = place;
    }
}

impl NumberSet {
    /// No number. It takes no memory.
    pub fn new(alloc: Global) -> NumberSet
        ensures { result ≡ [] }
    {
        NumberSet {
            numbers: Vec::new(alloc),
            places: Vec::new(alloc),
        }
    }

    /// Takes all numbers away.
    pub fn clear(&mut self)
        ensures { self.new ≡ [] }
    {
        self.numbers.clear();
    }

    /// The numbers.
    pub fn numbers(&self) -> &[u32]
        ensures { result.now ≡ self.now }
    {
        self.numbers.as_slice()
    }

    /// Adds a number, unless it is there. Where memory is wanting, the set stays as it is.
    pub fn insert(&mut self, n: u32) -> Result<(), Memory>
        ensures ok { OnOk result ((m : ℕ) → is_listed self.new m ≡ ((n == m) || is_listed self.old m)) }
        ensures one { length self.new ≤ length self.old + 1 }
        ensures err { OnErr result (self.new ≡ self.old) }
    {
        if place_of(self.numbers.as_slice(), self.places.as_slice(), n).is_some() {
            return Ok(());
        }
        add(&mut self.numbers, &mut self.places, n)
    }

    /// Takes a number away, if it is there.
    pub fn remove(&mut self, n: u32)
        ensures { (m : ℕ) → is_listed self.new m ≡ (is_listed self.old m && not (n == m)) }
    {
        if let Some(place) = place_of(self.numbers.as_slice(), self.places.as_slice(), n) {
            take_away(&mut self.numbers, &mut self.places, place);
        }
    }
}
