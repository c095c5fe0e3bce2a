//! Numbers in buckets, where a number is moved from one bucket to another in a few writes.
ghost use Rattle.std.specs.Prelude.{◌≡◌, ℕ, ◌<◌, ◌≤◌, [], length, vec_len, slice_set, slice_get, replicate, map, IfOk, IfSome, IfNone};
ghost use Rattle.link_chain.specs.Buckets.{bucket_at, how_often, take_out, put_first};
ghost use Rattle.link_chain.specs.Indexes.{nowhere};
ghost use Rattle.link_chain.specs.FirstsAndPlaces.{first_at, place_at, with_before, with_after, unlinked_firsts, unlinked_places, linked_firsts, linked_places, IsLeast};

use crate::{Memory, NOWHERE};
use std::alloc::Global;
use std::marker::Model;

/// Where an item stands: between which two, and in which bucket.
#[derive(Clone, Copy, Drop)]
struct Place {
    before: u32,
    after: u32,
    bucket: u32,
}

/// Lets another item stand before one, if the one is an item.
fn set_before(places: &mut Vec<Place>, at: u32, before: u32)
    ensures items { places.new.items ≡ with_before places.old.items at before }
    ensures len { vec_len places.new ≡ vec_len places.old }
{
    // `NOWHERE` is past the end.
    if (at as usize) >= places.len() {
        return;
    }
    places[at as usize].before = before;
}

/// Lets another item stand after one, if the one is an item.
fn set_after(places: &mut Vec<Place>, at: u32, after: u32)
    ensures items { places.new.items ≡ with_after places.old.items at after }
    ensures len { vec_len places.new ≡ vec_len places.old }
{
    // `NOWHERE` is past the end.
    if (at as usize) >= places.len() {
        return;
    }
    places[at as usize].after = after;
}

/// Takes an item out of its bucket: its two neighbours are written, and the bucket's first item if
/// it was that.
fn unlink(firsts: &mut Vec<u32>, places: &mut Vec<Place>, item: u32)
    requires item { item < length places.old.items }
    requires bucket { (place_at places.old.items item).bucket < length firsts.old.items }
    ensures firsts { firsts.new.items ≡ unlinked_firsts firsts.old.items places.old.items item }
    ensures places { places.new.items ≡ unlinked_places places.old.items item }
    ensures firsts_len { vec_len firsts.new ≡ vec_len firsts.old }
    ensures places_len { vec_len places.new ≡ vec_len places.old }
{
    let place = places[item as usize];
    set_after(places, place.before, place.after);
    set_before(places, place.after, place.before);
    if place.before == NOWHERE {
        firsts[place.bucket as usize] = place.after;
    }
}

/// Puts an item that stands nowhere first in a bucket: the item, the one that was first and the
/// bucket's first item are written.
fn link(firsts: &mut Vec<u32>, places: &mut Vec<Place>, item: u32, bucket: u32)
    requires item { item < length places.old.items }
    requires bucket { bucket < length firsts.old.items }
    ensures firsts { firsts.new.items ≡ linked_firsts firsts.old.items item bucket }
    ensures places { places.new.items ≡ linked_places firsts.old.items places.old.items item bucket }
    ensures firsts_len { vec_len firsts.new ≡ vec_len firsts.old }
    ensures places_len { vec_len places.new ≡ vec_len places.old }
{
    let after = firsts[bucket as usize];
    places[item as usize] = Place {
        before: NOWHERE,
        after,
        bucket,
    };
    set_before(places, after, item);
    firsts[bucket as usize] = item;
}

/// The first bucket from one on that is not empty, or how many there are.
fn settle(firsts: &[u32], from: usize) -> usize
    requires within { from ≤ length firsts.now }
    requires below { (b : ℕ) → b < from → first_at firsts.now b ≡ nowhere }
    ensures { IsLeast firsts.now result }
{
    for i in from..firsts.len() {
        if firsts[i] != NOWHERE {
            return i;
        }
    }
    firsts.len()
}

fn empty_firsts(alloc: Global, buckets: usize) -> Result<Vec<u32>, Memory>
    ensures items { IfOk result (λ v. v.items ≡ replicate buckets nowhere) }
    ensures len { IfOk result (λ v. vec_len v ≡ buckets) }
{
    vec![in alloc; NOWHERE; buckets]
}

fn empty_places(alloc: Global, items: usize) -> Result<Vec<Place>, Memory>
    ensures len { IfOk result (λ v. vec_len v ≡ items) }
{
    let nothing = Place {
        before: NOWHERE,
        after: NOWHERE,
        bucket: 0,
    };
    vec![in alloc; nothing; items]
}

/// Items, which are the numbers below a given one, in buckets, where each item stands at most once.
///
/// Buckets are seen as the number of items there may be and a list of lists, each with the items of a
/// bucket, the last one put there first. Once they are made, no call takes memory.
///
/// All places lie in one block of memory and all first items in another. An item has the indexes of
/// its neighbours in its bucket, and a bucket the index of its first item. `put` and `take` write a
/// few places, and `move_to` at most six: the item, its two old neighbours, its new one and the first
/// items of the two buckets.
///
/// The lowest bucket that is not empty is kept, so `least` is one read. `put` looks at one bucket to
/// find it again. `take` and `move_to` go up from it until they come to a bucket that is not empty.
/// Since only a `put` or a `move_to` below it lowers it, the steps up are in all at most as many as
/// there are buckets and as all those calls lowered it. A peeling, in which each move goes to the next
/// lower bucket, makes at most as many steps as buckets and moves.
#[derive(Drop)]
pub struct Buckets {
    firsts: Vec<u32>,
    places: Vec<Place>,
    low: usize,
}

impl Model for Buckets {
    ghost use Rattle.std.specs.Prelude.{length};
    ghost use Rattle.link_chain.specs.Buckets.{BucketLists};
    ghost use Rattle.link_chain.specs.FirstsAndPlaces.{buckets_of, AreKept};

    ghost Value = { BucketLists };

    ghost view = { λ b. record {
      items = length b.places.items;
      lists = buckets_of b.firsts.items b.places.items;
    } };

    ghost invariant = { λ b. AreKept b.firsts.items b.places.items b.low };
}

fn gather(firsts: Vec<u32>, places: Vec<Place>) -> Buckets
    requires empty { firsts.items ≡ replicate (vec_len firsts) nowhere }
    requires few { vec_len places ≤ nowhere }
    requires few_buckets { vec_len firsts ≤ nowhere }
    ensures items { result.items ≡ vec_len places }
    ensures lists { result.lists ≡ replicate (vec_len firsts) [] }
{
    let low = firsts.len();
    Buckets {
        firsts,
        places,
        low,
    }
}

impl Buckets {
    /// So many empty buckets, for the items below a number.
    pub fn new(alloc: Global, items: u32, buckets: u32) -> Result<Buckets, Memory>
        ensures items { IfOk result (λ made. made.items ≡ items) }
        ensures lists { IfOk result (λ made. made.lists ≡ replicate buckets []) }
    {
        let firsts = empty_firsts(alloc, buckets as usize)?;
        let places = empty_places(alloc, items as usize)?;
        Ok(gather(firsts, places))
    }

    /// Puts an item that stands nowhere first in a bucket.
    pub fn put(&mut self, item: u32, bucket: u32)
        requires item { item < self.old.items }
        requires bucket { bucket < length self.old.lists }
        requires free { how_often item self.old.lists ≡ 0 }
        ensures lists { self.new.lists ≡ put_first item bucket self.old.lists }
        ensures bucket_count { length self.new.lists ≡ length self.old.lists }
        ensures items { self.new.items ≡ self.old.items }
    {
        link(&mut self.firsts, &mut self.places, item, bucket);
        let from = self.low.min(bucket as usize);
        self.low = settle(self.firsts.as_slice(), from);
    }

    /// Takes an item out of its bucket.
    pub fn take(&mut self, item: u32)
        requires item { item < self.old.items }
        requires stands { 0 < how_often item self.old.lists }
        ensures lists { self.new.lists ≡ map (take_out item) self.old.lists }
        ensures bucket_count { length self.new.lists ≡ length self.old.lists }
        ensures items { self.new.items ≡ self.old.items }
    {
        unlink(&mut self.firsts, &mut self.places, item);
        self.low = settle(self.firsts.as_slice(), self.low);
    }

    /// Takes an item out of its bucket, and puts it first in another one or in the same.
    pub fn move_to(&mut self, item: u32, bucket: u32)
        requires item { item < self.old.items }
        requires bucket { bucket < length self.old.lists }
        requires stands { 0 < how_often item self.old.lists }
        ensures lists { self.new.lists ≡ put_first item bucket (map (take_out item) self.old.lists) }
        ensures bucket_count { length self.new.lists ≡ length self.old.lists }
        ensures items { self.new.items ≡ self.old.items }
    {
        unlink(&mut self.firsts, &mut self.places, item);
        link(&mut self.firsts, &mut self.places, item, bucket);
        let from = self.low.min(bucket as usize);
        self.low = settle(self.firsts.as_slice(), from);
    }

    /// The first item of the lowest bucket that is not empty, and that bucket; `None` exactly where
    /// all buckets are empty.
    pub fn least(&self) -> Option<(u32, u32)>
        ensures item { IfSome result (λ least. least.0 < self.now.items) }
        ensures bucket { IfSome result (λ least. least.1 < length self.now.lists) }
        ensures first { IfSome result (λ least. slice_get (bucket_at self.now.lists least.1) 0 ≡ Some least.0) }
        ensures lower { IfSome result (λ least. (b : ℕ) → b < least.1 → bucket_at self.now.lists b ≡ []) }
        ensures none { IfNone result ((b : ℕ) → bucket_at self.now.lists b ≡ []) }
        ensures once { (x : ℕ) → how_often x self.now.lists ≤ 1 }
    {
        if self.low < self.firsts.len() {
            Some((self.firsts[self.low], self.low as u32))
        } else {
            None
        }
    }
}
