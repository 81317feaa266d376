//! Items in order of arrival, with the order that the caller gives them. A second order over the
//! same items is an `Order` of its own, searched by `ByItem` and lent by `Lent::new`.
ghost use Rattle.std.specs.Prelude.{◌≡◌, ℕ, ◌+◌, ◌<◌, ◌≤◌, [], ◌∷◌, ◌++◌, length, drop};
ghost use Rattle.std.specs.Prelude.{slice_get, IsOk, OnOk, Some};
ghost use Rattle.std.specs.List.{insert, filter};
ghost use Rattle.sorted_order.specs.Sought.{IsRising, IsGap, is_equal};
ghost use Rattle.sorted_order.specs.ArenaView.{in_order, Arranges, FindsNumber, compared_at};

use crate::guess::ItemGuess;
use crate::lent::Lent;
use crate::numbers::Numbers;
use crate::order::Order;
use crate::probe::{ByItem, ItemProbe};
use std::alloc::{AllocError, Global};
use std::marker::Model;

/// Items that are never moved, each with the number of those that came before it, and their order.
#[derive(Drop)]
pub struct Arena<T> {
    items: Vec<T>,
    order: Order,
}

impl<T> Model for Arena<T> {
    ghost use Rattle.std.specs.Prelude.{length, min, vec_capacity};
    ghost use Rattle.sorted_order.specs.ArenaView.{ArenaView, Arranges};

    ghost Value = { ArenaView T };

    ghost view = { λ a. record {
      items = a.items.items;
      order = a.order.items;
      capacity = min (vec_capacity a.items) a.order.capacity;
    } };

    ghost invariant = { λ a. Arranges a.order.items (length a.items.items) };
}

impl<T> Arena<T> {
    /// No items, without room. It takes no memory.
    pub fn new(alloc: Global) -> Self
        ensures { result ≡ record { items = []; order = []; capacity = 0 } }
    {
        Arena {
            items: Vec::new(alloc),
            order: Order::new(alloc),
        }
    }

    /// How many items there are. Each number below that is in the order once.
    pub fn len(&self) -> usize
        ensures len { result ≡ length self.now.items }
        ensures arranged { Arranges self.now.order (length self.now.items) }
    {
        self.items.len()
    }

    /// How many items more can be inserted without memory.
    pub fn room(&self) -> usize
        ensures { length self.now.items + result ≡ self.now.capacity }
    {
        (self.items.capacity() - self.len()).min(self.order.room())
    }

    /// Makes room for this many more items.
    ///
    /// # Errors
    /// Memory ran out, or there would be room for 2^32 items or more. All items are still there,
    /// and only the room may have grown.
    pub fn try_reserve(&mut self, items: usize) -> Result<(), AllocError>
        ensures items { self.new.items ≡ self.old.items }
        ensures order { self.new.order ≡ self.old.order }
        ensures capacity { self.old.capacity ≤ self.new.capacity }
        ensures ok { OnOk result (length self.new.items + items ≤ self.new.capacity) }
        ensures within { length self.old.items + items ≤ self.old.capacity
            → (IsOk result) × (self.new ≡ self.old) }
    {
        if items <= self.room() {
            return Ok(());
        }
        self.items.try_reserve(items)?;
        self.order.try_reserve(items)
    }

    /// Adds an item, whose number is how many there were, and gives it a place in the order. It
    /// takes no memory. Its hint is 0.
    pub fn insert(&mut self, at: usize, item: T) -> u32
        requires place { at ≤ length self.old.items }
        requires room { length self.old.items < self.old.capacity }
        ensures number { result ≡ length self.old.items }
        ensures items { self.new.items ≡ self.old.items ++ item ∷ [] }
        ensures order { self.new.order ≡ insert self.old.order at (length self.old.items) }
        ensures in_order { in_order self.new ≡ insert (in_order self.old) at item }
        ensures capacity { self.new.capacity ≡ self.old.capacity }
    {
        self.insert_with_hint(at, item, 0)
    }

    /// The same with a hint, for [`Arena::find_by_guess`]. No clause speaks of it.
    pub fn insert_with_hint(&mut self, at: usize, item: T, hint: u64) -> u32
        requires place { at ≤ length self.old.items }
        requires room { length self.old.items < self.old.capacity }
        ensures number { result ≡ length self.old.items }
        ensures items { self.new.items ≡ self.old.items ++ item ∷ [] }
        ensures order { self.new.order ≡ insert self.old.order at (length self.old.items) }
        ensures in_order { in_order self.new ≡ insert (in_order self.old) at item }
        ensures capacity { self.new.capacity ≡ self.old.capacity }
    {
        let number = self.order.len() as u32;
        self.items.push_reserved(item);
        self.order.insert_with_hint(at, number, hint);
        number
    }

    /// The item with a number.
    pub fn get(&self, number: u32) -> &T
        requires { number < length self.now.items }
        ensures { slice_get self.now.items number ≡ Some result.now }
    {
        &self.items.as_slice()[number as usize]
    }

    /// The items in order of arrival.
    pub fn items(&self) -> &[T]
        ensures { result.now ≡ self.now.items }
    {
        &self.items[..]
    }

    /// The number of the first item in the order that is what is sought, or, as an error, the place
    /// that it would have in the order.
    pub fn find<P: ItemProbe<T>>(&self, probe: &P) -> Result<u32, usize>
        requires { IsRising (P.compared probe.now) (in_order self.now) }
        ensures { FindsNumber (P.compared probe.now) self.now result }
    {
        self.order
            .find_number(&ByItem::new(self.items.as_slice(), probe))
    }

    /// The same, but the place is guessed first, by the hints of the items and, if these are equal,
    /// by what the caller guesses. So few items are compared whole.
    pub fn find_by_guess<P: ItemProbe<T> + ItemGuess<T>>(&self, probe: &P) -> Result<u32, usize>
        requires { IsRising (P.compared probe.now) (in_order self.now) }
        ensures { FindsNumber (P.compared probe.now) self.now result }
    {
        self.order
            .find_number_by_guess(&ByItem::new(self.items.as_slice(), probe))
    }

    /// How many items in the order come before what is sought.
    pub fn before<P: ItemProbe<T>>(&self, probe: &P) -> usize
        requires { IsRising (P.compared probe.now) (in_order self.now) }
        ensures { IsGap (P.compared probe.now) (in_order self.now) result }
    {
        self.order
            .before(&ByItem::new(self.items.as_slice(), probe))
    }

    /// The items from a place of the order on.
    pub fn from(&self, at: usize) -> Lent<'_, T>
        requires { at ≤ length self.now.items }
        ensures { result ≡ drop at (in_order self.now) }
    {
        Lent::new(self.order.from(at), self.items.as_slice())
    }

    /// The items in the place of what is sought, in order.
    pub fn matching<P: ItemProbe<T>>(&self, probe: &P) -> Lent<'_, T>
        requires { IsRising (P.compared probe.now) (in_order self.now) }
        ensures { result ≡ filter (λ item. is_equal (P.compared probe.now item))
            (in_order self.now) }
    {
        let numbers = self
            .order
            .matching(&ByItem::new(self.items.as_slice(), probe));
        Lent::new(numbers, self.items.as_slice())
    }

    /// The numbers of the items in the place of what is sought, in order.
    pub fn numbers_matching<P: ItemProbe<T>>(&self, probe: &P) -> Numbers<'_>
        requires { IsRising (P.compared probe.now) (in_order self.now) }
        ensures numbers { result
            ≡ filter (λ number. is_equal (compared_at (P.compared probe.now) self.now.items number))
            self.now.order }
        ensures arranged { Arranges self.now.order (length self.now.items) }
    {
        let by_item = ByItem::new(self.items.as_slice(), probe);
        self.order.matching(&by_item)
    }
}
