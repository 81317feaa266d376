//! The items of a list that came before one of them.
ghost use Rattle.std.specs.Prelude.{◌≡◌, ℕ, ◌+◌, ◌<◌, ◌≤◌, length, slice_get, Some, IfSome};
ghost use Rattle.std.specs.List.{insert};
ghost use Rattle.replica_core.specs.Inside.Earlier.{has_equal, passed};

use sorted_order::{ByItem, ItemProbe, Order};
use std::alloc::Global;
use std::cmp::Ordering;
use std::marker::Model;

/// The items that came before in a list, each different one by its number, in order. So n items
/// take of the order of n log n comparisons in all. If memory for a number is refused, each further
/// item is compared with all before it.
#[derive(Drop)]
pub(crate) struct Earlier<'a, T: Ord> {
    items: &'a [T],
    count: usize,
    order: Option<Order>,
}

impl<'a, T: Ord> Model for Earlier<'a, T> {
    ghost use Rattle.std.specs.Prelude.{IfSome};
    ghost use Rattle.replica_core.specs.Inside.Earlier.{Front, AreNoted};

    ghost Value = { Front T };

    ghost view = { λ e. record { items = e.items.now; count = e.count } };

    ghost invariant = { λ e. IfSome e.order (λ o. AreNoted T.cmp e.items.now e.count o.items) };
}

impl<'a, T: Ord> Earlier<'a, T> {
    /// No item came before. It takes no memory.
    pub(crate) fn new(alloc: Global, items: &'a [T]) -> Self
        ensures { result ≡ record { items = items.now; count = 0 } }
    {
        Earlier {
            items,
            count: 0,
            order: Some(Order::new(alloc)),
        }
    }

    /// Afterwards the next item counts among those that came before, and the order is given up:
    /// what comes later is compared with each before it.
    pub(crate) fn pass(&mut self)
        requires { self.old.count < length self.old.items }
        ensures items { self.new.items ≡ self.old.items }
        ensures count { self.new.count ≡ self.old.count + 1 }
    {
        self.count += 1;
        self.order = None;
    }

    /// Whether the next item is equal to one that came before. Afterwards it counts among those.
    pub(crate) fn is_repeat(&mut self, next: &T) -> bool
        requires { slice_get self.old.items self.old.count ≡ Some next.now }
        ensures items { self.new.items ≡ self.old.items }
        ensures count { self.new.count ≡ self.old.count + 1 }
        ensures repeat { result ≡ has_equal T.cmp (passed self.old) next.now }
    {
        let number = self.count;
        self.count += 1;
        let Some(order) = self.order.take() else {
            return self.items[..number].contains(next);
        };
        match order.find(&ByItem::new(self.items, &Alike { item: next })) {
            Ok(_) => {
                self.order = Some(order);
                true
            },
            Err(place) => {
                self.order = with_number(order, place, number);
                false
            },
        }
    }
}

/// What is sought: an item that is equal to this one.
#[derive(Drop)]
struct Alike<'a, T> {
    item: &'a T,
}

impl<'a, T: Ord> ItemProbe<T> for Alike<'a, T> {
    ghost compared = { λ sought item. T.cmp item sought.item.now };

    fn compare(&self, item: &T) -> Ordering {
        item.cmp(self.item)
    }
}

// The order with one number more, or nothing if there is no memory for it.
fn with_number(order: Order, place: usize, number: usize) -> Option<Order>
    requires { place ≤ length order.items }
    ensures { IfSome result (λ o. o.items ≡ insert order.items place number) }
{
    let Ok(number) = u32::try_from(number) else {
        return None;
    };
    let mut order = order;
    if order.try_reserve(1).is_err() {
        return None;
    }
    order.insert(place, number);
    Some(order)
}
