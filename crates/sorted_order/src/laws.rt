//! What holds of every list that is in order.
ghost use Rattle.std.specs.Prelude.{◌≡◌, ℕ, ◌<◌, ◌≤◌, Bool, true, List, length};
ghost use Rattle.std.specs.declared.cmp.Ordering.{Ordering};
ghost use Rattle.std.specs.List.{AllPairs, AllWithin, insert};
ghost use Rattle.std.specs.Ordering.{ordering_index};
ghost use Rattle.sorted_order.specs.Sought.{IsRising};
ghost use Rattle.sorted_order.specs.ArenaView.{ArenaView, Arranges, in_order};

/// A list in order is sorted for what is sought, if of two items the earlier never compares greater
/// to it than the later.
pub fn order_rises<T>()
    ensures { (less : T → T → Bool) (compared : T → Ordering) (items : List T)
        → AllPairs (λ x y. less x y ≡ true) items
        → ((x y : T) → less x y ≡ true → ordering_index (compared x) ≤ ordering_index (compared y))
        → IsRising compared items }
{}

/// A list in order is still so when an item is put after those that come before it, and before the
/// others.
pub fn insertion_keeps_order<T>()
    ensures { (less : T → T → Bool) (items : List T) (at : ℕ) (item : T) → at ≤ length items
        → AllPairs (λ x y. less x y ≡ true) items
        → AllWithin (λ x. less x item ≡ true) items 0 at
        → AllWithin (λ x. less item x ≡ true) items at (length items)
        → AllPairs (λ x y. less x y ≡ true) (insert items at item) }
{}

/// The number of items in order is the number of items.
pub fn each_item_is_in_order<T>()
    ensures { (stock : ArenaView T) → Arranges stock.order (length stock.items)
        → length (in_order stock) ≡ length stock.items }
{}
