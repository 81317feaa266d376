//! What is sought.
ghost use Rattle.std.specs.Prelude.{◌≡◌, ℕ};

use std::cmp::Ordering;

/// What is sought among numbers.
pub trait Probe {
    ghost use Rattle.std.specs.declared.cmp.Ordering.{Ordering};

    // How a number compares to what is sought: `Less` before it, `Equal` in its place, `Greater`
    // after it.
    ghost compared: { Self → ℕ → Ordering };

    // Whether the number can be compared.
    ghost knows: { Self → ℕ → Type 0 };

    /// How the number compares to what is sought: `Less` before it, `Equal` in its place, `Greater`
    /// after it.
    fn compare(&self, number: u32) -> Ordering
        requires { knows self.now number }
        ensures { result ≡ compared self.now number };
}

/// What is sought among items.
pub trait ItemProbe<T> {
    ghost use Rattle.std.specs.declared.cmp.Ordering.{Ordering};

    // How an item compares to what is sought: `Less` before it, `Equal` in its place, `Greater`
    // after it.
    ghost compared: { Self → T → Ordering };

    /// How the item compares to what is sought: `Less` before it, `Equal` in its place, `Greater`
    /// after it.
    fn compare(&self, item: &T) -> Ordering
        ensures { result ≡ compared self.now item.now };
}

/// What is sought among numbers of items, by those items.
#[derive(Drop)]
pub struct ByItem<'a, T, P> {
    /// The items that the numbers are of.
    pub items: &'a [T],
    /// What is sought.
    pub probe: &'a P,
}

impl<'a, T, P: ItemProbe<T>> ByItem<'a, T, P> {
    /// Seeks what `probe` seeks among the numbers of `items`.
    pub fn new(items: &'a [T], probe: &'a P) -> Self
        ensures items { result.items.now ≡ items.now }
        ensures probe { result.probe.now ≡ probe.now }
    {
        ByItem { items, probe }
    }
}

impl<'a, T, P: ItemProbe<T>> Probe for ByItem<'a, T, P> {
    ghost use Rattle.std.specs.Prelude.{◌<◌, length};
    ghost use Rattle.sorted_order.specs.ArenaView.{compared_at};

    ghost compared = { λ by number. compared_at (P.compared by.probe.now) by.items.now number };

    ghost knows = { λ by number. number < length by.items.now };

    fn compare(&self, number: u32) -> Ordering {
        self.probe.compare(&self.items[number as usize])
    }
}

/// Seeks the place just past what is sought: what would be in its place comes before it.
#[derive(Drop)]
pub(crate) struct Past<'a, P> {
    probe: &'a P,
}

impl<'a, P: Probe> Past<'a, P> {
    pub(crate) fn new(probe: &'a P) -> Self
        ensures { result.probe.now ≡ probe.now }
    {
        Past { probe }
    }
}

impl<'a, P: Probe> Probe for Past<'a, P> {
    ghost use Rattle.sorted_order.specs.Inside.Seeking.{past};

    ghost compared = { λ it number. past (P.compared it.probe.now number) };

    ghost knows = { λ it number. P.knows it.probe.now number };

    fn compare(&self, number: u32) -> Ordering {
        match self.probe.compare(number) {
            Ordering::Greater => Ordering::Greater,
            _ => Ordering::Less,
        }
    }
}
