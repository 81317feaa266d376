//! Items lent in the order of their numbers.
ghost use Rattle.std.specs.Prelude.{◌≡◌, ℕ, ◌<◌, length};
ghost use Rattle.std.specs.List.{All};
ghost use Rattle.std.specs.Iterator.{YieldsFirstRef, item_count};
ghost use Rattle.sorted_order.specs.ArenaView.{picked};

use crate::numbers::Numbers;
use std::marker::Model;

/// The items with some numbers, in the order of those, seen as the list of the items that are left.
#[derive(Drop)]
pub struct Lent<'a, T> {
    numbers: Numbers<'a>,
    items: &'a [T],
}

impl<'a, T> Model for Lent<'a, T> {
    ghost use Rattle.std.specs.Prelude.{◌<◌, List, length};
    ghost use Rattle.std.specs.List.{All};
    ghost use Rattle.sorted_order.specs.ArenaView.{picked};

    ghost Value = { List T };

    ghost view = { λ l. picked l.items.now l.numbers };

    ghost invariant = { λ l. All (λ number. number < length l.items.now) l.numbers };
}

impl<'a, T> Lent<'a, T> {
    /// Lends the items with these numbers.
    pub fn new(numbers: Numbers<'a>, items: &'a [T]) -> Self
        requires { All (λ number. number < length items.now) numbers }
        ensures { result ≡ picked items.now numbers.entry }
    {
        Lent { numbers, items }
    }
}

impl<'a, T> Iterator for Lent<'a, T> {
    type Item = &'a T;

    ghost next_gives = { YieldsFirstRef (λ rest. rest) };

    ghost remaining = { item_count (λ rest. rest) };

    fn next(&mut self) -> Option<&'a T> {
        let number = self.numbers.next()?;
        Some(&self.items[number as usize])
    }
}
