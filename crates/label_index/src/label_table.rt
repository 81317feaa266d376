//! Labels that are found by what they mean, and listed by their keys.
ghost use Rattle.std.specs.Prelude.{◌≡◌, ℕ, ◌+◌, ◌^◌, ◌<◌, ◌≤◌, ◌∷◌, ◌++◌, [], length, IfSome};
ghost use Rattle.std.specs.Prelude.{IsTrue, OnOk, Some, slice_get, vec_capacity};
ghost use Rattle.std.specs.List.{filter};
ghost use Rattle.sorted_order.specs.Sought.{IsMissing, is_equal};
ghost use Rattle.sorted_order.specs.ArenaView.{in_order, Arranges, FindsNumber, compared_at};
ghost use Rattle.label_index.specs.Labels.{label_cmp, cmp_to_key, AreNumbersOf, IsOfKey};

use crate::label::{Label, SoughtKey, SoughtLabel};
use jwk_set::KeyId;
use sorted_order::{Arena, ItemGuess, ItemProbe, Numbers};
use std::alloc::{AllocError, Global};
use std::marker::Model;
use wait_index::LabelNo;

/// Different labels, numbered as they came, and their order. In it the labels of a key in a domain
/// are one run, so that no choice of keys makes a search pass over others: it is a binary search.
#[derive(Drop)]
pub(crate) struct LabelTable {
    labels: Arena<Label>,
}

impl Model for LabelTable {
    ghost use Rattle.sorted_order.specs.ArenaView.{ArenaView, in_order};
    ghost use Rattle.label_index.specs.declared.label.Label.{Label};
    ghost use Rattle.label_index.specs.Labels.{IsInOrder};

    ghost Value = { ArenaView Label };

    ghost view = { λ t. t.labels };

    ghost invariant = { λ t. IsInOrder (in_order t.labels) };
}

impl LabelTable {
    /// No labels, without room. It takes no memory.
    pub(crate) fn new(alloc: Global) -> Self
        ensures { result ≡ record { items = []; order = []; capacity = 0 } }
    {
        LabelTable {
            labels: Arena::new(alloc),
        }
    }

    /// How many labels there are.
    pub(crate) fn len(&self) -> usize
        ensures len { result ≡ length self.now.items }
        ensures arranged { Arranges self.now.order (length self.now.items) }
    {
        self.labels.len()
    }

    /// How many labels more can be added without memory.
    pub(crate) fn room(&self) -> usize
        ensures { length self.now.items + result ≡ self.now.capacity }
    {
        self.labels.room()
    }

    /// Makes room for this many more labels.
    ///
    /// # Errors
    /// Memory ran out. Only the room may have grown.
    pub(crate) fn try_reserve(&mut self, labels: usize) -> Result<(), AllocError>
        ensures items { self.new.items ≡ self.old.items }
        ensures order { self.new.order ≡ self.old.order }
        ensures capacity { self.old.capacity ≤ self.new.capacity }
        ensures ok { OnOk result (length self.new.items + labels ≤ self.new.capacity) }
    {
        self.labels.try_reserve(labels)
    }

    /// The labels in the order in which they came.
    pub(crate) fn items(&self) -> &[Label]
        ensures { result.now ≡ self.now.items }
    {
        self.labels.items()
    }

    /// The number of the label, or, as an error, the place that it would have in the order.
    pub(crate) fn find(&self, label: Label) -> Result<u32, usize>
        ensures { FindsNumber (λ item. label_cmp item label) self.now result }
    {
        self.labels.find_by_guess(&SoughtLabel { label })
    }

    /// Adds a label that is missing, at its place in the order. There is room for it.
    pub(crate) fn insert(&mut self, at: usize, label: Label)
        requires missing { IsMissing (λ item. label_cmp item label) (in_order self.old) at }
        requires room { length self.old.items < self.old.capacity }
        ensures items { self.new.items ≡ self.old.items ++ label ∷ [] }
        ensures capacity { self.new.capacity ≡ self.old.capacity }
    {
        let _count = self.labels.len();
        let hint = SoughtLabel { label }.hint();
        self.labels.insert_with_hint(at, label, hint);
    }

    /// The number of the label, if it is the newest of all.
    pub(crate) fn find_newest(&self, label: Label) -> Option<u32>
        ensures { IfSome result (λ number. slice_get self.now.items number ≡ Some label) }
    {
        let labels = self.labels.items();
        let newest = u32::try_from(labels.len().checked_sub(1)?).ok()?;
        if is_there(labels, newest, &SoughtLabel { label }) {
            Some(newest)
        } else {
            None
        }
    }

    /// Lists the numbers of the labels of a key in a domain, in place of what the list had. There
    /// is room for each label.
    pub(crate) fn list_key(&self, list: &mut Vec<LabelNo>, domain: u32, key: KeyId)
        requires { length self.now.items ≤ vec_capacity list.old }
        ensures numbers { AreNumbersOf self.now.items (IsOfKey domain key) list.new.items }
        ensures room { vec_capacity list.new ≡ vec_capacity list.old }
    {
        let numbers = self.labels.numbers_matching(&SoughtKey { domain, key });
        list_numbers(list, numbers);
        // In the order in which they came their edges lie side by side in memory.
        list.sort_unstable();
    }
}

/// Lists the numbers, in place of what the list had. There is room for each of them.
fn list_numbers(list: &mut Vec<LabelNo>, numbers: Numbers<'_>)
    requires { length numbers ≤ vec_capacity list.old }
    ensures numbers { list.new.items ≡ numbers.entry }
    ensures room { vec_capacity list.new ≡ vec_capacity list.old }
{
    list.clear();
    for number in numbers {
        list.push_reserved(LabelNo::new(number));
    }
}

/// Whether the label with the number is the one that is sought.
fn is_there(labels: &[Label], number: u32, sought: &SoughtLabel) -> bool
    ensures { IsTrue result → slice_get labels.now number ≡ Some sought.now.label }
{
    match labels.get(number as usize) {
        Some(label) => sought.compare(label).is_eq(),
        None => false,
    }
}
