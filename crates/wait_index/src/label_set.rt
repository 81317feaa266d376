//! A set of labels in the order in which they were put in.
ghost use Rattle.std.specs.Prelude.{◌≡◌, ℕ, ◌+◌, ◌^◌, ◌<◌, ◌≤◌, true, false, [], ◌∷◌, ◌++◌, length};
ghost use Rattle.std.specs.Prelude.{slice_set, MatchOption, OnOk, vec_capacity};
ghost use Rattle.wait_index.specs.Inside.Listing.{IsListing, holds};

use crate::number::LabelNo;
use std::alloc::{AllocError, Global};

/// The place of a label is its index in the list plus 1, or 0 if it is not in the set. There is
/// room in the list for each label.
#[derive(Drop)]
pub(crate) struct LabelSet {
    pub(crate) items: Vec<LabelNo>,
    pub(crate) places: Vec<u32>,
    ghost listed: { IsListing items.items places.items },
    ghost roomy: { length places.items ≤ vec_capacity items },
    ghost few: { length places.items < 2 ^ 32 },
}

impl LabelSet {
    ghost use Rattle.wait_index.specs.Inside.Room.{GrowsLabels, HasLabelsRoom};

    pub(crate) fn new(alloc: Global) -> Self
        ensures items { result.items.items ≡ [] }
        ensures places { result.places.items ≡ [] }
    {
        LabelSet {
            items: Vec::new(alloc),
            places: Vec::new(alloc),
        }
    }

    /// Makes room for this many more labels.
    pub(crate) fn try_reserve(&mut self, labels: usize) -> Result<(), AllocError>
        ensures grows { GrowsLabels self.old self.new }
        ensures ok { OnOk result (HasLabelsRoom self.new labels) }
    {
        self.places.try_reserve(labels)?;
        let unlisted = self.places.len() - self.items.len();
        self.items.try_reserve(unlisted + labels)?;
        Ok(())
    }

    /// Adds a label that is not in the set.
    pub(crate) fn add_label(&mut self)
        requires items_room { length self.old.places.items < vec_capacity self.old.items }
        requires places_room { length self.old.places.items < vec_capacity self.old.places }
        requires few { length self.old.places.items + 1 < 2 ^ 32 }
        ensures items { self.new.items.items ≡ self.old.items.items }
        ensures places { self.new.places.items ≡ self.old.places.items ++ 0 ∷ [] }
        ensures items_room { vec_capacity self.new.items ≡ vec_capacity self.old.items }
        ensures places_room { vec_capacity self.new.places ≡ vec_capacity self.old.places }
    {
        self.places.push_reserved(0);
    }

    pub(crate) fn holds(&self, label: usize) -> bool
        requires { label < length self.now.places.items }
        ensures { result ≡ holds self.now.places.items label }
    {
        self.places[label] > 0
    }

    /// Puts a label that is not in the set at the end of the list.
    pub(crate) fn insert(&mut self, label: usize)
        requires label { label < length self.old.places.items }
        requires absent { holds self.old.places.items label ≡ false }
        ensures items { self.new.items.items ≡ self.old.items.items ++ label ∷ [] }
        ensures places { self.new.places.items
            ≡ slice_set self.old.places.items label (length self.old.items.items + 1) }
        ensures items_room { vec_capacity self.new.items ≡ vec_capacity self.old.items }
        ensures places_room { vec_capacity self.new.places ≡ vec_capacity self.old.places }
    {
        self.items.push_reserved(LabelNo::new(label as u32));
        self.places[label] = self.items.len() as u32;
    }

    /// Takes the last label of the list out of the set.
    pub(crate) fn take_last(&mut self) -> usize
        requires { 0 < length self.old.items.items }
        ensures items { self.old.items.items ≡ self.new.items.items ++ result ∷ [] }
        ensures places { self.new.places.items ≡ slice_set self.old.places.items result 0 }
        ensures items_room { vec_capacity self.new.items ≡ vec_capacity self.old.items }
        ensures places_room { vec_capacity self.new.places ≡ vec_capacity self.old.places }
    {
        let label = self.items.take_last().index();
        self.places[label] = 0;
        label
    }
}
