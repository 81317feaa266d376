//! The labels that a merge closes.
ghost use Rattle.std.specs.Prelude.{◌≡◌};

use closure_parts::Held;
use label_index::{Label, LabelTest};

/// A label is meant if its key is distrusted in what is held.
#[derive(Drop)]
pub(crate) struct DistrustedLabels<'a> {
    held: &'a Held,
}

impl<'a> DistrustedLabels<'a> {
    pub(crate) fn new(held: &'a Held) -> Self
        ensures { result.held.now ≡ held.now }
    {
        DistrustedLabels { held }
    }
}

impl<'a> LabelTest for DistrustedLabels<'a> {
    ghost use Rattle.trust_closure.specs.Inside.Indexed.{IsDistrusted};

    ghost IsMeant = { λ labels. IsDistrusted labels.held.now };

    fn is_meant(&self, label: &Label) -> bool {
        self.held.is_distrusted_in(label.domain, label.key)
    }
}
