//! Elements of a bundle that count for nothing.
ghost use Rattle.std.specs.Prelude.{◌≡◌, IsTrue, codes, option_and_then, option_map};
ghost use Rattle.serde_json.specs.View.{view};
ghost use Rattle.serde_json.specs.Find.{at, get};
ghost use Rattle.jwk_set.specs.Element.{IsElement};
ghost use Rattle.jwk_set.specs.declared.authority.Authority.{Authority};
ghost use Rattle.fault_view.specs.Flaws.{IsIgnored};

use jwk_set::read_element;
use serde_json::Value;
use std::alloc::Global;

/// Whether the element of `keys` with this number, from 0, is passed over when the bundle is read,
/// since it says no authority. Not so if there is no such element, or memory ran out.
pub fn is_ignored(alloc: Global, bundle: &Value, number: usize) -> bool
    ensures { IsTrue result → IsIgnored (view bundle.now) number }
{
    match element_at(bundle, number) {
        Some(element) => says_none(alloc, element),
        None => false,
    }
}

fn element_at(bundle: &Value, number: usize) -> Option<&Value>
    ensures { option_map (λ v. view v.now) result
        ≡ option_and_then (at number) (get (codes "keys") (view bundle.now)) }
{
    bundle.get("keys")?.get(number)
}

fn says_none(alloc: Global, element: &Value) -> bool
    ensures { IsTrue result
        → (authority : Authority) → IsElement (view element.now) authority → ⊥ }
{
    matches!(read_element(alloc, element), Ok(None))
}
