//! Relationships and seeds as sets: strictly sorted lists.
ghost use Rattle.std.specs.Prelude.{◌≡◌, ◌↔◌, ◌≤◌, IsTrue, length};
ghost use Rattle.std.specs.List.{AllByRecursion};
ghost use Rattle.std.specs.List.Sorted.{IsPermutation, IsSorted, IsStrictlySortedBy};
ghost use Rattle.fed_config.specs.Configuration.{IsSeed, relationship_cmp, seed_cmp};
ghost use Rattle.fed_config.specs.Reading.{IsSetOf};

use crate::relationship::Relationship;
use crate::seed::Seed;

/// Puts the relationships in the order of their domains.
pub(crate) fn sort_relationships(relationships: &mut Vec<Relationship>)
    ensures permutation { IsPermutation relationships.old.items relationships.new.items }
    ensures sorted { IsSorted relationship_cmp relationships.new.items }
{
    relationships.sort_unstable_by(|one, other| one.domain.cmp(&other.domain));
}

/// Whether each domain of sorted relationships comes once.
pub(crate) fn are_single(relationships: &[Relationship]) -> bool
    requires { IsSorted relationship_cmp relationships.now }
    ensures { IsTrue result ↔ IsStrictlySortedBy relationship_cmp relationships.now }
{
    for place in 1..relationships.len() {
        if relationships[place - 1].domain == relationships[place].domain {
            return false;
        }
    }
    true
}

/// Puts the seeds in order, each once.
pub(crate) fn sort_seeds(seeds: &mut Vec<Seed>)
    requires { AllByRecursion IsSeed seeds.old.items }
    ensures set { IsSetOf seed_cmp seeds.old.items seeds.new.items }
    ensures bound { length seeds.new.items ≤ length seeds.old.items }
{
    // Documents of one canonical text are one.
    bundle_doc::laws::documents();
    seeds.sort_unstable();
    seeds.dedup();
}
