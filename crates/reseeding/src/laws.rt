//! What follows only from the definitions. No call does any work.
ghost use Rattle.std.specs.Prelude.{◌≡◌, ◌≤◌, Contains};
ghost use Rattle.fed_config.specs.Configuration.{Configuration, IsConfiguration};
ghost use Rattle.fed_config.specs.declared.floor.Floor.{Floor};
ghost use Rattle.receipt_core.specs.Acceptance.{IsMeaning, Meaning};
ghost use Rattle.reseeding.specs.Reseeding.{IsNewConfig};
ghost use Rattle.reseeding.specs.declared.new_floors.FloorChoice.{FloorChoice};
ghost use Rattle.reseeding.specs.declared.new_floors.FloorChoice.TheVariants.{Raised};

/// What [`crate::reseed`] writes is a configuration: each floor is that of one of its domains, each
/// seed reaches the floor of its domain, and nothing is beyond the limits.
pub fn new_configurations()
    ensures { (choice : FloorChoice) (m : Meaning) (c : Configuration) → IsMeaning m
        → IsConfiguration m.config → IsNewConfig choice m c → IsConfiguration c }
{}

/// Each floor of the configuration before is still there when floors are raised, and it is not
/// lower.
pub fn raised_floors()
    ensures { (m : Meaning) (c : Configuration) → IsMeaning m → IsConfiguration m.config
        → IsNewConfig Raised m c → (f : Floor) → Contains m.config.floors f
        → (g : Floor) × Contains c.floors g × (g.domain ≡ f.domain) × (f.sequence ≤ g.sequence) }
{}
