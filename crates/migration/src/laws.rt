//! What follows only from the definitions. A call does nothing.
ghost use Rattle.std.specs.Prelude.{◌↔◌, Contains};
ghost use Rattle.fed_config.specs.Configuration.{Configuration};
ghost use Rattle.receipt_core.specs.Acceptance.{Meaning};
ghost use Rattle.receipt_core.specs.Receipt.{Receipt};
ghost use Rattle.receipt_core.specs.declared.distrust.Distrust.{Distrust};
ghost use Rattle.closure_core.specs.Alike.{AreAlike, IsSameTrust};
ghost use Rattle.migration.specs.Carry.{IsCarried};
ghost use Rattle.migration.specs.declared.carrying.Choice.{Choice};

/// What is carried over to a configuration is a function of the sets that were held: of replicas
/// that held the same receipts and records, under whatever configurations, the same is carried
/// over, if the relationships, seeds and floors are the same then. Their limits may differ, before
/// and after.
pub fn one_migration()
    ensures { (choice : Choice) (c d : Configuration) (one other new newer : Meaning)
        → IsSameTrust c d
        → ((r : Receipt) → (Contains one.held r ↔ Contains other.held r))
        → ((x : Distrust) → (Contains one.records x ↔ Contains other.records x))
        → IsCarried choice c one new → IsCarried choice d other newer → AreAlike new newer }
{
    closure_core::laws::one_list();
}
