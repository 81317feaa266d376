//! What follows from only the definitions, for the crates above. No call does any work.
ghost use Rattle.std.specs.Prelude.{◌≡◌, ◌↔◌, ℕ, List, []};
ghost use Rattle.serde_json.specs.Data.{object};
ghost use Rattle.serde_json.specs.Written.{compact_text};
ghost use Rattle.fed_config.specs.Configuration.{Configuration, IsConfiguration, AreDomains};
ghost use Rattle.fed_config.specs.Configuration.{HasShortUrls, config_text, config_id_of};
ghost use Rattle.fed_config.specs.Configuration.{set_members};
ghost use Rattle.fed_config.specs.Limits.{usual_limits};
ghost use Rattle.fed_config.specs.declared.limits.Limits.{Limits};
ghost use Rattle.fed_config.specs.Reading.{IsConfig, RefusesConfigBytes};
ghost use Rattle.fed_config.specs.declared.error.ConfigError.{ConfigError};
ghost use Rattle.fed_config.specs.declared.error.ConfigError.TheVariants.{NoMemory};

/// A text is a configuration of one meaning at most. What is refused, except for memory, is a
/// configuration of none, and is refused for one cause. A configuration's domains have one strictly
/// sorted list.
pub fn configurations()
    ensures one { (bytes : List ℕ) (b c : Configuration) → IsConfig bytes b → IsConfig bytes c
        → b ≡ c }
    ensures none { (bytes : List ℕ) (e : ConfigError) (c : Configuration)
        → RefusesConfigBytes bytes e → (e ≡ NoMemory → ⊥) → IsConfig bytes c → ⊥ }
    ensures one_cause { (bytes : List ℕ) (d e : ConfigError) → RefusesConfigBytes bytes d
        → RefusesConfigBytes bytes e → (d ≡ NoMemory → ⊥) → (e ≡ NoMemory → ⊥) → d ≡ e }
    ensures one_list { (c : Configuration) (domains others : List (List ℕ)) → AreDomains c domains
        → AreDomains c others → domains ≡ others }
{
    spiffe_name::laws::one_reading();
    bundle_doc::laws::values();
}

/// Configurations with the same limits are equal exactly if their canonical texts are. The text,
/// read as a configuration, is that configuration with the usual limits, if each of its URLs is
/// within the limit of 2,048 bytes also as it is kept. Without floors it is the text of only the
/// relationships and seeds. Text and digest do not say the limits.
pub fn canonical_texts()
    ensures one_text { (b c : Configuration) → IsConfiguration b → IsConfiguration c
        → b.limits ≡ c.limits → (b ≡ c) ↔ (config_text b ≡ config_text c) }
    ensures reads_back { (c : Configuration) → IsConfiguration c → HasShortUrls c
        → IsConfig (config_text c) (record c { limits = usual_limits }) }
    ensures no_floors { (c : Configuration) → c.floors ≡ []
        → config_text c ≡ compact_text (object (set_members c)) }
    ensures no_limits { (c : Configuration) (limits : Limits)
        → config_id_of (record c { limits = limits }) ≡ config_id_of c }
{
    jwk_set::laws::compact_texts();
    spiffe_name::laws::one_reading();
    spiffe_name::laws::plain_texts();
    bundle_doc::laws::documents();
    bundle_doc::laws::written();
}
