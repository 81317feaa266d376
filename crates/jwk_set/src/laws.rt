//! What follows from the definitions, for the crates above.
ghost use Rattle.std.specs.Prelude.{◌≡◌, ◌≤◌, ℕ, List, false};
ghost use Rattle.std.specs.List.{AllPass};
ghost use Rattle.json.specs.Print.{escape};
ghost use Rattle.serde_json.specs.Data.{Data, depth};
ghost use Rattle.serde_json.specs.Read.{max_depth};
ghost use Rattle.serde_json.specs.Written.{compact_text, has_float};
ghost use Rattle.jwk_set.specs.Json.{IsJson, IsPlain, is_unescaped};
ghost use Rattle.jwk_set.specs.Element.{IsElement, IsAuthority, tree_of};
ghost use Rattle.jwk_set.specs.declared.authority.Authority.{Authority};

/// No element says two authorities; what is written for an authority is plain, and is read back as
/// that authority.
pub fn elements()
    ensures one { (element : Data) (a b : Authority) → IsElement element a → IsElement element b
        → a ≡ b }
    ensures form { (element : Data) (a : Authority) → IsElement element a → IsAuthority a }
    ensures reads_back { (a : Authority) → IsAuthority a → IsElement (tree_of a) a }
    ensures plain { (a : Authority) → IsAuthority a → IsPlain (tree_of a) }
    ensures shallow { (a : Authority) → depth (tree_of a) ≤ 2 }
{}

/// The compact text of a plain value is a JSON text of that value and of no other.
pub fn compact_texts()
    ensures reads_back { (value : Data) → IsPlain value → depth value ≤ max_depth
        → IsJson (compact_text value) value }
    ensures no_float { (value : Data) → IsPlain value → has_float value ≡ false }
{}

/// A text with no quotation mark, no backslash and no control character is written in a JSON string
/// without an escape.
pub fn plain_texts()
    ensures { (text : List ℕ) → AllPass is_unescaped text → escape text ≡ text }
{}
