//! What follows from the definitions, for the crates above. No call does any work.
ghost use Rattle.std.specs.Prelude.{◌≡◌, ℕ, ◌≤◌, List, false};
ghost use Rattle.hex.specs.Hex.{IsBytes, encode_lower};
ghost use Rattle.serde_json.specs.Data.{Data, depth};
ghost use Rattle.serde_json.specs.Written.{has_float};
ghost use Rattle.jwk_set.specs.Json.{IsPlain};
ghost use Rattle.spiffe_name.specs.Bytes.{IsPlainText};
ghost use Rattle.bundle_doc.specs.Bundle.{Bundle, Fits, IsBundle, IsDocument, Means};
ghost use Rattle.bundle_doc.specs.Bundle.{canonical_text, document_tree};
ghost use Rattle.bundle_doc.specs.Refusal.{RefusesBytes, RefusesTree};
ghost use Rattle.bundle_doc.specs.declared.error.DocError.{DocError};
ghost use Rattle.bundle_doc.specs.declared.error.DocError.TheVariants.{NoMemory};

/// The hexadecimal digits of an id are written in a JSON string without an escape.
pub fn hex_texts()
    ensures { (bytes : List ℕ) → IsBytes bytes → IsPlainText (encode_lower bytes) }
{}

/// Bytes are a document of one meaning at most. Bytes that are refused, except for memory, are not
/// a document, and are refused for one cause. A canonical text has one meaning, and within the
/// limit it is a document of it.
pub fn documents()
    ensures one { (bytes : List ℕ) (b c : Bundle) → IsDocument bytes b
        → IsDocument bytes c → b ≡ c }
    ensures none { (bytes : List ℕ) (e : DocError) (b : Bundle) → RefusesBytes bytes e
        → (e ≡ NoMemory → ⊥) → IsDocument bytes b → ⊥ }
    ensures one_cause { (bytes : List ℕ) (d e : DocError) → RefusesBytes bytes d
        → RefusesBytes bytes e → (d ≡ NoMemory → ⊥) → (e ≡ NoMemory → ⊥) → d ≡ e }
    ensures one_text { (b c : Bundle) → IsBundle b → IsBundle c
        → canonical_text b ≡ canonical_text c → b ≡ c }
    ensures reads_back { (b : Bundle) → IsBundle b → Fits b → IsDocument (canonical_text b) b }
{}

/// A JSON value is a document of one meaning at most. A value that is refused, except for memory,
/// is not a document, and is refused for one cause.
pub fn values()
    ensures one { (value : Data) (b c : Bundle) → Means value b → Means value c → b ≡ c }
    ensures none { (value : Data) (e : DocError) (b : Bundle) → RefusesTree value e
        → (e ≡ NoMemory → ⊥) → Means value b → Fits b → ⊥ }
    ensures one_cause { (value : Data) (d e : DocError) → RefusesTree value d → RefusesTree value e
        → (d ≡ NoMemory → ⊥) → (e ≡ NoMemory → ⊥) → d ≡ e }
{}

/// What is written for a bundle is a document of it again. It is plain, with no float, and nests at
/// most four levels deep, so that it can be inside other plain values.
pub fn written()
    ensures reads_back { (b : Bundle) → IsBundle b → Means (document_tree b) b }
    ensures plain { (b : Bundle) → IsBundle b → IsPlain (document_tree b) }
    ensures no_float { (b : Bundle) → IsBundle b → has_float (document_tree b) ≡ false }
    ensures shallow { (b : Bundle) → depth (document_tree b) ≤ 4 }
{}
