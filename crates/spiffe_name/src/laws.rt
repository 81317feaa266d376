//! What holds of every text. No call does any work.
ghost use Rattle.std.specs.Prelude.{◌≡◌, ℕ, List};
ghost use Rattle.spiffe_name.specs.Bytes.{IsPlainText};
ghost use Rattle.spiffe_name.specs.TrustDomain.{IsDomainText, RefusesDomain};
ghost use Rattle.spiffe_name.specs.SpiffeId.{Id, IsId, RefusesId};
ghost use Rattle.spiffe_name.specs.declared.error.NameError.{NameError};

/// A text is refused for one cause at most. Since `NoMemory` is the cause only for a name, no name
/// is refused for another cause.
pub fn one_cause()
    ensures domain { (text : List ℕ) (one other : NameError) → RefusesDomain text one
        → RefusesDomain text other → one ≡ other }
    ensures id { (text : List ℕ) (one other : NameError) → RefusesId text one
        → RefusesId text other → one ≡ other }
{}

/// IDs are equal exactly when their texts are: a text has one trust domain and one path.
pub fn one_reading()
    ensures { (one other : Id) → IsId one → IsId other → one.text ≡ other.text → one ≡ other }
{}

/// Names and IDs are printable ASCII with no quotation mark and no backslash, so that each is
/// written in a JSON string without an escape.
pub fn plain_texts()
    ensures domain { (text : List ℕ) → IsDomainText text → IsPlainText text }
    ensures id { (id : Id) → IsId id → IsPlainText id.text }
{}
