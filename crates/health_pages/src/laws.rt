//! What follows from the definitions.
ghost use Rattle.std.specs.Prelude.{◌≡◌, ◌≤◌, ◌++◌, ℕ, List, None, Some, length};
ghost use Rattle.health_pages.specs.HeadEnds.{head_limit};
ghost use Rattle.health_pages.specs.Heads.{IsVerdict, host_view, result_view};
ghost use Rattle.health_pages.specs.Heads.{with_piece};
ghost use Rattle.health_pages.specs.declared.head_verdict.HeadVerdict.{HeadVerdict};

/// However a stream is cut into pieces, a request has one verdict.
///
/// - `joined`: two pieces, one after the other, are the same as one.
/// - `kept`: a verdict does not change, whatever comes after it.
/// - `one`: two verdicts on the same bytes are equal: the causes of a refusal exclude each other.
/// - `whole`: bytes with a verdict are not bytes of which more have to come.
pub fn verdicts()
    ensures joined { (bytes first second : List ℕ) → length bytes ≤ head_limit
        → with_piece (with_piece bytes first) second ≡ with_piece bytes (first ++ second) }
    ensures kept { (bytes piece : List ℕ) (v : HeadVerdict)
        → IsVerdict bytes (Some v) → IsVerdict (with_piece bytes piece) (Some v) }
    ensures one { (bytes : List ℕ) (v w : HeadVerdict)
        → IsVerdict bytes (Some v) → IsVerdict bytes (Some w)
        → (v.is_head ≡ w.is_head) × (result_view v.asked ≡ result_view w.asked)
        × (host_view v ≡ host_view w) }
    ensures whole { (bytes : List ℕ) (v : HeadVerdict)
        → IsVerdict bytes (Some v) → IsVerdict bytes None → ⊥ }
{}
