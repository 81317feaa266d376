//! What follows from the definitions. A call that needs a law calls its function, which does
//! nothing, and cites what it ensures.
ghost use Rattle.std.specs.Prelude.{◌≡◌, [], ◌∷◌, ◌++◌, ℕ, List, Option};
ghost use Rattle.std.specs.Io.KnownBytes.{Appends};
ghost use Rattle.byte_lines.specs.Device.{AppendsBeginning};
ghost use Rattle.byte_lines.specs.Lines.{HasNoFeed, lines_of, with_line};

/// One piece after another is the same as both together. A beginning of the first, or the first and
/// a beginning of the second, is a beginning of both.
pub fn pieces()
    ensures none { (old : Option (List ℕ)) → Appends old old [] }
    ensures both { (old between new : Option (List ℕ)) (first second : List ℕ)
        → Appends old between first
        → Appends between new second → Appends old new (first ++ second) }
    ensures in_first { (old new : Option (List ℕ)) (first second : List ℕ)
        → AppendsBeginning old new first
        → AppendsBeginning old new (first ++ second) }
    ensures in_second { (old between new : Option (List ℕ)) (first second : List ℕ)
        → Appends old between first
        → AppendsBeginning between new second → AppendsBeginning old new (first ++ second) }
{}

/// The lines of bytes, as they are taken from a stream: a text without a line feed, with a line
/// feed after it, is the first line, before the lines of what follows; a text without any line feed
/// is the rest.
pub fn streams()
    ensures line { (text after : List ℕ) → HasNoFeed text
        → lines_of ((text ++ (10 ∷ [])) ++ after) ≡ with_line text (lines_of after) }
    ensures rest { (text : List ℕ) → HasNoFeed text
        → lines_of text ≡ record { whole = []; rest = text } }
{}
