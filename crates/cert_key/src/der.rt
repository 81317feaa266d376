//! Elements of DER (X.690), one after another.
ghost use Rattle.std.specs.Prelude.{◌≤◌, IfSome, length};
ghost use Rattle.cert_key.specs.Inside.Reading.{IsReadAs, element_at, field_at, length_at};
ghost use Rattle.cert_key.specs.Inside.Reading.{one_at, three_at, two_at, view};

/// An element at the front of some bytes: a tag of one byte, a length and that many bytes of
/// content.
#[derive(Clone, Copy, Debug)]
pub(crate) struct Element<'a> {
    /// The byte that says of which kind it is.
    pub(crate) tag: u8,
    /// All its bytes: tag, length and content.
    pub(crate) whole: &'a [u8],
    /// Its content.
    pub(crate) content: &'a [u8],
    /// What is after it.
    pub(crate) after: &'a [u8],
}

/// The element at the front, and `None` if no element is there. Its length is definite, in the
/// fewest bytes, and below 2^24.
#[tactic(auto, unfolding(crate::specs::Inside::Reading::element_at))]
pub(crate) fn first_element(bytes: &[u8]) -> Option<Element<'_>>
    ensures { IsReadAs view result (element_at bytes.now) }
{
    let (tag, after_tag) = bytes.split_first()?;
    let (length, after_length) = length_at(after_tag)?;
    if after_length.len() < length {
        return None;
    }
    let (content, after) = after_length.split_at(length);
    Some(Element {
        tag: *tag,
        whole: &bytes[..bytes.len() - after.len()],
        content,
        after,
    })
}

/// The element at the front, if its tag is this one, and else `None`.
#[tactic(auto, unfolding(crate::specs::Inside::Reading::field_at))]
pub(crate) fn field_at(tag: u8, bytes: &[u8]) -> Option<Element<'_>>
    ensures { IsReadAs view result (field_at tag bytes.now) }
{
    let element = first_element(bytes)?;
    if element.tag != tag {
        return None;
    }
    Some(element)
}

// A length (X.690, 8.1.3), and what is after it. A byte from 128 on says how many bytes it has.
#[tactic(auto, unfolding(crate::specs::Inside::Reading::length_at))]
fn length_at(bytes: &[u8]) -> Option<(usize, &[u8])>
    ensures read { IsReadAs (λ l. (l.0, l.1.now)) result (length_at bytes.now) }
    ensures within { IfSome result (λ l. length l.1.now ≤ length bytes.now) }
{
    let (first, rest) = bytes.split_first()?;
    if *first < 128 {
        return Some((usize::from(*first), rest));
    }
    if *first == 129 {
        return one_at(rest);
    }
    if *first == 130 {
        return two_at(rest);
    }
    if *first == 131 {
        return three_at(rest);
    }
    None
}

// Each has to have the fewest bytes (X.690, 10.1), so it is too long for the form before.
#[tactic(auto, unfolding(crate::specs::Inside::Reading::one_at))]
fn one_at(bytes: &[u8]) -> Option<(usize, &[u8])>
    ensures read { IsReadAs (λ l. (l.0, l.1.now)) result (one_at bytes.now) }
    ensures within { IfSome result (λ l. length l.1.now ≤ length bytes.now) }
{
    let [a, rest @ ..] = bytes else {
        return None;
    };
    let length = usize::from(*a);
    if length < 128 {
        return None;
    }
    Some((length, rest))
}

#[tactic(auto, unfolding(crate::specs::Inside::Reading::two_at))]
fn two_at(bytes: &[u8]) -> Option<(usize, &[u8])>
    ensures read { IsReadAs (λ l. (l.0, l.1.now)) result (two_at bytes.now) }
    ensures within { IfSome result (λ l. length l.1.now ≤ length bytes.now) }
{
    let [a, b, rest @ ..] = bytes else {
        return None;
    };
    let length = usize::from(*a) * 256 + usize::from(*b);
    if length < 256 {
        return None;
    }
    Some((length, rest))
}

#[tactic(auto, unfolding(crate::specs::Inside::Reading::three_at))]
fn three_at(bytes: &[u8]) -> Option<(usize, &[u8])>
    ensures read { IsReadAs (λ l. (l.0, l.1.now)) result (three_at bytes.now) }
    ensures within { IfSome result (λ l. length l.1.now ≤ length bytes.now) }
{
    let [a, b, c, rest @ ..] = bytes else {
        return None;
    };
    let length = usize::from(*a) * 65_536 + usize::from(*b) * 256 + usize::from(*c);
    if length < 65_536 {
        return None;
    }
    Some((length, rest))
}
