//! Places for what came before, each found by the bytes at one part of a text.
ghost use Rattle.std.specs.Prelude.{◌<◌};

use std::alloc::Global;

// How many places there are.
const PLACES: usize = 4_096;

// An odd number without a pattern in its bits, whose products spread over their upper bits.
const SPREAD: u64 = 0x9e37_79b9_7f4a_7c15;

/// Places for values that came before. There is no place until something is to be kept.
#[derive(Drop)]
pub(crate) struct Places<T> {
    places: Vec<Place<T>>,
    keeps_more: bool,
}

/// A place: a value, a tag of its text, and a tag of a text that came and was not kept. Texts with
/// the same place that come in turn would replace each other. So a value that was found since
/// another text wanted its place is kept, and a text is replaced only by the second other one that
/// comes.
#[derive(Drop)]
struct Place<T> {
    kept: Option<Box<T>>,
    tag: u32,
    other_tag: u32,
    was_found: bool,
    is_doubted: bool,
}

impl<T: Drop> Places<T> {
    /// Places that are made once something is to be kept. It takes no memory.
    pub(crate) fn new(alloc: Global) -> Self {
        Places {
            places: Vec::new(alloc),
            keeps_more: true,
        }
    }

    /// No places.
    pub(crate) fn none(alloc: Global) -> Self {
        Places {
            places: Vec::new(alloc),
            keeps_more: false,
        }
    }

    /// What is kept in the place of the text, if it seems to be of this text.
    pub(crate) fn known(&mut self, text: &[u8]) -> Option<&mut T> {
        if self.places.is_empty() {
            return None;
        }
        let number = number_of(text);
        let place = place_of(number, self.places.len());
        self.places[place].known(tag_of(number))
    }

    /// Whether to keep a value for the text, which has to come twice for that: keeping one takes
    /// nearly as long as reading it.
    pub(crate) fn keeps(&mut self, alloc: Global, text: &[u8]) -> bool {
        if self.keeps_more {
            self.keeps_more = false;
            self.places = empty_places(alloc);
        }
        if self.places.is_empty() {
            return false;
        }
        let number = number_of(text);
        let place = place_of(number, self.places.len());
        self.places[place].comes_again(tag_of(number))
    }

    /// Keeps a value for the text, in place of what was there.
    pub(crate) fn keep(&mut self, text: &[u8], value: Box<T>) {
        if self.places.is_empty() {
            return;
        }
        let number = number_of(text);
        let place = place_of(number, self.places.len());
        self.places[place].keep(tag_of(number), value);
    }
}

impl<T: Drop> Place<T> {
    fn known(&mut self, tag: u32) -> Option<&mut T> {
        if tag != self.tag {
            return None;
        }
        self.was_found = true;
        match &mut self.kept {
            Some(kept) => Some(&mut **kept),
            None => None,
        }
    }

    // Whether the text with this tag came before, and may have the place now.
    fn comes_again(&mut self, tag: u32) -> bool {
        if tag == self.other_tag {
            let stays = self.was_found;
            self.was_found = false;
            return !stays;
        }
        if self.is_doubted {
            self.other_tag = tag;
        }
        self.is_doubted = !self.is_doubted;
        false
    }

    fn keep(&mut self, tag: u32, value: Box<T>) {
        self.tag = tag;
        self.kept = Some(value);
        self.was_found = false;
    }
}

// Empty places, as far as there is memory.
fn empty_places<T: Drop>(alloc: Global) -> Vec<Place<T>> {
    let mut places = Vec::new(alloc);
    for _ in 0..PLACES {
        let place = Place {
            kept: None,
            tag: 0,
            other_tag: 0,
            was_found: false,
            is_doubted: true,
        };
        // Without memory there are fewer places.
        if places.push(place).is_err() {
            return places;
        }
    }
    places
}

// The place of a text among `places`.
fn place_of(number: u64, places: usize) -> usize
    requires { 0 < places }
    ensures { result < places }
{
    (number % places as u64) as usize
}

fn tag_of(number: u64) -> u32 {
    (number >> 32) as u32
}

// A number by which texts differ. The text of an authority begins with its key, and that of a
// document has ten bytes before that; most of what differs begins before byte 64.
fn number_of(text: &[u8]) -> u64 {
    let front = spread(word_at(text, 24), word_at(text, 32));
    let back = spread(word_at(text, 48), word_at(text, 56));
    let number = spread(front, spread(word_at(text, 40), back));
    number ^ (number >> 32)
}

fn spread(first: u64, second: u64) -> u64 {
    (first ^ second.wrapping_mul(SPREAD).rotate_left(29)).wrapping_mul(SPREAD)
}

// Eight bytes from this place on, or zero if the text ends before.
fn word_at(text: &[u8], at: usize) -> u64 {
    match text.get(at..).and_then(|rest| rest.first_chunk::<8>()) {
        Some(word) => u64::from_le_bytes(*word),
        None => 0,
    }
}
