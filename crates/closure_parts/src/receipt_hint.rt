//! Guesses a receipt's place from the first receipt that was held. No clause speaks of it.
use receipt_core::Receipt;
use sorted_order::{Agreed, guess_text};
use std::cmp::Ordering;

/// Receipts with the text of the first one have this hint, those before it lower ones, and those
/// after it higher ones.
const MIDDLE: u64 = 1 << 63;

/// If texts agree on more bytes than this, it counts as this many.
const MOST_AGREED: u64 = (1 << 17) - 1;

/// The bits below those of the bytes that agree: four bytes of seven bits each, and the number.
const AGREED_SHIFT: u32 = 46;

/// The bits of the number: below 11 to the power of 5.
const NUMBER_BITS: u32 = 18;

/// A number that rises with the order of receipts, for most of them: by the place at which the
/// document's text differs from that of the first receipt that was held, then by the four bytes
/// from there on, and then by the number at the text's end. The first bytes of a text say little,
/// since most texts begin alike. Texts that differ from the first one at the same place mostly have
/// the same keys, so their sequence numbers distinguish them.
pub(crate) fn receipt_hint(held: &[Receipt], receipt: &Receipt) -> u64 {
    match held.first() {
        Some(first) => hint_next(first.document().canonical(), receipt.document().canonical()),
        None => MIDDLE,
    }
}

fn hint_next(first: &[u8], text: &[u8]) -> u64 {
    let nothing = Agreed {
        before: 0,
        after: 0,
    };
    let (order, place) = guess_text(text, first, nothing);
    let agreed = (place as u64).min(MOST_AGREED);
    let behind = (bytes_from(text, place) << NUMBER_BITS) | number_of(text);
    match order {
        // Among the texts before the first one, those that differ later are nearer to it.
        Ordering::Less => (agreed << AGREED_SHIFT) | behind,
        Ordering::Equal => MIDDLE,
        Ordering::Greater => MIDDLE | ((MOST_AGREED - agreed) << AGREED_SHIFT) | behind,
    }
}

/// The four bytes from the place on, as a number. Past the end they are 0, and each that is not
/// ASCII counts as 127.
fn bytes_from(text: &[u8], place: usize) -> u64 {
    let mut number = 0;
    for offset in 0..4_usize {
        let byte = text.get(place.saturating_add(offset)).copied();
        number = (number << 7) | u64::from(byte.unwrap_or(0).min(127));
    }
    number
}

/// The first five digits behind the last colon, as a number that rises with their order as texts:
/// the end counts as more than each digit.
fn number_of(text: &[u8]) -> u64 {
    let colon = match text.iter().rposition(|byte| *byte == b':') {
        Some(place) => place,
        None => text.len(),
    };
    let mut number = 0_u64;
    for offset in 1..6_usize {
        let digit = match text.get(colon.saturating_add(offset)) {
            Some(byte) => byte.wrapping_sub(b'0').min(10),
            None => 10,
        };
        number = number.wrapping_mul(11).wrapping_add(u64::from(digit));
    }
    number
}
