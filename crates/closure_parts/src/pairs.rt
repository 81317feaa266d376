//! Different documents of domains in order, each with a count of the nodes that have it and are
//! accepted.
ghost use Rattle.std.specs.Prelude.{◌≡◌, ℕ, ◌+◌, ◌^◌, ◌<◌, ◌≤◌, ◌↔◌, ◌∷◌, ◌++◌, [], length, IsTrue};
ghost use Rattle.std.specs.Prelude.{OnOk};
ghost use Rattle.std.specs.List.{All};
ghost use Rattle.closure_core.specs.Inside.Nodes.{pairs_of, is_raised, flags_of, count_at};
ghost use Rattle.closure_parts.specs.NodeCounts.{nodes_with, AddsNodes};
ghost use Rattle.closure_core.specs.Inside.Flags.{raised_count};
ghost use Rattle.closure_parts.specs.Pairs.{IsDocumentTable, AreRising, PutsFirst};
ghost use Rattle.closure_parts.specs.Pairs.{HasRaised, raised_of};
ghost use Rattle.closure_core.specs.AcceptedList.{document_cmp, document_of};

use crate::document_counts::{clear, lower_all, raise_all};
use bundle_doc::Document;
use closure_core::{Accepted, document_at, domain_at};
use fed_config::Seed;
use receipt_core::Receipt;
use sorted_order::{Agreed, Guess, Order, Probe, guess_text};
use spiffe_name::TrustDomain;
use std::alloc::{AllocError, Global};
use std::cmp::Ordering;
use std::marker::Model;
use wait_index::NodeNo;

/// The documents of domains that the nodes have: each different one once, in their order, by the
/// number of its first node, its head; the head for each node; and for each node a count. The count
/// of a head is how many marked nodes have its document. A document is accepted if its count is not
/// 0.
#[derive(Drop)]
pub struct Pairs {
    order: Order,
    heads: Vec<u32>,
    counts: Vec<u32>,
}

/// What orders documents, apart from their texts: the number of the domain (a configuration has at
/// most 1,024) above the rank. An absent rank counts as 0, and every other one as one more.
fn hint_of(domain: u32, document: &Document) -> u64 {
    let rank = document.rank().map_or(0, |rank| rank.saturating_add(1));
    (u64::from(domain).min(1023) << 54) | short_rank(rank)
}

/// Ranks below this one have 53 bits.
const LONG_RANK: u64 = 1 << 53;

/// The rank in 54 bits, which keep the order of ranks. The last eleven bits of a longer rank are
/// left out.
fn short_rank(rank: u64) -> u64 {
    if rank < LONG_RANK {
        rank
    } else {
        LONG_RANK | (rank >> 11)
    }
}

impl Model for Pairs {
    ghost use Rattle.std.specs.Prelude.{min, vec_capacity};
    ghost use Rattle.closure_parts.specs.Pairs.{DocumentTableView};

    ghost Value = { DocumentTableView };

    ghost view = { λ p. record {
      numbers = p.order.items;
      heads = p.heads.items;
      counts = p.counts.items;
      capacity = min p.order.capacity (min (vec_capacity p.heads) (vec_capacity p.counts));
    } };
}

/// A document of a domain, sought among numbers of nodes.
#[derive(Drop)]
pub(crate) struct SoughtPair<'a> {
    seeds: &'a [Seed],
    receipts: &'a [Receipt],
    domain: &'a TrustDomain,
    document: &'a Document,
    hint: u64,
}

impl<'a> SoughtPair<'a> {
    fn text_of(&self, number: usize) -> Option<&[u8]> {
        match self.seeds.get(number) {
            Some(seed) => Some(seed.document.canonical()),
            None => {
                let receipt = self.receipts.get(number.saturating_sub(self.seeds.len()))?;
                Some(receipt.document().canonical())
            }
        }
    }
}

impl<'a> Guess for SoughtPair<'a> {
    fn hint(&self) -> u64 {
        self.hint
    }

    // Whether the text of the document with this number seems to come before that of this one.
    fn guess(&self, number: u32, agreed: Agreed) -> (bool, usize) {
        match self.text_of(number as usize) {
            Some(text) => {
                let (order, bytes) = guess_text(text, self.document.canonical(), agreed);
                (order.is_lt(), bytes)
            }
            None => (false, 0),
        }
    }
}

impl<'a> Probe for SoughtPair<'a> {
    ghost use Rattle.std.specs.Prelude.{◌<◌, length};
    ghost use Rattle.closure_core.specs.Inside.Nodes.{pairs_of};
    ghost use Rattle.closure_parts.specs.Pairs.{pair_cmp, pair_at};
    ghost use Rattle.closure_core.specs.AcceptedList.{document_of};

    ghost compared = { λ s number. pair_cmp (pair_at (pairs_of s.seeds.now s.receipts.now) number)
        (document_of s.domain.now s.document.now) };

    ghost knows = { λ s number. number < length (pairs_of s.seeds.now s.receipts.now) };

    fn compare(&self, number: u32) -> Ordering {
        match domain_at(self.seeds, self.receipts, number as usize).cmp(self.domain) {
            Ordering::Equal => {
                let document = document_at(self.seeds, self.receipts, number as usize);
                compare_documents(document, self.document)
            }
            unequal => unequal,
        }
    }
}

/// A domain, sought among numbers of nodes.
#[derive(Drop)]
pub(crate) struct SoughtDomain<'a> {
    seeds: &'a [Seed],
    receipts: &'a [Receipt],
    domain: &'a TrustDomain,
}

impl<'a> Probe for SoughtDomain<'a> {
    ghost use Rattle.std.specs.Prelude.{◌<◌, length};
    ghost use Rattle.fed_config.specs.Configuration.{domain_cmp};
    ghost use Rattle.closure_core.specs.Inside.Nodes.{pairs_of};
    ghost use Rattle.closure_parts.specs.Pairs.{pair_at};

    ghost compared = { λ s number. domain_cmp
        (pair_at (pairs_of s.seeds.now s.receipts.now) number).domain s.domain.now };

    ghost knows = { λ s number. number < length (pairs_of s.seeds.now s.receipts.now) };

    fn compare(&self, number: u32) -> Ordering {
        domain_at(self.seeds, self.receipts, number as usize).cmp(self.domain)
    }
}

/// Documents are ordered by rank and then by canonical text, which is read only if the ranks are
/// equal.
fn compare_documents(a: &Document, b: &Document) -> Ordering
    ensures { result ≡ document_cmp a.now b.now }
{
    match a.rank().cmp(&b.rank()) {
        Ordering::Equal => a.canonical().cmp(b.canonical()),
        unequal => unequal,
    }
}

impl Pairs {
    /// No nodes, without room.
    pub fn new(alloc: Global) -> Self
        ensures { result ≡ record { numbers = []; heads = []; counts = []; capacity = 0 } }
    {
        Pairs {
            order: Order::new(alloc),
            heads: Vec::new(alloc),
            counts: Vec::new(alloc),
        }
    }

    /// How many nodes there are.
    pub fn len(&self) -> usize
        ensures { result ≡ length self.now.heads }
    {
        self.heads.len()
    }

    /// Makes room for this many more nodes.
    ///
    /// # Errors
    /// Memory ran out, or there would be 2^32 nodes or more. Only the room may have grown.
    pub fn try_reserve(&mut self, nodes: usize) -> Result<(), AllocError>
        requires counts { length self.old.counts ≡ length self.old.heads }
        requires numbers { length self.old.numbers ≤ length self.old.heads }
        ensures numbers { self.new.numbers ≡ self.old.numbers }
        ensures heads { self.new.heads ≡ self.old.heads }
        ensures counts { self.new.counts ≡ self.old.counts }
        ensures capacity { self.old.capacity ≤ self.new.capacity }
        ensures ok { OnOk result (length self.new.heads + nodes ≤ self.new.capacity) }
        ensures few { OnOk result (length self.new.heads + nodes < 2 ^ 32) }
    {
        let more = (self.heads.len() - self.order.len()).saturating_add(nodes);
        self.order.try_reserve(more)?;
        self.heads.try_reserve(nodes)?;
        self.counts.try_reserve(nodes)?;
        // The proof needs this call: it says that there are few enough.
        let _few = self.order.len();
        Ok(())
    }

    /// Adds the next node, with its document, to those of these nodes. There is room for it. Its
    /// count is 0. `domain_hint` is the number of the domain, only for guesses.
    pub fn add(
        &mut self,
        seeds: &[Seed],
        receipts: &[Receipt],
        domain_hint: u32,
        domain: &TrustDomain,
        document: &Document,
    )
        requires pairing { IsDocumentTable (pairs_of seeds.now receipts.now) self.old }
        requires room { length self.old.heads < self.old.capacity }
        requires few { length self.old.heads < 2 ^ 32 }
        ensures pairing { IsDocumentTable
            (pairs_of seeds.now receipts.now ++ document_of domain.now document.now ∷ []) self.new }
        ensures counts { self.new.counts ≡ self.old.counts ++ 0 ∷ [] }
        ensures heads { (first : ℕ) × (self.new.heads ≡ self.old.heads ++ first ∷ []) }
        ensures capacity { self.new.capacity ≡ self.old.capacity }
    {
        let _form = document.canonical();
        let sought = SoughtPair {
            seeds,
            receipts,
            domain,
            document,
            hint: hint_of(domain_hint, document),
        };
        let number = self.heads.len() as u32;
        let first = first_number(&mut self.order, &sought, number);
        self.heads.push_reserved(first);
        self.counts.push_reserved(0);
    }

    /// Adds one for each of these nodes to the count of its document, and returns how many
    /// documents are accepted now and were not before.
    pub fn raise(&mut self, nodes: &[NodeNo]) -> usize
        requires nodes { All (λ n. n < length self.old.heads) nodes.now }
        requires heads { All (λ f. f < length self.old.counts) self.old.heads }
        requires few { (number : ℕ) → count_at self.old.counts number + length nodes.now < 2 ^ 32 }
        ensures numbers { self.new.numbers ≡ self.old.numbers }
        ensures heads { self.new.heads ≡ self.old.heads }
        ensures adds { AddsNodes self.old.heads nodes.now self.old.counts self.new.counts }
        ensures count { raised_count (flags_of self.new.counts)
            ≡ raised_count (flags_of self.old.counts) + result }
        ensures capacity { self.new.capacity ≡ self.old.capacity }
    {
        raise_all(&mut self.counts, &self.heads, nodes)
    }

    /// Takes one for each of these nodes off the count of its document, and returns how many
    /// documents were accepted and are not now.
    pub fn lower(&mut self, nodes: &[NodeNo]) -> usize
        requires nodes { All (λ n. n < length self.old.heads) nodes.now }
        requires heads { All (λ f. f < length self.old.counts) self.old.heads }
        requires counted { (number : ℕ)
            → nodes_with self.old.heads nodes.now number ≤ count_at self.old.counts number }
        ensures numbers { self.new.numbers ≡ self.old.numbers }
        ensures heads { self.new.heads ≡ self.old.heads }
        ensures takes { AddsNodes self.old.heads nodes.now self.new.counts self.old.counts }
        ensures count { raised_count (flags_of self.old.counts)
            ≡ raised_count (flags_of self.new.counts) + result }
        ensures capacity { self.new.capacity ≡ self.old.capacity }
    {
        lower_all(&mut self.counts, &self.heads, nodes)
    }

    /// Sets all counts to 0, and returns how many documents were accepted.
    pub fn clear(&mut self) -> usize
        ensures numbers { self.new.numbers ≡ self.old.numbers }
        ensures heads { self.new.heads ≡ self.old.heads }
        ensures size { length self.new.counts ≡ length self.old.counts }
        ensures cleared { (number : ℕ) → count_at self.new.counts number ≡ 0 }
        ensures count { result ≡ raised_count (flags_of self.old.counts) }
        ensures capacity { self.new.capacity ≡ self.old.capacity }
    {
        clear(&mut self.counts)
    }

    /// Whether the document is accepted: some marked node has it.
    pub fn is_raised(
        &self,
        seeds: &[Seed],
        receipts: &[Receipt],
        domain: &TrustDomain,
        document: &Document,
    ) -> bool
        requires { IsDocumentTable (pairs_of seeds.now receipts.now) self.now }
        ensures { IsTrue result
            ↔ HasRaised (pairs_of seeds.now receipts.now) self.now
            (document_of domain.now document.now) }
    {
        let _form = document.canonical();
        let sought = SoughtPair {
            seeds,
            receipts,
            domain,
            document,
            // It is not asked for, as nothing is guessed.
            hint: 0,
        };
        match self.order.find(&sought) {
            Ok(place) => flag_at(&self.counts, self.order.get(place) as usize),
            Err(_) => false,
        }
    }

    /// The domain's accepted documents, in order.
    pub fn accepted<'a>(
        &'a self,
        seeds: &'a [Seed],
        receipts: &'a [Receipt],
        domain: &TrustDomain,
    ) -> Accepted<'a>
        requires { IsDocumentTable (pairs_of seeds.now receipts.now) self.now }
        ensures { result ≡ raised_of (pairs_of seeds.now receipts.now) self.now domain.now }
    {
        let sought = SoughtDomain {
            seeds,
            receipts,
            domain,
        };
        Accepted::new(
            self.order.matching(&sought),
            self.counts.as_slice(),
            seeds,
            receipts,
        )
    }
}

/// The first number of what is sought, which is added as `number` if it is not there. There is room
/// for it.
fn first_number(order: &mut Order, sought: &SoughtPair<'_>, number: u32) -> u32
    requires known { All (λ n. n < length (pairs_of sought.now.seeds.now sought.now.receipts.now))
        order.old.items }
    requires rising { AreRising (pairs_of sought.now.seeds.now sought.now.receipts.now)
        order.old.items }
    requires room { length order.old.items < order.old.capacity }
    ensures first { PutsFirst (pairs_of sought.now.seeds.now sought.now.receipts.now)
        (document_of sought.now.domain.now sought.now.document.now) number order.old.items
        order.new.items result }
    ensures capacity { order.new.capacity ≡ order.old.capacity }
{
    match order.find_by_guess(sought) {
        Ok(place) => order.get(place),
        Err(place) => {
            order.insert_with_hint(place, number, sought.hint);
            number
        }
    }
}

fn flag_at(counts: &[u32], number: usize) -> bool
    requires { number < length counts.now }
    ensures { result ≡ is_raised (flags_of counts.now) number }
{
    counts[number] != 0
}
