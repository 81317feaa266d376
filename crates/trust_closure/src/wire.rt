//! The nodes of receipts and of configured documents in an index.
ghost use Rattle.std.specs.Prelude.{◌≡◌, ℕ, ◌+◌, ◌<◌, ◌≤◌, ◌↔◌, ◌++◌, ◌∷◌, [], false, List, None};
ghost use Rattle.std.specs.Prelude.{Some, length, take, IsTrue, OnOk, slice_get};
ghost use Rattle.std.specs.List.{All};
ghost use Rattle.fed_config.specs.Configuration.{HasDomain, AreDomains};
ghost use Rattle.wait_index.specs.Net.{ListsReached, has_wait};
ghost use Rattle.trust_closure.specs.Inside.NodeSpecs.{NodeSpec};
ghost use Rattle.receipt_core.specs.declared.triple.Triple.{Triple};
ghost use Rattle.receipt_core.specs.Receipt.{pair_of, offers_of};
ghost use Rattle.receipt_core.specs.Acceptance.{IsFitting};
ghost use Rattle.trust_closure.specs.Inside.NetOf.{IsLabelOf, IsLabelIndexOf, Widens, receipt_node};

use closure_parts::Held;
use fed_config::Config;
use label_index::{Label, LabelIndex};
use receipt_core::{Receipt, Triple};
use spiffe_name::TrustDomain;
use wait_index::NodeNo;

/// Adds the node of a receipt, which awaits what the receipt needs and offers what it offers. There
/// is room for it.
pub(crate) fn add_receipt(label_index: &mut LabelIndex, held: &Held, receipt: &Receipt)
    requires fits { IsFitting held.now.config receipt.now }
    requires nodes { 0 < label_index.old.nodes }
    requires edges { length (offers_of (pair_of receipt.now)) < label_index.old.edges }
    ensures wired { (domains : List (List ℕ)) (spots : List (NodeSpec Triple))
        → AreDomains held.now.config domains
        → IsLabelIndexOf domains held.now.records spots label_index.old
        → IsLabelIndexOf domains held.now.records (spots ++ receipt_node receipt.now ∷ [])
        label_index.new }
    ensures reached { ListsReached label_index.new.net label_index.new.marked }
    ensures front { take (length label_index.old.marked) label_index.new.marked
        ≡ label_index.old.marked }
    ensures nodes { label_index.old.nodes ≡ label_index.new.nodes + 1 }
    ensures edges { label_index.old.edges
        ≤ label_index.new.edges + (length (offers_of (pair_of receipt.now)) + 1) }
{
    let node = label_index.add_node();
    await_triple(label_index, held, node, receipt.need());
    offer_triples(label_index, held, node, receipt.offers());
}

/// The node, which is the last, awaits the triple from now on. It awaited none.
fn await_triple(label_index: &mut LabelIndex, held: &Held, node: NodeNo, triple: &Triple)
    requires domain { HasDomain held.now.config triple.now.domain }
    requires room { 0 < label_index.old.edges }
    requires node { node < length label_index.old.net.roots }
    requires once { has_wait label_index.old.net node ≡ false }
    ensures wired { (domains : List (List ℕ)) (spots : List (NodeSpec Triple))
        (spot : NodeSpec Triple)
        → AreDomains held.now.config domains
        → node ≡ length spots → spot.awaits ≡ None
        → IsLabelIndexOf domains held.now.records (spots ++ spot ∷ []) label_index.old
        → IsLabelIndexOf domains held.now.records
        (spots ++ record spot { awaits = Some triple.now } ∷ []) label_index.new }
    ensures widens { Widens 1 label_index.old label_index.new }
    ensures reached { ListsReached label_index.new.net label_index.new.marked }
{
    let label = label_of(held.config(), triple);
    let distrusted = held.is_distrusted(triple.domain(), triple.key());
    label_index.add_wait(node, label, distrusted);
}

/// The node, which is the last, offers the triples, in turn, from now on.
pub(crate) fn offer_triples(
    label_index: &mut LabelIndex,
    held: &Held,
    node: NodeNo,
    triples: &[Triple],
)
    requires domains { All (λ t. HasDomain held.now.config t.domain) triples.now }
    requires room { length triples.now ≤ label_index.old.edges }
    requires node { node < length label_index.old.net.roots }
    requires reached { ListsReached label_index.old.net label_index.old.marked }
    ensures wired { (domains : List (List ℕ)) (spots : List (NodeSpec Triple))
        (spot : NodeSpec Triple)
        → AreDomains held.now.config domains
        → node ≡ length spots
        → IsLabelIndexOf domains held.now.records (spots ++ spot ∷ []) label_index.old
        → IsLabelIndexOf domains held.now.records
        (spots ++ record spot { offers = spot.offers ++ triples.now } ∷ []) label_index.new }
    ensures widens { Widens (length triples.now) label_index.old label_index.new }
    ensures reached { ListsReached label_index.new.net label_index.new.marked }
{
    for triple in triples {
        offer_triple(label_index, held, node, triple);
    }
}

/// The node, which is the last, offers the triple from now on.
fn offer_triple(label_index: &mut LabelIndex, held: &Held, node: NodeNo, triple: &Triple)
    requires domain { HasDomain held.now.config triple.now.domain }
    requires room { 0 < label_index.old.edges }
    requires node { node < length label_index.old.net.roots }
    ensures wired { (domains : List (List ℕ)) (spots : List (NodeSpec Triple))
        (spot : NodeSpec Triple)
        → AreDomains held.now.config domains
        → node ≡ length spots
        → IsLabelIndexOf domains held.now.records (spots ++ spot ∷ []) label_index.old
        → IsLabelIndexOf domains held.now.records
        (spots ++ record spot { offers = spot.offers ++ triple.now ∷ [] } ∷ []) label_index.new }
    ensures widens { Widens 1 label_index.old label_index.new }
    ensures reached { ListsReached label_index.new.net label_index.new.marked }
{
    let label = label_of(held.config(), triple);
    let distrusted = held.is_distrusted(triple.domain(), triple.key());
    label_index.add_offer(node, label, distrusted);
}

/// The label of the triple.
fn label_of(config: &Config, triple: &Triple) -> Label
    requires { HasDomain config.now triple.now.domain }
    ensures { IsLabelOf config.now triple.now result }
{
    Label {
        domain: domain_number(config, triple.domain()),
        document: triple.document(),
        key: triple.key(),
    }
}

/// The number of a domain of the configuration.
pub(crate) fn domain_number(config: &Config, domain: &TrustDomain) -> u32
    requires { HasDomain config.now domain.now }
    ensures { (domains : List (List ℕ)) → AreDomains config.now domains
        → slice_get domains result ≡ Some domain.now }
{
    let _domains = config.domains();
    match config.domain_no(domain) {
        Some(number) => number as u32,
        None => 0,
    }
}
