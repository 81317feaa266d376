//! Names, URLs, profiles and bundles that are refused.
ghost use Rattle.std.specs.Prelude.{◌≡◌, ◌≢◌, ◌↔◌, IsTrue, IfSome, codes};
ghost use Rattle.serde_json.specs.View.{view};
ghost use Rattle.jwk_set.specs.Element.{HasText};
ghost use Rattle.bundle_doc.specs.Refusal.{RefusesTree};
ghost use Rattle.fault_view.specs.Flaws.{HasDomainOf, HasFlaw, IsFlawOf, cause_of_flaw};

use crate::flaws::Flaw;
use crate::place::FlawPlace;
use crate::shape_flaws::text_of;
use crate::url_flaws::url_flaw;
use bundle_doc::{DocError, Document};
use fed_config::ConfigError;
use serde_json::Value;
use spiffe_name::{NameError, SpiffeId, TrustDomain};
use std::alloc::Global;

/// How many relationships are compared with those before them.
const MOST_COMPARED: usize = 1_024;

/// A `domain` or an `endpoint` that is not a name.
pub(crate) fn name_flaw<'a>(alloc: Global, part: &'a Value, place: FlawPlace) -> Option<Flaw<'a>>
    ensures { IfSome result (IsFlawOf ConfigError.BadName place (view part.now)) }
{
    if let Some(flaw) = domain_flaw(alloc, part, place) {
        return Some(flaw);
    }
    endpoint_flaw(alloc, part, place)
}

fn domain_flaw<'a>(alloc: Global, part: &'a Value, _place: FlawPlace) -> Option<Flaw<'a>>
    ensures { IfSome result (IsFlawOf ConfigError.BadName _place (view part.now)) }
{
    let text = text_of(part, "domain")?;
    match TrustDomain::read(alloc, text) {
        Ok(_) | Err(NameError::NoMemory) => None,
        Err(why) => Some(Flaw::BadDomain(text, why)),
    }
}

fn endpoint_flaw<'a>(alloc: Global, part: &'a Value, _place: FlawPlace) -> Option<Flaw<'a>>
    ensures { IfSome result (IsFlawOf ConfigError.BadName _place (view part.now)) }
{
    let text = text_of(part, "endpoint")?;
    match SpiffeId::read(alloc, text) {
        Ok(_) | Err(NameError::NoMemory) => None,
        Err(why) => Some(Flaw::BadEndpoint(text, why)),
    }
}

/// A `url` that is not that of an endpoint.
pub(crate) fn bad_url<'a>(alloc: Global, part: &'a Value, _place: FlawPlace) -> Option<Flaw<'a>>
    ensures { IfSome result (IsFlawOf ConfigError.BadUrl _place (view part.now)) }
{
    let why = url_flaw(alloc, text_of(part, "url")?)?;
    Some(Flaw::BadUrl(why))
}

/// A `profile` that is not `https_spiffe`.
pub(crate) fn profile_flaw<'a>(part: &'a Value, _place: FlawPlace) -> Option<Flaw<'a>>
    ensures { IfSome result (IsFlawOf ConfigError.BadProfile _place (view part.now)) }
{
    let text = text_of(part, "profile")?;
    if text == "https_spiffe" {
        return None;
    }
    Some(Flaw::OtherProfile(text))
}

/// A `domain` that an earlier relationship has.
pub(crate) fn double_flaw<'a>(config: &'a Value, part: &'a Value, number: usize) -> Option<Flaw<'a>>
    ensures flaw { IfSome result
        (HasFlaw (view config.now) (FlawPlace.Relationship number) (view part.now)) }
    ensures cause { IfSome result (λ f. cause_of_flaw f ≡ ConfigError.DoubleRelationship) }
{
    let text = text_of(part, "domain")?;
    'earlier: for earlier in 0..number.min(MOST_COMPARED) {
        if has_domain_of(config, earlier, text) {
            return Some(Flaw::SameDomain(text, earlier));
        }
    }
    None
}

fn has_domain_of(config: &Value, number: usize, text: &str) -> bool
    ensures { IsTrue result → HasDomainOf (view config.now) number text.now }
{
    match FlawPlace::Relationship(number).part_in(config) {
        Some(part) => has_domain(part, text),
        None => false,
    }
}

fn has_domain(part: &Value, text: &str) -> bool
    ensures { IsTrue result → HasText (view part.now) (codes "domain") text.now }
{
    match text_of(part, "domain") {
        Some(domain) => domain == text,
        None => false,
    }
}

/// A `bundle` that is not a bundle.
pub(crate) fn bundle_flaw<'a>(alloc: Global, part: &'a Value, _place: FlawPlace) -> Option<Flaw<'a>>
    ensures { IfSome result (IsFlawOf ConfigError.BadSeed _place (view part.now)) }
{
    let why = refusal_of(alloc, part.get("bundle")?)?;
    Some(Flaw::BadBundle(why))
}

fn refusal_of(alloc: Global, bundle: &Value) -> Option<DocError>
    ensures cause { IfSome result (RefusesTree (view bundle.now)) }
    ensures known { IfSome result (λ why. why ≢ DocError.NoMemory) }
{
    match Document::from_value(alloc, bundle) {
        Ok(_) | Err(DocError::NoMemory) => None,
        Err(why) => Some(why),
    }
}
