//! A configuration as compact JSON.
ghost use Rattle.std.specs.Prelude.{◌≡◌, ◌++◌, ◌||◌, map, true, Err, IfOk, OnOk};
ghost use Rattle.byte_lines.specs.Device.{is_source_fault};
ghost use Rattle.byte_lines.specs.declared.error.DeviceError.TheVariants.{Io, NoMemory};
ghost use Rattle.config_view.specs.ConfigJson.{IsConfigJson, floor_json, floors_part, name_json};
ghost use Rattle.config_view.specs.ConfigJson.{relationship_json, relationships_part, seed_json};
ghost use Rattle.config_view.specs.ConfigJson.{seeds_part};
ghost use Rattle.text_lines.specs.TextLines.{BeginsSome, WritesSome};

use byte_lines::{DeviceError, Sink, write_all};
use fed_config::{Config, ConfigId, Floor, Relationship, Seed};
use json_text::{push_array, push_digest, push_optional, push_string};
use spiffe_name::TrustDomain;
use std::alloc::{AllocError, Global};
use text_lines::TextLine;

/// Writes what the configuration says as a compact JSON object, whose members are in this order,
/// and a line feed:
///
/// | Member | What it has |
/// |---|---|
/// | `config` | the configuration's digest |
/// | `relationships` | `domain`, `endpoint` and `url` of each relationship |
/// | `domains` | the names of the trust domains that it speaks of |
/// | `seeds` | `domain`, `document` and `sequence` of each seed: the id of its document, and the
/// sequence number, which is `null` if it is absent |
/// | `floors` | `domain` and `sequence` of each floor; the member is absent if there is no floor |
///
/// Each list is sorted, so equal configurations have one text. All memory is taken before the first
/// byte is written.
///
/// # Errors
/// - [`DeviceError::Io`]: the sink failed, and holds a beginning of the text.
/// - [`DeviceError::NoMemory`]: memory ran out. Nothing was written.
pub fn write_config_json<W: Sink>(
    alloc: Global,
    config: &Config,
    sink: &mut W,
) -> Result<(), DeviceError>
    ensures ok { OnOk result
        (WritesSome (IsConfigJson config.now) (W.contents sink.old) (W.contents sink.new)) }
    ensures io { result ≡ Err Io → (W.has_failed sink.new ≡ true)
        × BeginsSome (IsConfigJson config.now) (W.contents sink.old) (W.contents sink.new) }
    ensures memory { result ≡ Err NoMemory → sink.new ≡ sink.old }
    ensures fault { W.has_failed sink.new ≡ (is_source_fault result || W.has_failed sink.old) }
{
    let text = config_json(alloc, config)?;
    write_all(sink, text.as_slice())?;
    Ok(())
}

fn config_json(alloc: Global, config: &Config) -> Result<Vec<u8>, AllocError>
    ensures { IfOk result (λ text. IsConfigJson config.now text.items) }
{
    let relationships = relationship_texts(alloc, config.relationships())?;
    let domains = name_texts(alloc, config.domains())?;
    let seeds = seed_texts(alloc, config.seeds())?;
    let floors = floor_texts(alloc, config.floors())?;
    let mut out = Vec::new(alloc);
    push_relationships_part(&mut out, &config.digest(), relationships.as_slice())?;
    push_seeds_part(
        &mut out,
        domains.as_slice(),
        seeds.as_slice(),
        floors.as_slice(),
    )?;
    Ok(out)
}

#[tactic(auto, unfolding(crate::specs::ConfigJson::relationships_part))]
fn push_relationships_part(
    out: &mut Vec<u8>,
    digest: &ConfigId,
    relationships: &[TextLine],
) -> Result<(), AllocError>
    ensures { OnOk result (out.new.items
        ≡ out.old.items ++ relationships_part digest.now.0 relationships.now) }
{
    push_digest(out, b"{\"config\":", &digest.0)?;
    push_array(out, b",\"relationships\":", relationships)
}

#[tactic(auto, unfolding(crate::specs::ConfigJson::seeds_part))]
fn push_seeds_part(
    out: &mut Vec<u8>,
    domains: &[TextLine],
    seeds: &[TextLine],
    floors: &[TextLine],
) -> Result<(), AllocError>
    ensures { OnOk result (out.new.items
        ≡ out.old.items ++ seeds_part domains.now seeds.now floors.now) }
{
    push_array(out, b",\"domains\":", domains)?;
    push_array(out, b",\"seeds\":", seeds)?;
    push_floors(out, floors)?;
    out.extend_from_slice(b"}\n")?;
    Ok(())
}

fn push_floors(out: &mut Vec<u8>, floors: &[TextLine]) -> Result<(), AllocError>
    ensures { OnOk result (out.new.items ≡ out.old.items ++ floors_part floors.now) }
{
    if floors.is_empty() {
        return Ok(());
    }
    push_array(out, b",\"floors\":", floors)
}

fn relationship_texts(
    alloc: Global,
    relationships: &[Relationship],
) -> Result<Vec<TextLine>, AllocError>
    ensures { IfOk result (λ texts. texts.items ≡ map relationship_json relationships.now) }
{
    let mut texts = Vec::new(alloc);
    for relationship in relationships {
        texts.push(relationship_json(alloc, relationship)?)?;
    }
    Ok(texts)
}

fn relationship_json(alloc: Global, relationship: &Relationship) -> Result<TextLine, AllocError>
    ensures { IfOk result (λ text. text ≡ relationship_json relationship.now) }
{
    let mut text = Vec::new(alloc);
    push_string(
        alloc,
        &mut text,
        b"{\"domain\":",
        relationship.domain.as_str(),
    )?;
    push_string(
        alloc,
        &mut text,
        b",\"endpoint\":",
        relationship.endpoint.as_str(),
    )?;
    push_string(alloc, &mut text, b",\"url\":", relationship.url.as_str())?;
    text.extend_from_slice(b"}")?;
    Ok(TextLine::new(text))
}

fn name_texts(alloc: Global, domains: &[TrustDomain]) -> Result<Vec<TextLine>, AllocError>
    ensures { IfOk result (λ texts. texts.items ≡ map name_json domains.now) }
{
    let mut texts = Vec::new(alloc);
    for domain in domains {
        texts.push(name_json(alloc, domain)?)?;
    }
    Ok(texts)
}

fn name_json(alloc: Global, domain: &TrustDomain) -> Result<TextLine, AllocError>
    ensures { IfOk result (λ text. text ≡ name_json domain.now) }
{
    let mut text = Vec::new(alloc);
    push_string(alloc, &mut text, b"", domain.as_str())?;
    Ok(TextLine::new(text))
}

fn seed_texts(alloc: Global, seeds: &[Seed]) -> Result<Vec<TextLine>, AllocError>
    ensures { IfOk result (λ texts. texts.items ≡ map seed_json seeds.now) }
{
    let mut texts = Vec::new(alloc);
    for seed in seeds {
        texts.push(seed_json(alloc, seed)?)?;
    }
    Ok(texts)
}

fn seed_json(alloc: Global, seed: &Seed) -> Result<TextLine, AllocError>
    ensures { IfOk result (λ text. text ≡ seed_json seed.now) }
{
    let mut text = Vec::new(alloc);
    push_string(alloc, &mut text, b"{\"domain\":", seed.domain.as_str())?;
    push_digest(
        &mut text,
        b",\"document\":",
        &seed.document.id(&seed.domain).0,
    )?;
    push_optional(&mut text, b",\"sequence\":", seed.document.rank())?;
    text.extend_from_slice(b"}")?;
    Ok(TextLine::new(text))
}

fn floor_texts(alloc: Global, floors: &[Floor]) -> Result<Vec<TextLine>, AllocError>
    ensures { IfOk result (λ texts. texts.items ≡ map floor_json floors.now) }
{
    let mut texts = Vec::new(alloc);
    for floor in floors {
        texts.push(floor_json(alloc, floor)?)?;
    }
    Ok(texts)
}

fn floor_json(alloc: Global, floor: &Floor) -> Result<TextLine, AllocError>
    ensures { IfOk result (λ text. text ≡ floor_json floor.now) }
{
    let mut text = Vec::new(alloc);
    push_string(alloc, &mut text, b"{\"domain\":", floor.domain.as_str())?;
    push_optional(&mut text, b",\"sequence\":", Some(floor.sequence))?;
    text.extend_from_slice(b"}")?;
    Ok(TextLine::new(text))
}
