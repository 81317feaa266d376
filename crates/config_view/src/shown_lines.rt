//! The lines of a configuration.
ghost use Rattle.std.specs.Prelude.{◌≡◌, ◌++◌, map, IfOk, OnOk};
ghost use Rattle.config_view.specs.ConfigText.{AreConfigLines, config_line, domain_line};
ghost use Rattle.config_view.specs.ConfigText.{floor_line, relationship_line, seed_line};

use byte_lines::{push_digits, push_number};
use fed_config::{Config, Floor, Relationship, Seed};
use spiffe_name::TrustDomain;
use std::alloc::{AllocError, Global};
use text_lines::{TextLine, push_number_or_none};

/// The lines of the configuration: its digest, its relationships, its domains, its seeds and its
/// floors.
pub(crate) fn config_lines(alloc: Global, config: &Config) -> Result<Vec<TextLine>, AllocError>
    ensures { IfOk result (λ lines. AreConfigLines config.now lines.items) }
{
    let mut lines = Vec::new(alloc);
    lines.push(config_line(alloc, config)?)?;
    push_relationships(alloc, &mut lines, config.relationships())?;
    push_domains(alloc, &mut lines, config.domains())?;
    push_seeds(alloc, &mut lines, config.seeds())?;
    push_floors(alloc, &mut lines, config.floors())?;
    Ok(lines)
}

fn config_line(alloc: Global, config: &Config) -> Result<TextLine, AllocError>
    ensures { IfOk result (λ line. line ≡ config_line config.now) }
{
    let mut line = Vec::from_slice(alloc, b"config ")?;
    push_digits(&mut line, &config.digest().0)?;
    Ok(TextLine::new(line))
}

fn push_relationships(
    alloc: Global,
    lines: &mut Vec<TextLine>,
    relationships: &[Relationship],
) -> Result<(), AllocError>
    ensures { OnOk result (lines.new.items
        ≡ lines.old.items ++ map relationship_line relationships.now) }
{
    for relationship in relationships {
        lines.push(relationship_line(alloc, relationship)?)?;
    }
    Ok(())
}

fn relationship_line(alloc: Global, relationship: &Relationship) -> Result<TextLine, AllocError>
    ensures { IfOk result (λ line. line ≡ relationship_line relationship.now) }
{
    let mut line = Vec::from_slice(alloc, b"relationship ")?;
    line.extend_from_slice(relationship.domain.as_str().as_bytes())?;
    line.extend_from_slice(b" endpoint ")?;
    line.extend_from_slice(relationship.endpoint.as_str().as_bytes())?;
    line.extend_from_slice(b" url ")?;
    line.extend_from_slice(relationship.url.as_str().as_bytes())?;
    Ok(TextLine::new(line))
}

fn push_domains(
    alloc: Global,
    lines: &mut Vec<TextLine>,
    domains: &[TrustDomain],
) -> Result<(), AllocError>
    ensures { OnOk result (lines.new.items ≡ lines.old.items ++ map domain_line domains.now) }
{
    for domain in domains {
        lines.push(domain_line(alloc, domain)?)?;
    }
    Ok(())
}

fn domain_line(alloc: Global, domain: &TrustDomain) -> Result<TextLine, AllocError>
    ensures { IfOk result (λ line. line ≡ domain_line domain.now) }
{
    let mut line = Vec::from_slice(alloc, b"domain ")?;
    line.extend_from_slice(domain.as_str().as_bytes())?;
    Ok(TextLine::new(line))
}

fn push_seeds(alloc: Global, lines: &mut Vec<TextLine>, seeds: &[Seed]) -> Result<(), AllocError>
    ensures { OnOk result (lines.new.items ≡ lines.old.items ++ map seed_line seeds.now) }
{
    for seed in seeds {
        lines.push(seed_line(alloc, seed)?)?;
    }
    Ok(())
}

fn seed_line(alloc: Global, seed: &Seed) -> Result<TextLine, AllocError>
    ensures { IfOk result (λ line. line ≡ seed_line seed.now) }
{
    let mut line = Vec::from_slice(alloc, b"seed ")?;
    line.extend_from_slice(seed.domain.as_str().as_bytes())?;
    line.extend_from_slice(b" document ")?;
    push_digits(&mut line, &seed.document.id(&seed.domain).0)?;
    line.extend_from_slice(b" sequence ")?;
    push_number_or_none(&mut line, seed.document.rank())?;
    Ok(TextLine::new(line))
}

fn push_floors(alloc: Global, lines: &mut Vec<TextLine>, floors: &[Floor]) -> Result<(), AllocError>
    ensures { OnOk result (lines.new.items ≡ lines.old.items ++ map floor_line floors.now) }
{
    for floor in floors {
        lines.push(floor_line(alloc, floor)?)?;
    }
    Ok(())
}

fn floor_line(alloc: Global, floor: &Floor) -> Result<TextLine, AllocError>
    ensures { IfOk result (λ line. line ≡ floor_line floor.now) }
{
    let mut line = Vec::from_slice(alloc, b"floor ")?;
    line.extend_from_slice(floor.domain.as_str().as_bytes())?;
    line.extend_from_slice(b" sequence ")?;
    push_number(&mut line, floor.sequence)?;
    Ok(TextLine::new(line))
}
