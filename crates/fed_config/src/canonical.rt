//! The canonical text of a configuration. A configuration keeps only the text's digest.
ghost use Rattle.std.specs.Prelude.{◌≡◌, ◌++◌, false, IfOk, OnOk, map};
ghost use Rattle.json.specs.Print.{quoted};
ghost use Rattle.serde_json.specs.View.{items_of, view};
ghost use Rattle.serde_json.specs.Written.{comma_if, has_float, items_text, members_text};
ghost use Rattle.sha2.specs.Sha256.{sha256};
ghost use Rattle.fed_config.specs.Configuration.{config_text, config_id_of, relationship_tree};
ghost use Rattle.fed_config.specs.Configuration.{floor_members, seed_tree};
ghost use Rattle.fed_config.specs.Limits.{usual_limits};
ghost use Rattle.fed_config.specs.Inside.FloorsText.{floors_text};
ghost use Rattle.serde_json.specs.Written.{compact_text};

use crate::config_id::ConfigId;
use crate::floor::Floor;
use crate::relationship::Relationship;
use crate::seed::Seed;
use serde_json::Value;
use sha2::{Digest, Sha256};
use std::alloc::{AllocError, Global};

/// The id of these relationships, seeds and floors.
pub(crate) fn id_of(
    alloc: Global,
    relationships: &[Relationship],
    seeds: &[Seed],
    floors: &[Floor],
) -> Result<ConfigId, AllocError>
    ensures { IfOk result (λ id. id.0 ≡ config_id_of (record {
      relationships = relationships.now;
      seeds = seeds.now;
      floors = floors.now;
      limits = usual_limits;
    })) }
{
    let text = canonical_config(alloc, relationships, seeds, floors)?;
    Ok(ConfigId(digest_of(text.as_slice())))
}

fn digest_of(text: &[u8]) -> [u8; 32]
    ensures { result ≡ sha256 text.now }
{
    let mut hasher = Sha256::new();
    hasher.update(text);
    hasher.finalize()
}

/// The canonical text of a configuration with these relationships, seeds and floors, in the order
/// in which they are given. All have to be as [`Config`](crate::Config) lends them, each list
/// sorted and without a repeat, each floor of one of the domains, and no seed below the floor of
/// its domain; then [`Config::read`](crate::Config::read) reads the text as that configuration, if
/// its numbers of relationships, seeds and domains are within the limits.
///
/// Without floors the text is that of the relationships and seeds: it has no member for floors.
///
/// # Errors
/// Memory ran out.
pub fn canonical_config(
    alloc: Global,
    relationships: &[Relationship],
    seeds: &[Seed],
    floors: &[Floor],
) -> Result<Vec<u8>, AllocError>
    ensures { IfOk result (λ v. v.items ≡ config_text (record {
      relationships = relationships.now;
      seeds = seeds.now;
      floors = floors.now;
      limits = usual_limits;
    })) }
{
    let mut out = Vec::new(alloc);
    out.extend_from_slice(b"{")?;
    write_floors(alloc, &mut out, floors)?;
    out.extend_from_slice(b"\"relationships\":[")?;
    write_relationships(alloc, &mut out, relationships)?;
    out.extend_from_slice(b",\"seeds\":[")?;
    write_seeds(alloc, &mut out, seeds)?;
    out.extend_from_slice(b"}")?;
    Ok(out)
}

/// Writes the member for the floors and the comma after it, if there are floors.
fn write_floors(alloc: Global, out: &mut Vec<u8>, floors: &[Floor]) -> Result<(), AllocError>
    ensures { OnOk result (out.new.items ≡ out.old.items ++ floors_text floors.now) }
{
    if floors.is_empty() {
        return Ok(());
    }
    out.extend_from_slice(b"\"floors\":{")?;
    write_each_floor(alloc, out, floors)?;
    out.extend_from_slice(b",")?;
    Ok(())
}

/// Writes the floors, and the bracket after them.
fn write_each_floor(alloc: Global, out: &mut Vec<u8>, floors: &[Floor]) -> Result<(), AllocError>
    ensures { OnOk result (out.new.items
        ≡ out.old.items ++ members_text false (floor_members floors.now)) }
{
    let mut later = false;
    for floor in floors {
        write_comma(out, later)?;
        write_text(alloc, out, floor.domain.as_str())?;
        out.push(b':')?;
        write_value(alloc, out, &Value::from(floor.sequence))?;
        later = true;
    }
    out.push(b'}')?;
    Ok(())
}

/// Writes the relationships, and the bracket after them.
fn write_relationships(
    alloc: Global,
    out: &mut Vec<u8>,
    relationships: &[Relationship],
) -> Result<(), AllocError>
    ensures { OnOk result (out.new.items
        ≡ out.old.items ++ items_text false (items_of (map relationship_tree relationships.now))) }
{
    let mut later = false;
    for relationship in relationships {
        write_comma(out, later)?;
        write_relationship(alloc, out, relationship)?;
        later = true;
    }
    out.push(b']')?;
    Ok(())
}

/// Writes the seeds, and the bracket after them.
fn write_seeds(alloc: Global, out: &mut Vec<u8>, seeds: &[Seed]) -> Result<(), AllocError>
    ensures { OnOk result (out.new.items
        ≡ out.old.items ++ items_text false (items_of (map seed_tree seeds.now))) }
{
    let mut later = false;
    for seed in seeds {
        write_comma(out, later)?;
        write_seed(alloc, out, seed)?;
        later = true;
    }
    out.push(b']')?;
    Ok(())
}

fn write_comma(out: &mut Vec<u8>, later: bool) -> Result<(), AllocError>
    ensures { OnOk result (out.new.items ≡ out.old.items ++ comma_if later) }
{
    if later {
        out.push(b',')?;
    }
    Ok(())
}

fn write_relationship(
    alloc: Global,
    out: &mut Vec<u8>,
    relationship: &Relationship,
) -> Result<(), AllocError>
    ensures { OnOk result (out.new.items
        ≡ out.old.items ++ compact_text (relationship_tree relationship.now)) }
{
    out.extend_from_slice(b"{\"domain\":")?;
    write_text(alloc, out, relationship.domain.as_str())?;
    out.extend_from_slice(b",\"endpoint\":")?;
    write_text(alloc, out, relationship.endpoint.as_str())?;
    out.extend_from_slice(b",\"profile\":\"https_spiffe\",\"url\":")?;
    write_text(alloc, out, relationship.url.as_str())?;
    out.extend_from_slice(b"}")?;
    Ok(())
}

fn write_seed(alloc: Global, out: &mut Vec<u8>, seed: &Seed) -> Result<(), AllocError>
    ensures { OnOk result (out.new.items ≡ out.old.items ++ compact_text (seed_tree seed.now)) }
{
    out.extend_from_slice(b"{\"bundle\":")?;
    out.extend_from_slice(seed.document.canonical())?;
    out.extend_from_slice(b",\"domain\":")?;
    write_text(alloc, out, seed.domain.as_str())?;
    out.extend_from_slice(b"}")?;
    Ok(())
}

/// Writes a JSON string.
fn write_text(alloc: Global, out: &mut Vec<u8>, text: &str) -> Result<(), AllocError>
    ensures { OnOk result (out.new.items ≡ out.old.items ++ quoted text.now) }
{
    write_value(alloc, out, &Value::String(String::from_str(alloc, text)?))
}

/// Writes a value that has no float.
fn write_value(alloc: Global, out: &mut Vec<u8>, value: &Value) -> Result<(), AllocError>
    requires { has_float (view value.now) ≡ false }
    ensures { OnOk result (out.new.items ≡ out.old.items ++ compact_text (view value.now)) }
{
    let text = value.to_vec(alloc)?;
    out.extend_from_slice(text.as_slice())?;
    Ok(())
}
