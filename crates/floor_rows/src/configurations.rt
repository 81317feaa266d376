//! Configurations, and what they answer.
use crate::words::print_out;
use fed_config::{Config, Floor, Relationship, Seed};
use row_script::Answers;
use spiffe_name::TrustDomain;
use std::alloc::{AllocError, Global};

// The most relationships that are shown, the most seeds, and the most floors.
const MOST_TOLD: usize = 3;

/// Reports the configuration that the bytes say, or why they are not one.
pub(crate) fn read(alloc: Global, bytes: &[u8], answer: &mut String) -> Result<(), AllocError> {
    match Config::read(alloc, bytes) {
        Ok(config) => print_config(alloc, &config, answer),
        Err(error) => print_out(&error, answer),
    }
}

fn print_config(alloc: Global, config: &Config, answer: &mut String) -> Result<(), AllocError> {
    let mut answers = Answers::new(alloc);
    add(alloc, "as read", config, &mut answers)?;
    add_copy(alloc, config, &mut answers)?;
    answers.write(answer)
}

fn add_copy(alloc: Global, config: &Config, answers: &mut Answers) -> Result<(), AllocError> {
    let copy = config.try_clone(alloc)?;
    add(alloc, "copied", &copy, answers)
}

fn add(
    alloc: Global,
    setting: &str,
    config: &Config,
    answers: &mut Answers,
) -> Result<(), AllocError> {
    let mut stated = String::new(alloc);
    print_counts(config, &mut stated)?;
    print_first(config, &mut stated)?;
    answers.add(setting, stated.as_str())
}

fn print_counts(config: &Config, stated: &mut String) -> Result<(), AllocError> {
    let digest = config.digest();
    let domains = config.domains().len();
    let relationships = config.relationships().len();
    let seeds = config.seeds().len();
    write!(stated, "id {digest}\ndomains {domains}\n")?;
    write!(stated, "relationships {relationships}\nseeds {seeds}\n")
}

// The first relationships, the first seeds and the first floors.
fn print_first(config: &Config, stated: &mut String) -> Result<(), AllocError> {
    for relationship in config.relationships().iter().take(MOST_TOLD) {
        print_relationship(relationship, stated)?;
    }
    for seed in config.seeds().iter().take(MOST_TOLD) {
        print_seed(seed, stated)?;
    }
    for floor in config.floors().iter().take(MOST_TOLD) {
        print_floor(floor, stated)?;
    }
    Ok(())
}

fn print_floor(floor: &Floor, stated: &mut String) -> Result<(), AllocError> {
    let domain = floor.domain.as_str();
    let sequence = floor.sequence;
    write!(stated, "floor {domain} {sequence}\n")
}

fn print_relationship(relationship: &Relationship, stated: &mut String) -> Result<(), AllocError> {
    let domain = relationship.domain.as_str();
    let endpoint = relationship.endpoint.as_str();
    let url = relationship.url.as_str();
    write!(stated, "relationship {domain} {endpoint} {url}\n")
}

fn print_seed(seed: &Seed, stated: &mut String) -> Result<(), AllocError> {
    let domain = seed.domain.as_str();
    let id = seed.document.id(&seed.domain);
    write!(stated, "seed {domain} {id}\n")
}

/// Reports the domain's place in the configuration, and the relationship with it.
pub(crate) fn look_up(
    alloc: Global,
    domain: &str,
    bytes: &[u8],
    answer: &mut String,
) -> Result<(), AllocError> {
    match Config::read(alloc, bytes) {
        Ok(config) => look_up_name(alloc, &config, domain, answer),
        Err(error) => print_out(&error, answer),
    }
}

fn look_up_name(
    alloc: Global,
    config: &Config,
    domain: &str,
    answer: &mut String,
) -> Result<(), AllocError> {
    match TrustDomain::read(alloc, domain) {
        Ok(domain) => look_up_in_copy(alloc, config, &domain, answer),
        Err(error) => print_out(&error, answer),
    }
}

fn look_up_in_copy(
    alloc: Global,
    config: &Config,
    domain: &TrustDomain,
    answer: &mut String,
) -> Result<(), AllocError> {
    let copy = config.try_clone(alloc)?;
    print_place(copy.domain_no(domain), answer)?;
    match copy.relationship(domain) {
        Some(relationship) => print_relationship(relationship, answer),
        None => answer.push_str("no relationship\n"),
    }
}

fn print_place(place: Option<usize>, answer: &mut String) -> Result<(), AllocError> {
    match place {
        Some(place) => write!(answer, "domain number {place}\n"),
        None => answer.push_str("no domain of it\n"),
    }
}

/// Reports the floor of the domain in the configuration.
pub(crate) fn look_up_floor(
    alloc: Global,
    domain: &str,
    bytes: &[u8],
    answer: &mut String,
) -> Result<(), AllocError> {
    match Config::read(alloc, bytes) {
        Ok(config) => look_up_floor_of(alloc, &config, domain, answer),
        Err(error) => print_out(&error, answer),
    }
}

fn look_up_floor_of(
    alloc: Global,
    config: &Config,
    domain: &str,
    answer: &mut String,
) -> Result<(), AllocError> {
    let copy = config.try_clone(alloc)?;
    match TrustDomain::read(alloc, domain) {
        Ok(domain) => print_sequence(copy.floor(&domain), answer),
        Err(error) => print_out(&error, answer),
    }
}

fn print_sequence(floor: Option<u64>, answer: &mut String) -> Result<(), AllocError> {
    match floor {
        Some(sequence) => write!(answer, "floor {sequence}\n"),
        None => answer.push_str("no floor\n"),
    }
}
