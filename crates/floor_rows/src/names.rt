//! Names of trust domains and SPIFFE IDs.
use crate::words::print_out;
use row_script::Script;
use spiffe_name::{NameError, SpiffeId, TrustDomain};
use std::alloc::{AllocError, Global};
use std::cmp::Ordering;
use std::collections::{BTreeSet, HashSet};
use std::hash::Hash;

/// Reports the name that the text is, or why it is not one.
pub(crate) fn read_domain(
    alloc: Global,
    script: &Script,
    text: &str,
    answer: &mut String,
) -> Result<(), AllocError> {
    match TrustDomain::read(alloc, text) {
        Ok(domain) => show_line(script, "domain", domain.as_str(), answer),
        Err(error) => print_out(&error, answer),
    }
}

/// Reports the ID that the text is, with its parts, or why it is not one.
pub(crate) fn read_id(
    alloc: Global,
    script: &Script,
    text: &str,
    answer: &mut String,
) -> Result<(), AllocError> {
    match SpiffeId::read(alloc, text) {
        Ok(id) => show_id(script, &id, answer),
        Err(error) => print_out(&error, answer),
    }
}

fn show_id(script: &Script, id: &SpiffeId, answer: &mut String) -> Result<(), AllocError> {
    show_line(script, "id", id.as_str(), answer)?;
    show_line(script, "domain", id.domain().as_str(), answer)?;
    show_line(script, "path", id.path(), answer)
}

fn show_line(
    script: &Script,
    name: &str,
    text: &str,
    answer: &mut String,
) -> Result<(), AllocError> {
    write!(answer, "{name} ")?;
    script.show(text.as_bytes(), answer)?;
    answer.push_str("\n")
}

/// Reports how the first name compares with the second, and which of its copy and the second are
/// found in sets of it.
pub(crate) fn domains_in_sets(
    alloc: Global,
    first: &str,
    second: &str,
    answer: &mut String,
) -> Result<(), AllocError> {
    match TrustDomain::read(alloc, second) {
        Ok(second) => domain_in_sets(alloc, first, &second, answer),
        Err(error) => print_out(&error, answer),
    }
}

fn domain_in_sets(
    alloc: Global,
    first: &str,
    second: &TrustDomain,
    answer: &mut String,
) -> Result<(), AllocError> {
    match TrustDomain::read(alloc, first) {
        Ok(first) => copy_domain_in_sets(alloc, &first, second, answer),
        Err(error) => print_out(&error, answer),
    }
}

fn copy_domain_in_sets(
    alloc: Global,
    first: &TrustDomain,
    second: &TrustDomain,
    answer: &mut String,
) -> Result<(), AllocError> {
    print_order(first, second, answer)?;
    print_ordered(alloc, first.try_clone(alloc)?, first, second, answer)?;
    print_hashed(alloc, first.try_clone(alloc)?, first, second, answer)
}

/// The same for IDs.
pub(crate) fn ids_in_sets(
    alloc: Global,
    first: &str,
    second: &str,
    answer: &mut String,
) -> Result<(), AllocError> {
    match SpiffeId::read(alloc, second) {
        Ok(second) => id_in_sets(alloc, first, &second, answer),
        Err(error) => print_out(&error, answer),
    }
}

fn id_in_sets(
    alloc: Global,
    first: &str,
    second: &SpiffeId,
    answer: &mut String,
) -> Result<(), AllocError> {
    match SpiffeId::read(alloc, first) {
        Ok(first) => copy_id_in_sets(alloc, &first, second, answer),
        Err(error) => print_out(&error, answer),
    }
}

fn copy_id_in_sets(
    alloc: Global,
    first: &SpiffeId,
    second: &SpiffeId,
    answer: &mut String,
) -> Result<(), AllocError> {
    print_order(first, second, answer)?;
    print_copy(alloc, first, answer)?;
    print_ordered(alloc, first.try_clone(alloc)?, first, second, answer)?;
    print_hashed(alloc, first.try_clone(alloc)?, first, second, answer)
}

fn print_copy(alloc: Global, id: &SpiffeId, answer: &mut String) -> Result<(), AllocError> {
    let copy = id.try_clone(alloc)?;
    let path = copy.path();
    write!(answer, "copy's path {path}\n")
}

fn print_order<T: Ord>(first: &T, second: &T, answer: &mut String) -> Result<(), AllocError> {
    answer.push_str(match first.cmp(second) {
        Ordering::Less => "less\n",
        Ordering::Equal => "equal\n",
        Ordering::Greater => "greater\n",
    })
}

fn print_ordered<T: Ord + Drop>(
    alloc: Global,
    copy: T,
    first: &T,
    second: &T,
    answer: &mut String,
) -> Result<(), AllocError> {
    let mut set = BTreeSet::new(alloc);
    set.insert(copy)?;
    print_found("ordered", set.contains(first), set.contains(second), answer)
}

fn print_hashed<T: Hash + Eq + Drop>(
    alloc: Global,
    copy: T,
    first: &T,
    second: &T,
    answer: &mut String,
) -> Result<(), AllocError> {
    let mut set = HashSet::new(alloc);
    set.insert(copy)?;
    print_found("hashed", set.contains(first), set.contains(second), answer)
}

fn print_found(
    set: &str,
    has_first: bool,
    has_second: bool,
    answer: &mut String,
) -> Result<(), AllocError> {
    write!(
        answer,
        "{set} set of its copy: has it {has_first}, has the other {has_second}\n"
    )
}

/// Reports each cause.
pub(crate) fn print_errors(answer: &mut String) -> Result<(), AllocError> {
    for error in [
        NameError::Empty,
        NameError::TooLong,
        NameError::BadScheme,
        NameError::BadDomainByte(9),
        NameError::BadPath(21),
        NameError::NoMemory,
    ] {
        print_out(&error, answer)?;
    }
    Ok(())
}
