//! How causes print.
use crate::names;
use crate::words::print_out;
use bundle_doc::DocError;
use fed_config::ConfigError;
use std::alloc::AllocError;
use std::fmt::Display;

/// Reports each cause of each crate.
pub(crate) fn report_all(answer: &mut String) -> Result<(), AllocError> {
    names::print_errors(answer)?;
    print_each(
        &[
            DocError::TooLong,
            DocError::NotJson,
            DocError::NotObject,
            DocError::NoKeys,
            DocError::BadSequence,
            DocError::BadRefreshHint,
            DocError::CanonicalTooLong,
            DocError::NoMemory,
        ],
        answer,
    )?;
    print_configurations(answer)
}

fn print_configurations(answer: &mut String) -> Result<(), AllocError> {
    print_each(
        &[
            ConfigError::NotJson,
            ConfigError::Shape,
            ConfigError::BadName,
            ConfigError::BadUrl,
            ConfigError::BadProfile,
            ConfigError::DoubleRelationship,
            ConfigError::BadSeed,
            ConfigError::TooMany,
            ConfigError::NoMemory,
        ],
        answer,
    )
}

fn print_each<E: Display>(errors: &[E], answer: &mut String) -> Result<(), AllocError> {
    for error in errors {
        print_out(error, answer)?;
    }
    Ok(())
}
