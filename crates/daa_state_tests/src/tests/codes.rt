//! daa_config: the number and the sentence of each fault. Texts and their faults are among the
//! cases of `tests/cases`.

use daa_config::ConfigFault;
use std::alloc::{AllocError, Global};
use std::error::Error;
use std::test::Fail;

/// A fault and its code.
static CODES: [(ConfigFault, Option<u8>); 3] = [
    (ConfigFault::TooLong, Some(1)),
    (ConfigFault::TooMany, Some(8)),
    (ConfigFault::NoMemory, None),
];

#[test]
fn codes_of_faults(rt: HostRuntime) {
    for (fault, code) in CODES {
        assert!(rt; fault.code() == code);
    }
}

/// The sentence of an error, as a caller prints it.
fn sentence_of<E: Error>(alloc: Global, error: E) -> Result<String, AllocError> {
    format!(in alloc; "{error}")
}

static SENTENCES: [(ConfigFault, &str); 9] = [
    (
        ConfigFault::TooLong,
        "fault 1: the text is longer than 65536 bytes",
    ),
    (
        ConfigFault::NotToml,
        "fault 2: the text is no TOML document",
    ),
    (ConfigFault::UnknownKey, "fault 3: a key is unknown"),
    (ConfigFault::MissingKey, "fault 4: a key is missing"),
    (
        ConfigFault::NotNumber,
        "fault 5: a value is no whole number, or no table",
    ),
    (
        ConfigFault::OutOfRange,
        "fault 6: a number is out of its range",
    ),
    (
        ConfigFault::Levels,
        "fault 7: there is no level, there are too many, or `resolve` is above them",
    ),
    (
        ConfigFault::TooMany,
        "fault 8: a kind has too many candidates",
    ),
    (ConfigFault::NoMemory, "memory ran out"),
];

#[test]
fn each_fault_has_a_sentence(rt: HostRuntime) -> Result<(), Fail> {
    for (fault, wanted) in SENTENCES {
        let sentence = sentence_of(rt.alloc(), fault)?;
        assert!(rt; sentence.as_str() == wanted, "{sentence}");
    }
    Ok(())
}
