//! daa_judge: comparing over a source in memory, and a sheet.

use daa_io::{Failed, MemSource, Sink};
use daa_judge::{Found, Matching, NoMemory, Sheet};
use std::alloc::{AllocError, Global};
use std::error::Error;
use std::process::Abort;
use std::test::Fail;

/// What is found of these bytes, handed out in pieces of this size, if the report is two texts and
/// `most` bytes may be read.
fn find_in<R: AllocGlobal>(
    rt: &R,
    bytes: &[u8],
    size: usize,
    fails: &[u64],
    texts: [&[u8]; 2],
    most: u64,
) -> Result<Found, Fail> {
    if most >= 1 << 40 {
        return Err("a limit below 2^40".into());
    }
    let alloc = rt.alloc();
    let sizes = [size; 16];
    let mut source = MemSource::new(
        bytes.to_vec(alloc)?,
        sizes.to_vec(alloc)?,
        fails.to_vec(alloc)?,
    );
    let mut matching = Matching::new(most);
    let found = matching.compare(&mut source, texts[0]);
    if found != Found::Alike {
        return Ok(found);
    }
    let found = matching.compare(&mut source, texts[1]);
    if found != Found::Alike {
        return Ok(found);
    }
    Ok(matching.end(&mut source))
}

/// Bytes, a call that fails, how many bytes may be read, and what is found beside `a\nb` and `c\n`.
static CASES: [(&[u8], u64, u64, Found); 12] = [
    (b"a\nbc\n", 99, 9, Found::Alike),
    (b"a\nbc\n", 99, 5, Found::Alike),
    (b"a\nbc\n", 99, 4, Found::Limit),
    (b"a\nbc\n\n", 99, 5, Found::Limit),
    (b"a\nbc\n\n", 99, 6, Found::Differs(3)),
    (b"a\nbx\n", 99, 9, Found::Differs(2)),
    (b"a\nbx\n", 99, 4, Found::Differs(2)),
    (b"a\nbx\n", 99, 3, Found::Limit),
    (b"a\nb", 99, 3, Found::Differs(2)),
    (b"", 99, 9, Found::Differs(1)),
    (b"a\nbc\n", 0, 9, Found::Fault),
    (b"x", 1, 9, Found::Differs(1)),
];

#[test]
fn what_is_found(rt: HostRuntime) -> Result<(), Fail> {
    for (bytes, fail, most, what) in &CASES {
        for size in [1, 2, 9] {
            let one = find_in(&rt, bytes, size, &[*fail], [b"a\nb", b"c\n"], *most)?;
            assert!(rt; one == *what, "{size}");
        }
    }
    Ok(())
}

#[test]
fn a_sheet_takes_what_it_has_room_for(rt: HostRuntime) -> Result<(), Fail> {
    let mut sheet = Sheet::new(rt.alloc()).map_err(|_| "memory")?;
    let piece = [7u8; 65536];
    assert_eq!(rt; sheet.write(&piece), Ok(65536));
    assert_eq!(rt; sheet.write(&piece), Ok(64641));
    assert_eq!(rt; sheet.write(&piece), Err(Failed));
    assert_eq!(rt; sheet.text().len(), 130177);
    sheet.clear();
    assert_eq!(rt; sheet.write(b"x"), Ok(1));
    assert_eq!(rt; sheet.text(), b"x".as_slice());
    Ok(())
}

/// The sentence of an error, as a caller prints it.
fn sentence_of<E: Error>(alloc: Global, error: E) -> Result<String, AllocError> {
    format!(in alloc; "{error}")
}

#[test]
fn the_fault_has_a_sentence(rt: HostRuntime) -> Result<(), Fail> {
    let sentence = sentence_of(rt.alloc(), NoMemory)?;
    assert_eq!(rt; sentence.as_str(), "there was no memory for a sheet");
    Ok(())
}

fn may_be_sent<T: Send>() {}

// The check refuses a type that may not be sent between threads.
#[test]
fn values_may_be_sent() {
    may_be_sent::<Matching>();
    may_be_sent::<Sheet>();
    may_be_sent::<Found>();
    may_be_sent::<NoMemory>();
}
