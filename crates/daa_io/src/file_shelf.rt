//! A shelf over files.

ghost use Rattle.std.specs.Prelude.{◌≡◌, ◌≢◌, ◌≤◌, ◌<◌, ◌↔◌, length, IfOk, IfSome};
ghost use Rattle.std.specs.IoError.{error_kind};
ghost use Rattle.daa_io.specs.Shelf.{longest_text};

use crate::faults::count_up;
use crate::shelf::{FetchFault, LONGEST_TEXT, Shelf};
use std::alloc::Global;
use std::io::{ErrorKind, Read};
use std::rt::Files;
use std::{fs, io};

/// The files of the system, each under its path. It shows nothing of what they hold.
#[derive(Drop)]
pub struct FileShelf<R> {
    files: R,
    faults: u64,
}

impl<R: Files> FileShelf<R> {
    ghost use Rattle.std.specs.Prelude.{◌≡◌};
    ghost use Rattle.daa_io.specs.FileShelf.{faults_of};

    /// A shelf over the files that this runtime reaches. Each error of opening or reading is a
    /// fault, except lack of memory while a file is read.
    pub fn new(files: R) -> Self
        ensures { faults_of result ≡ 0 }
    {
        FileShelf { files, faults: 0 }
    }
}

impl<R: Files> Shelf for FileShelf<R> {
    ghost use Rattle.std.specs.Prelude.{◌≡◌, ◌≢◌, ◌≤◌, None, length, IfOk};
    ghost use Rattle.daa_io.specs.Faults.{HasRisen, one_more};
    ghost use Rattle.daa_io.specs.Shelf.{longest_text};
    ghost use Rattle.daa_io.specs.FileShelf.{faults_of};

    ghost texts = { λ _. None };

    ghost faults = { faults_of };

    /// Reads at most one byte more than the longest text has.
    fn fetch(&mut self, alloc: Global, name: &str) -> Result<Vec<u8>, FetchFault>
        ensures short { IfOk result (λ text. length text.items ≤ longest_text) }
        ensures risen { result ≡ Err FetchFault.Failed
            → HasRisen (faults_of self.old) (faults_of self.new) }
        ensures never_falls { faults_of self.old ≤ faults_of self.new }

        ensures no_fault { result ≢ Err FetchFault.Failed
            → faults_of self.new ≡ faults_of self.old }
        ensures one_fault { result ≡ Err FetchFault.Failed
            → faults_of self.new ≡ one_more (faults_of self.old) }
    {
        let answer = match fs::open(&self.files, name) {
            Ok(file) => text_of(alloc, file),
            Err(_) => Err(FetchFault::Failed),
        };
        if let Err(FetchFault::Failed) = answer {
            self.faults = count_up(self.faults);
        }
        answer
    }
}

/// All that the reader returns, unless that is longer than a text may be.
pub(crate) fn text_of<R: Read + Drop>(alloc: Global, reader: R) -> Result<Vec<u8>, FetchFault>
    ensures held { IfSome (R.remaining reader) (λ bytes. IfOk result (λ text. text.items ≡ bytes)) }
    ensures short { IfOk result (λ text. length text.items ≤ longest_text) }
    ensures too_long { IfSome (R.remaining reader) (λ bytes.
        result ≡ Err FetchFault.TooLong → longest_text < length bytes) }
{
    let mut text = Vec::new(alloc);
    let read = reader.take(LONGEST_TEXT as u64 + 1).read_to_end(&mut text);
    if let Err(error) = read {
        return Err(fault_of(&error));
    }
    if text.len() > LONGEST_TEXT {
        return Err(FetchFault::TooLong);
    }
    Ok(text)
}

/// Lack of memory, as the system reports it, is no fault of the shelf.
fn fault_of(error: &io::Error) -> FetchFault
    ensures memory { (result ≡ FetchFault.NoMemory)
        ↔ (error_kind error.now ≡ ErrorKind.OutOfMemory) }
    ensures short { result ≢ FetchFault.TooLong }
{
    match error.kind() {
        ErrorKind::OutOfMemory => FetchFault::NoMemory,
        _ => FetchFault::Failed,
    }
}
