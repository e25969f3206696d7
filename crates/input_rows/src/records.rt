//! The records of a file's bytes, one at a time.

ghost use Rattle.std.specs.Prelude.{◌≡◌, ◌<◌, length, slice_get, Some, None, Ok, true, false, IfOk, IfSome, OnErr, IsErr};
ghost use Rattle.csv.specs.Reading.{records, default_config, strip_bom};
ghost use Rattle.csv.specs.Records.{fields_of};
ghost use Rattle.input_rows.specs.RecordsLeft.{IsPlain, Reads, Takes};

use csv::{ByteRecord, Reader, ReaderBuilder};
use std::alloc::Global;
use std::marker::Model;
use vcp_base::Memory;

/// The records that are left of a text, which are not known after want of memory, and whether their
/// end was given.
pub struct Records<'a> {
    reader: Reader<&'a [u8]>,
    ended: bool,
    failed: bool,
}

impl<'a> Model for Records<'a> {
    ghost use Rattle.std.specs.Prelude.{◌≡◌, None, Some, [], false, if◌then◌else◌};
    ghost use Rattle.csv.specs.Reading.{reader_state};
    ghost use Rattle.input_rows.specs.RecordsLeft.{RecordsLeft, left_of, text_left, IsPlain};

    ghost Value = { RecordsLeft };

    ghost view = { λ r. record {
      left = if r.ended then Some [] else (if r.failed then None else Some (left_of (reader_state r.reader) (text_left r.reader)));
      ended = r.ended;
    } };

    ghost invariant = { λ r. r.failed ≡ false → r.ended ≡ false → IsPlain r.reader };
}

// Written out, so that the reader's parts are given up here alone, and not wherever records go out of scope.
impl Drop for Records<'_> {
    fn drop(self) {
        let Records {
            reader: _,
            ended: _,
            failed: _,
        } = self;
    }
}

// Reads a record, unless memory runs out. A text in memory has no other error.
fn read(reader: &mut Reader<&[u8]>, cells: &mut ByteRecord) -> Option<bool>
    ensures { IfSome result (λ found. IsPlain reader.old → Reads reader.old reader.new (fields_of cells.new) found) }
{
    reader.read_byte_record(cells).ok()
}

impl<'a> Records<'a> {
    /// The records of a text, without the byte order mark at its front.
    pub fn new(alloc: Global, text: &'a [u8]) -> Records<'a>
        ensures { result ≡ record { left = Some (records default_config (strip_bom text.now)); ended = false } }
    {
        let reader = ReaderBuilder::new()
            .has_headers(false)
            .flexible(true)
            .from_reader(alloc, text);
        Records {
            reader,
            ended: false,
            failed: false,
        }
    }

    /// Reads the next record, and answers whether there was one. After the end, and after `Memory`, each
    /// later call gives the same again and changes nothing. The records are those that `csv` gives, to their
    /// end; want of memory is the only refusal.
    pub fn next(&mut self, cells: &mut ByteRecord) -> Result<bool, Memory>
        ensures reads { IfOk result (λ found. Takes self.old.left self.new.left (fields_of cells.new) found) }
        ensures end { IfOk result (λ found. found ≡ false → self.new.ended ≡ true) }
        ensures err { OnErr result (self.new.left ≡ None) }
        ensures again { self.old.ended ≡ true → (result ≡ Ok false) × (self.new ≡ self.old) × (cells.new ≡ cells.old) }
        ensures failed_again { self.old.left ≡ None → (IsErr result) × (self.new ≡ self.old) × (cells.new ≡ cells.old) }
    {
        if self.ended {
            return Ok(false);
        }
        if self.failed {
            return Err(Memory);
        }
        match read(&mut self.reader, cells) {
            Some(found) => {
                self.ended = !found;
                Ok(found)
            }
            None => {
                self.failed = true;
                Err(Memory)
            }
        }
    }
}

/// The field of a record at place `j`, counted from 0, where `j` is less than the number of fields.
pub fn field(cells: &ByteRecord, j: usize) -> &[u8]
    requires { j < length (fields_of cells.now) }
    ensures { slice_get (fields_of cells.now) j ≡ Some result.now }
{
    match cells.get(j) {
        Some(field) => field,
        None => unreachable!(),
    }
}
