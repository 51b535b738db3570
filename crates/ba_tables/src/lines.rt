//! A CSV text, record by record.
ghost use Rattle.std.specs.Prelude.{◌≡◌, [], ◌∷◌, IfOk, OnErr, true, false};
ghost use Rattle.csv.specs.Reading.{default_config, records, strip_bom};
ghost use Rattle.csv.specs.Records.{fields_of};

use csv::{ByteRecord, Reader, ReaderBuilder};
use std::alloc::{AllocError, Global};
use std::marker::Model;

/// A CSV text, of which a contract sees the records that are left.
#[derive(Drop)]
pub struct Lines<'a> {
    reader: Reader<&'a [u8]>,
    ended: bool,
}

impl<'a> Model for Lines<'a> {
    ghost use Rattle.std.specs.Prelude.{List, ℕ};
    ghost use Rattle.std.specs.Prelude.{◌≡◌, [], false, if◌then◌else◌};
    ghost use Rattle.ba_tables.specs.Left.{IsReading, records_left};

    ghost Value = { List (List (List ℕ)) };

    ghost view = { λ it. if it.ended then [] else records_left it.reader };

    ghost invariant = { λ it. it.ended ≡ false → IsReading it.reader };
}

impl<'a> Lines<'a> {
    /// All records of a text: commas, double quotes, records of any width.
    pub fn new(alloc: Global, bytes: &'a [u8]) -> Lines<'a>
        ensures { result ≡ records default_config (strip_bom bytes.now) }
    {
        let reader = ReaderBuilder::new()
            .has_headers(false)
            .flexible(true)
            .from_reader(alloc, bytes);
        Lines {
            reader,
            ended: false,
        }
    }

    /// Reads the next record into `line`, and says whether there was one. After an error there is none.
    pub fn next(&mut self, line: &mut ByteRecord) -> Result<bool, AllocError>
        ensures read { IfOk result (λ found. found ≡ true
            → self.old ≡ fields_of line.new ∷ self.new) }
        ensures ended { IfOk result (λ found. found ≡ false → self.old ≡ []) }
        ensures err { OnErr result (self.new ≡ []) }
    {
        if self.ended {
            return Ok(false);
        }
        self.ended = true;
        let Ok(found) = self.reader.read_byte_record(line) else {
            return Err(AllocError);
        };
        self.ended = !found;
        Ok(found)
    }
}
