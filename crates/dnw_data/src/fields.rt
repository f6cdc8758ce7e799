//! The fields of the data of a record, one after another.
ghost use Rattle.std.specs.Prelude.{◌≡◌, ◌≤◌, drop, length};
ghost use Rattle.std.specs.Iterator.{at_most};
ghost use Rattle.dnw_base.specs.DnsClasses.{class_code};
ghost use Rattle.dnw_base.specs.RecordTypes.{type_code};
ghost use Rattle.dnw_data.specs.Table.{fields_of};
ghost use Rattle.dnw_data.specs.Walks.{NextField, IsEnded, fields_at, steps_left};

use crate::field::Field;
use crate::kind::Kind;
use crate::table;
use dnw_base::decoder::BinDecoder;
use dnw_base::dns_class::DNSClass;
use dnw_base::error::DecodeError;
use dnw_base::record_type::RecordType;
use std::marker::Model;
use thiserror::Error;

/// Why the data of a record are not the fields of its type.
#[derive(Debug, Drop, Error)]
#[error("field {field}: {cause}")]
pub struct FieldError {
    /// The number of the field, from 0. If octets are left after the last field, it is the number of all fields.
    pub field: usize,
    /// Why there is no such field.
    pub cause: DecodeError,
}

/// An iterator over the fields of the data of a record. Nothing is copied, and nothing here allocates.
///
/// Each item is a field, or the first error, after which nothing follows. The fields are those of the table, and they end
/// where the data do if no error comes.
///
/// A contract sees it as the kinds of the fields that are left, and where the reader is.
#[derive(Drop)]
pub struct Fields<'r> {
    // The message up to the end of the data.
    reader: BinDecoder<'r>,
    // Where the data start.
    start: usize,
    // The kinds of the fields that are left, and how many there were.
    kinds: &'static [Kind],
    count: usize,
}

impl<'r> Model for Fields<'r> {
    ghost use Rattle.std.specs.Prelude.{◌≤◌, length};
    ghost use Rattle.dnw_data.specs.Walks.{FieldsLeft};

    ghost Value = { FieldsLeft };

    ghost view = { λ f. record { reader = f.reader; start = f.start; kinds = f.kinds.now; count = f.count } };

    ghost invariant = { λ f. (f.start ≤ f.reader.index) × (length f.kinds.now ≤ f.count) };
}

impl<'r> Fields<'r> {
    /// Creates an iterator over the fields of data of this class and type, which start at `start` and end where `message`
    /// does. Names in the data may point to what is before.
    #[inline(always)]
    pub fn new(message: &'r [u8], start: usize, class: DNSClass, record_type: RecordType) -> Self
        requires { start ≤ length message.now }
        ensures { result ≡ fields_at message.now start
            (fields_of (class_code class) (type_code record_type) (drop start message.now)) }
    {
        let mut reader = BinDecoder::new(message);
        reader.skip(start).unwrap();
        let kinds = table::fields_of(class, record_type, &message[start..]);
        Fields {
            reader,
            start,
            kinds,
            count: kinds.len(),
        }
    }

    /// Ends the fields: nothing is left.
    fn end(&mut self)
        ensures { IsEnded self.new }
    {
        self.kinds = &[];
        let left = self.reader.len();
        self.reader.skip(left).unwrap();
    }
}

impl<'r> Iterator for Fields<'r> {
    type Item = Result<Field<'r>, FieldError>;

    ghost next_gives = { NextField };

    ghost remaining = { λ left. at_most (steps_left left) };

    #[inline(always)]
    fn next(&mut self) -> Option<Result<Field<'r>, FieldError>> {
        let field = self.count - self.kinds.len();
        let Some((kind, others)) = self.kinds.split_first() else {
            if self.reader.is_empty() {
                return None;
            }
            let cause = DecodeError::IncorrectRDataLengthRead {
                read: self.reader.index() - self.start,
                len: self.reader.message().len() - self.start,
            };
            self.end();
            return Some(Err(FieldError { field, cause }));
        };
        match Field::read(*kind, &mut self.reader) {
            Ok(read) => {
                self.kinds = others;
                Some(Ok(read))
            }
            Err(cause) => {
                self.end();
                Some(Err(FieldError { field, cause }))
            }
        }
    }
}
