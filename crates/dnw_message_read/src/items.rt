//! The items of a section, one after another.
ghost use Rattle.std.specs.Prelude.{◌≡◌, Some, length};
ghost use Rattle.std.specs.Iterator.{UpTo, YieldsFirst, at_most, item_count};
ghost use Rattle.dnw_message_read.specs.Messages.{question_rest, record_rest};
ghost use Rattle.dnw_message_read.specs.Inside.Kept.{AreLeft, queries_in, records_in};

use crate::query::QueryRef;
use dnw_base::decoder::BinDecoder;
use dnw_record::record_ref::RecordRef;
use std::marker::Model;

/// An iterator over the questions of a message.
///
/// A contract sees it as the list of the questions that are left.
#[derive(Drop)]
pub struct Queries<'m> {
    reader: BinDecoder<'m>,
    left: u16,
}

impl<'m> Model for Queries<'m> {
    ghost use Rattle.std.specs.Prelude.{List};
    ghost use Rattle.dnw_message_read.specs.Messages.{QueryValue, question_rest};
    ghost use Rattle.dnw_message_read.specs.Inside.Kept.{AreLeft, queries_in};

    ghost Value = { List QueryValue };

    ghost view = { λ it. queries_in it.reader.bytes it.reader.index it.left };

    ghost invariant = { λ it. AreLeft question_rest it.reader.bytes it.reader.index it.left };
}

impl<'m> Queries<'m> {
    /// Creates an iterator over the questions at the cursor, `left` of them.
    pub(crate) fn new(reader: BinDecoder<'m>, left: u16) -> Self
        requires { AreLeft question_rest reader.bytes reader.index left }
        ensures { result ≡ queries_in reader.entry.bytes reader.entry.index left }
    {
        Queries { reader, left }
    }
}

impl<'m> Iterator for Queries<'m> {
    type Item = QueryRef<'m>;

    ghost next_gives = { YieldsFirst (λ queries. queries) };

    ghost remaining = { item_count (λ queries. queries) };

    fn next(&mut self) -> Option<QueryRef<'m>> {
        if self.left == 0 {
            return None;
        }
        self.left -= 1;
        Some(QueryRef::read_next(&mut self.reader).unwrap())
    }
}

/// An iterator over the records of a section.
///
/// A contract sees it as the list of the records that are left.
#[derive(Drop)]
pub struct Records<'m> {
    reader: BinDecoder<'m>,
    left: u16,
}

impl<'m> Model for Records<'m> {
    ghost use Rattle.std.specs.Prelude.{List};
    ghost use Rattle.dnw_record.specs.Records.{RecordValue};
    ghost use Rattle.dnw_message_read.specs.Messages.{record_rest};
    ghost use Rattle.dnw_message_read.specs.Inside.Kept.{AreLeft, records_in};

    ghost Value = { List RecordValue };

    ghost view = { λ it. records_in it.reader.bytes it.reader.index it.left };

    ghost invariant = { λ it. AreLeft record_rest it.reader.bytes it.reader.index it.left };
}

impl<'m> Records<'m> {
    /// Creates an iterator over the records at the cursor, `left` of them.
    pub(crate) fn new(reader: BinDecoder<'m>, left: u16) -> Self
        requires { AreLeft record_rest reader.bytes reader.index left }
        ensures { result ≡ records_in reader.entry.bytes reader.entry.index left }
    {
        Records { reader, left }
    }
}

impl<'m> Iterator for Records<'m> {
    type Item = RecordRef<'m>;

    ghost next_gives = { YieldsFirst (λ records. records) };

    ghost remaining = { item_count (λ records. records) };

    // Inlined, since LLVM takes a large result that is returned through memory apart, octet by octet.
    #[inline(always)]
    fn next(&mut self) -> Option<RecordRef<'m>> {
        if self.left == 0 {
            return None;
        }
        self.left -= 1;
        Some(RecordRef::read_next(&mut self.reader).unwrap())
    }
}
