//! The records of a zone, as they are shown.

use crate::base::{Refusal, Sink, Watch};
use crate::zones::checked::findings_of;
use crate::zones::kept::{InOrder, Kept, Place};
use crate::zones::source::Generating;
use dns_names_wire::binary::BinDecodable;
use dns_names_wire::data_text::record_text;
use dns_names_wire::record::RecordRef;
use dns_names_wire::zone::{Context, append_origin, append_short_record, append_ttl};
use std::alloc::Global;

/// How records are shown.
#[derive(Clone, Copy, PartialEq, Eq)]
pub(crate) enum Form {
    /// Each as a line with nothing left out.
    Lines,
    /// As a zone file, in which what is known is left out.
    Relative,
    /// Each as a line of the hexadecimal digits of its wire form.
    Wire,
    /// Not at all, but what they are found to have.
    Findings,
    /// Not at all.
    Nothing,
}

/// What of a zone is asked for.
#[derive(Clone, Copy)]
pub(crate) struct Wanted {
    /// How records are shown.
    pub(crate) form: Form,
    /// Whether they are put in canonical order.
    pub(crate) is_sorted: bool,
    /// The time to live of records for which the file states none.
    pub(crate) ttl: Option<u32>,
    /// How many records a `$GENERATE` may stand for, or 0 if it is an error.
    pub(crate) generate_limit: u32,
}

impl Wanted {
    /// How `$GENERATE` is read, before the first one.
    pub(crate) fn generating(&self) -> Generating {
        Generating {
            limit: self.generate_limit,
            next: None,
        }
    }
}

/// The records of a zone, shown, or kept until all are there.
#[derive(Drop)]
pub(crate) struct Listed {
    printed: Printed,
    are_kept: bool,
    kept: Kept,
}

impl Listed {
    /// Creates a list without records, of a zone of this origin.
    pub(crate) fn new(alloc: Global, wanted: Wanted, context: Context) -> Self {
        Listed {
            printed: Printed {
                form: wanted.form,
                context,
                has_begun: false,
            },
            are_kept: wanted.is_sorted || matches!(wanted.form, Form::Findings | Form::Nothing),
            kept: Kept::new(alloc),
        }
    }

    /// Returns whether records are kept until all are there.
    pub(crate) fn are_kept(&self) -> bool {
        self.are_kept
    }

    /// Shows or keeps the record that has this wire form, and is at this place.
    pub(crate) fn add<O: Sink>(
        &mut self,
        alloc: Global,
        wire: &[u8],
        place: Place,
        out: &mut O,
    ) -> Result<(), Refusal> {
        if self.are_kept {
            self.kept.add(alloc, wire, place)
        } else {
            self.printed.show(alloc, wire, out)
        }
    }

    /// Returns the records that were kept.
    pub(crate) fn into_kept(self) -> Kept {
        self.kept
    }

    /// Shows the records that were kept, in canonical order, or what they are found to have.
    pub(crate) fn finish<O: Sink, P: Watch>(
        mut self,
        alloc: Global,
        files: &[String],
        out: &mut O,
        watch: &mut P,
    ) -> Result<(), Refusal> {
        if self.kept.len() > 0 {
            watch.begins("sorting", self.kept.len());
        }
        let records = self.kept.in_order(alloc)?;
        if self.printed.form == Form::Findings {
            watch.begins("checking", records.order().len());
            let found = findings_of(alloc, &self.printed.context.origin, &records, files)?;
            watch.ends();
            return found.put(out);
        }
        watch.ends();
        self.printed.show_all(alloc, &records, out)
    }
}

/// How records are printed.
#[derive(Drop)]
struct Printed {
    form: Form,
    /// What a reader of a zone file knows after what is printed.
    context: Context,
    /// Whether a record is printed.
    has_begun: bool,
}

impl Printed {
    /// Shows records.
    fn show_all<O: Sink>(
        &mut self,
        alloc: Global,
        records: &InOrder,
        out: &mut O,
    ) -> Result<(), Refusal> {
        for number in records.order() {
            self.show(alloc, records.wire(*number), out)?;
        }
        Ok(())
    }

    /// Shows the record that has this wire form.
    fn show<O: Sink>(&mut self, alloc: Global, wire: &[u8], out: &mut O) -> Result<(), Refusal> {
        let record = RecordRef::from_bytes(alloc, wire)?;
        match self.form {
            Form::Lines => out.put_line(record_text(alloc, &record)?.as_str()),
            Form::Relative => self.show_relative(alloc, &record, out),
            Form::Wire => out.put_line(hex::encode(alloc, wire)?.as_str()),
            Form::Findings | Form::Nothing => Ok(()),
        }
    }

    /// Shows a record of a zone file, after what is before the first.
    fn show_relative<O: Sink>(
        &mut self,
        alloc: Global,
        record: &RecordRef<'_>,
        out: &mut O,
    ) -> Result<(), Refusal> {
        let mut lines = Vec::new(alloc);
        if !self.has_begun {
            self.has_begun = true;
            self.begin(alloc, record.ttl(), &mut lines)?;
        }
        append_short_record(alloc, &mut self.context, record, &mut lines)?;
        out.put(lines.as_slice())
    }

    /// Appends what is before the first record of a zone file: the origin, and the time to live of that record.
    fn begin(&mut self, alloc: Global, ttl: u32, lines: &mut Vec<u8>) -> Result<(), Refusal> {
        let origin = self.context.origin.copied();
        append_origin(alloc, &mut self.context, &origin, lines)?;
        append_ttl(alloc, &mut self.context, ttl, lines)?;
        Ok(())
    }
}
