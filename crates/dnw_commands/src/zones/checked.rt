//! What a zone is found to have, as compilers show it.

use crate::base::{Refusal, Sink};
use crate::zones::kept::InOrder;
use dns_names_wire::binary::BinDecodable;
use dns_names_wire::name::Name;
use dns_names_wire::record::RecordRef;
use dns_names_wire::zone::{Finding, check_zone};
use std::alloc::Global;

/// A line of a finding, after how many records came before the one that it is about, and how many findings were before it.
type Line = (Option<usize>, usize, String);

/// What a zone is found to have, as lines.
#[derive(Drop)]
pub(crate) struct Findings {
    text: String,
    /// Whether one of them is an error.
    has_errors: bool,
}

impl Findings {
    /// Shows the lines. If one of them is an error, the zone is rejected.
    pub(crate) fn put<O: Sink>(&self, out: &mut O) -> Result<(), Refusal> {
        if self.has_errors {
            out.reject();
        }
        out.put_line(self.text.as_str())
    }
}

/// Returns what a zone is found to have, as a line for each finding, in the order in which the records came, and after these how much
/// it is.
pub(crate) fn findings_of(
    alloc: Global,
    zone: &Name,
    kept: &InOrder,
    files: &[String],
) -> Result<Findings, Refusal> {
    let records = records_of(alloc, kept)?;
    let found = check_zone(alloc, zone, records.as_slice())?;
    let checked = Checked {
        kept,
        files,
        records: records.as_slice(),
    };
    Ok(Findings {
        text: checked.text(alloc, found.as_slice())?,
        has_errors: errors_of(found.as_slice()) != 0,
    })
}

/// Returns the records in canonical order.
fn records_of(alloc: Global, kept: &InOrder) -> Result<Vec<RecordRef<'_>>, Refusal> {
    let mut records = Vec::with_capacity(alloc, kept.order().len())?;
    for number in kept.order() {
        records.push(RecordRef::from_bytes(alloc, kept.wire(*number))?)?;
    }
    Ok(records)
}

/// Returns how many findings are errors.
fn errors_of(found: &[Finding]) -> usize {
    let mut errors = 0usize;
    for one in found {
        if one.check.is_error() {
            errors = errors.saturating_add(1);
        }
    }
    errors
}

/// The records of a zone that was checked, and the files that they came from.
#[derive(Clone, Copy)]
struct Checked<'a, 'r> {
    kept: &'a InOrder,
    files: &'a [String],
    /// The records in canonical order.
    records: &'a [RecordRef<'r>],
}

impl Checked<'_, '_> {
    /// Returns a line for each finding, and the line that says how much it is.
    fn text(&self, alloc: Global, found: &[Finding]) -> Result<String, Refusal> {
        let mut text = String::new(alloc);
        for (_, _, line) in &self.lines(alloc, found)? {
            writeln!(text, "{line}")?;
        }
        self.put_counts(found, &mut text)?;
        Ok(text)
    }

    /// Returns a line for each finding, in the order in which the records came.
    fn lines(&self, alloc: Global, found: &[Finding]) -> Result<Vec<Line>, Refusal> {
        let mut lines = Vec::with_capacity(alloc, found.len())?;
        for one in found {
            let line = self.line(alloc, one)?;
            lines.push((self.before(one.number), lines.len(), line))?;
        }
        lines.sort_unstable();
        Ok(lines)
    }

    /// Appends how many records there are, and how many findings.
    fn put_counts(&self, found: &[Finding], text: &mut String) -> Result<(), Refusal> {
        let errors = errors_of(found);
        let warnings = found.len().saturating_sub(errors);
        let records = self.records.len();
        text.push_str(self.first_file())?;
        write!(
            text,
            ": {records} records, {errors} errors, {warnings} warnings"
        )?;
        Ok(())
    }

    /// Returns the line of a finding.
    fn line(&self, alloc: Global, one: &Finding) -> Result<String, Refusal> {
        let mut line = String::new(alloc);
        self.put_front(one, &mut line)?;
        self.put_record(alloc, one.number, &mut line)?;
        self.put_other(one.other, &mut line)?;
        Ok(line)
    }

    /// Appends the place of a finding, whether it is an error, and what it is.
    fn put_front(&self, one: &Finding, line: &mut String) -> Result<(), Refusal> {
        if !self.put_place(one.number, line)? {
            line.push_str(self.first_file())?;
        }
        let kind = if one.check.is_error() {
            "error"
        } else {
            "warning"
        };
        write!(line, ": {kind}: {}", one.check)?;
        Ok(())
    }

    /// Appends the owner and the type of a record, by its number in canonical order, if there is one.
    fn put_record(
        &self,
        alloc: Global,
        number: Option<usize>,
        line: &mut String,
    ) -> Result<(), Refusal> {
        let Some(record) = self.record(number) else {
            return Ok(());
        };
        let owner = record.owner().to_name(alloc)?.to_text(alloc)?;
        let record_type = record.record_type().to_text();
        write!(line, ": {owner} {}", record_type.as_str())?;
        Ok(())
    }

    /// Appends the place of another record that a finding is about, if there is one.
    fn put_other(&self, number: Option<usize>, line: &mut String) -> Result<(), Refusal> {
        if number.is_some() {
            line.push_str(", and ")?;
            self.put_place(number, line)?;
        }
        Ok(())
    }

    /// Appends the file and the line of a record, by its number in canonical order, if there is one, and returns whether there is.
    fn put_place(&self, number: Option<usize>, line: &mut String) -> Result<bool, Refusal> {
        let Some((file, at)) = self.place(number) else {
            return Ok(false);
        };
        write!(line, "{file}:{at}")?;
        Ok(true)
    }

    /// Returns the file and the line of a record, by its number in canonical order. The first line is line 1.
    fn place(&self, number: Option<usize>) -> Option<(&str, usize)> {
        let place = self.kept.place(self.before(number)?)?;
        let file = self.files.get(place.file)?;
        Some((file.as_str(), place.line.saturating_add(1)))
    }

    /// Returns a record, by its number in canonical order.
    fn record(&self, number: Option<usize>) -> Option<&RecordRef<'_>> {
        self.records.get(number?)
    }

    /// Returns how many records came before one, by its number in canonical order.
    fn before(&self, number: Option<usize>) -> Option<usize> {
        self.kept.order().get(number?).copied()
    }

    /// Returns the name of the file that all begins in.
    fn first_file(&self) -> &str {
        match self.files {
            [file, ..] => file.as_str(),
            [] => "",
        }
    }
}
