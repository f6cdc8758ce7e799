//! Transfers that come in.

use crate::recorded::ROWS;
use ans_transfer::changes::Change;
use ans_transfer::error::TransferError;
use ans_transfer::place::Place;
use ans_transfer::request::Kind;
use ans_transfer::transfer_in::TransferIn;
use dns_names_wire::codes::SerialNumber;
use dns_names_wire::message::MessageRef;
use dns_names_wire::{DNSClass, Name};
use std::alloc::Global;
use std::test::Fail;

/// How many records a transfer adds and deletes.
#[derive(Clone, Copy)]
struct Counts {
    added: usize,
    deleted: usize,
}

/// Returns a word for how far a transfer has come.
fn place_word(place: Place) -> &'static str {
    match place {
        Place::Start => "start",
        Place::Begun { .. } => "begun",
        Place::InZone { .. } | Place::InDeleted { .. } | Place::InAdded { .. } => "more",
        Place::EndOfZone { .. } => "zone",
        Place::EndOfChanges { .. } => "changes",
        Place::UpToDate => "up to date",
    }
}

/// Returns a word for why a message is no part of a transfer.
fn error_word(error: TransferError) -> &'static str {
    match error {
        TransferError::OtherId => "OtherId",
        TransferError::NotAResponse => "NotAResponse",
        TransferError::Failed { .. } => "Failed",
        TransferError::Truncated => "Truncated",
        TransferError::OtherQuestion => "OtherQuestion",
        TransferError::OtherClass => "OtherClass",
        TransferError::OutOfZone => "OutOfZone",
        TransferError::SoaBelow => "SoaBelow",
        TransferError::ShortSoa => "ShortSoa",
        TransferError::NoSoa => "NoSoa",
        TransferError::OtherSerial => "OtherSerial",
        TransferError::AfterEnd => "AfterEnd",
    }
}

/// Counts what the records of a message do, if it is taken.
fn count(transfer: &TransferIn<'_>, message: &MessageRef<'_>, counts: &mut Counts) {
    let Ok(changes) = transfer.changes(message) else {
        return;
    };
    for changed in changes {
        match changed.change {
            Change::Soa => {}
            Change::Add => counts.added += 1,
            Change::Delete => counts.deleted += 1,
        }
    }
}

/// Takes messages, whose octets are in hexadecimal digits with commas between them, and returns what came, in a word.
fn come(
    alloc: Global,
    transfer: &mut TransferIn<'_>,
    messages: &str,
    counts: &mut Counts,
) -> Result<&'static str, Fail> {
    for digits in messages.split(',') {
        let octets = hex::decode(alloc, digits)?;
        let message = MessageRef::read(octets.as_slice())?;
        count(transfer, &message, counts);
        if let Err(error) = transfer.take(&message) {
            return Ok(error_word(error));
        }
    }
    Ok(place_word(transfer.place()))
}

#[test]
fn each_transfer_is_what_the_rfcs_say(rt: HostRuntime) -> Result<(), Fail> {
    let alloc = rt.alloc();
    let zone = Name::from_ascii(alloc, "A.test.")?;
    for row in ROWS {
        let mut parts = row.splitn(7, '|').skip(1);
        let kind = parts.next().ok_or("a type")?;
        let own = parts.next().ok_or("a serial number")?.parse()?;
        let wanted = parts.next().ok_or("a word")?;
        let added = parts.next().ok_or("a number")?.parse()?;
        let deleted = parts.next().ok_or("a number")?.parse()?;
        let messages = parts.next().ok_or("messages")?;
        let kind = match kind {
            "AXFR" => Kind::Axfr,
            _ => Kind::Ixfr {
                serial: SerialNumber::new(own),
            },
        };
        let mut counts = Counts {
            added: 0,
            deleted: 0,
        };
        let mut transfer = TransferIn::new(&zone, DNSClass::IN, kind, 7);
        let came = come(alloc, &mut transfer, messages, &mut counts)?;
        assert_eq!(rt; came, wanted);
        assert_eq!(rt; counts.added, added);
        assert_eq!(rt; counts.deleted, deleted);
    }
    Ok(())
}
