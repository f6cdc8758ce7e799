//! What follows from how names, items and messages are written, for callers' proofs.
//!
//! The functions do nothing. Each is there for its clauses.
ghost use Rattle.dnw_message_writer.specs.ContentLaws.{BegunMessagesAreEmpty, CutMessagesHold, GivenRecordsAreAdded, LastRecordsAreAdded, QuestionsAreAdded, RecordsAreAdded, SetsAreAdded, UnchangedMessagesHold};
ghost use Rattle.dnw_message_writer.specs.CopyLaws.{CopiesHold, SetsAreWhole};
ghost use Rattle.dnw_message_writer.specs.ReadItems.{DataNamesAreRead, GivenDataComeBack, HeldItemsAreRead, HeldItemsNeverFail, OctetsAreRead, ReadMessagesHaveItems};
ghost use Rattle.dnw_message_writer.specs.SizeLaws.{HintsBegin, LastRecordsAreWhole, NearOwnersTakeTwo, QuestionsAreNear, QuestionsTakeNoMore, RecordsAreNear, RecordsTakeNoMore};
ghost use Rattle.dnw_message_writer.specs.NameLaws.{CompressedNamesTakeNoMore, WrittenNamesAreRead};

/// A name that is written is read back, whatever the hints say, and takes no more octets than its wire form.
#[tactic(auto, using(crate::proofs::Places::written_names_are_read, crate::proofs::Places::names_take_no_more))]
pub fn names_come_back()
    ensures read { WrittenNamesAreRead }
    ensures size { CompressedNamesTakeNoMore }
{}

/// What a message holds, after each call of its writer: exactly the items that were added.
pub fn messages_hold_their_items()
    ensures begun { BegunMessagesAreEmpty }
    ensures question { QuestionsAreAdded }
    ensures record { RecordsAreAdded }
    ensures given { GivenRecordsAreAdded }
    ensures set { SetsAreAdded }
    ensures last { LastRecordsAreAdded }
    ensures cut { CutMessagesHold }
    ensures unchanged { UnchangedMessagesHold }
{}

/// A message that was written again holds items of the other: all of its questions, and the first records of each section, which are all if
/// they have room. If TC is clear, each of their sets is there whole or not at all.
pub fn copies_hold_the_items()
    ensures items { CopiesHold }
    ensures sets { SetsAreWhole }
{}

/// What is written is what is read: a message that holds items is read as exactly these, in their sections and order, with its id and
/// its flags, from octets which begin with it. Each name follows at most 129 pointers, so `MessageRef::read`, which allows 65,536,
/// reads each message of at most 508 items.
pub fn held_items_are_read()
    ensures read { HeldItemsAreRead }
    ensures never_fails { HeldItemsNeverFail }
    ensures same { ReadMessagesHaveItems }
{}

/// Data that are octets alone are read as these, and data that are a name alone as this name. Data whose pieces are those of octets with
/// every name in its wire form are read as these octets, field by field, whatever names are compressed.
pub fn data_are_read()
    ensures octets { OctetsAreRead }
    ensures name { DataNamesAreRead }
    ensures given { GivenDataComeBack }
{}

/// An item takes no more octets than with its names whole, and has no room only if it would have none so.
pub fn items_take_no_more()
    ensures question { QuestionsTakeNoMore }
    ensures record { RecordsTakeNoMore }
{}

/// A last record, whose data have no name that may be compressed, takes as many octets as with its owner whole.
pub fn last_records_are_whole()
    ensures { LastRecordsAreWhole }
{}

/// An owner that repeats the name of the question before it, or the owner of the record before it, takes two octets.
pub fn repeated_owners_take_two()
    ensures begun { HintsBegin }
    ensures question { QuestionsAreNear }
    ensures record { RecordsAreNear }
    ensures two { NearOwnersTakeTwo }
{}
