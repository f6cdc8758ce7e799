//! What is printed of data and of their fields is parsed as the same.
//!
//! The functions do nothing. Each is there for its clauses.
ghost use Rattle.dnw_zone_data.specs.DataTextLaws.{GenericComesBack, GenericIsParsed, DataComeBack, TextsAreParsed, NumbersComeBack, TypesComeBack, FieldAddressesComeBack, FieldNamesComeBack, SegmentsComeBack, FieldIdentifiersComeBack, CountedComeBack, OctetsComeBack, StringsComeBack, ListsComeBack, FieldLocatorsComeBack, FieldPrefixesComeBack, FieldBitmapsComeBack, ShapesComeBack, NameListsComeBack};

/// Fields of these kinds round-trip, whatever follows them.
pub fn fields_come_back()
    ensures numbers { NumbersComeBack }
    ensures types { TypesComeBack }
    ensures addresses { FieldAddressesComeBack }
    ensures names { FieldNamesComeBack }
    ensures segments { SegmentsComeBack }
    ensures identifiers { FieldIdentifiersComeBack }
    ensures counted { CountedComeBack }
    ensures octets { OctetsComeBack }
    ensures strings { StringsComeBack }
    ensures lists { ListsComeBack }
    ensures locators { FieldLocatorsComeBack }
    ensures prefixes { FieldPrefixesComeBack }
    ensures bitmaps { FieldBitmapsComeBack }
    ensures shapes { ShapesComeBack }
    ensures names_in_lists { NameListsComeBack }
{}

/// Octets in the form that any data have round-trip.
pub fn generic_comes_back()
    ensures { GenericComesBack }
{}

/// Whole data round-trip, of each type and in each form. So what is printed is parsed, unless memory runs out, the data have
/// more octets than data may have, or they are octets that are no data of their type.
pub fn data_come_back()
    ensures back { DataComeBack }
    ensures parsed { TextsAreParsed }
    ensures generic { GenericIsParsed }
{}
