//! What follows from the definitions of texts, for callers' proofs.
//!
//! The functions do nothing: each exists for its clauses.
ghost use Rattle.dns_names_wire.specs.TextLaws.{TextsDiffer, ReadLabelsAreBytes, TextLabelsAreBytes, AcceptedLabels, AcceptedReadBack, BytesAndTextsAgree};

/// Names with different labels or different flags have different texts, byte for byte.
#[tactic(auto, using(crate::proofs::DifferentTexts::texts_differ))]
pub fn texts_differ()
    ensures { TextsDiffer }
{}

/// The labels of names that are read in messages have octets below 256, and so have labels that stand for themselves as
/// text.
#[tactic(auto, using(crate::proofs::LabelBytes::read_labels_are_bytes, crate::proofs::LabelBytes::text_labels_are_bytes))]
pub fn labels_are_bytes()
    ensures read { ReadLabelsAreBytes }
    ensures text { TextLabelsAreBytes }
{}

/// What `Name::from_ascii` accepts has labels that all stand for themselves as text, and the text that `Name::to_ascii`
/// writes for it is read back as the same name.
pub fn accepted_texts_read_back()
    ensures labels { AcceptedLabels }
    ensures back { AcceptedReadBack }
{}

/// Reading the wire form of a name returns its labels, and `Name::to_ascii` writes them as the name's own text with a
/// last dot.
pub fn bytes_and_texts_agree()
    ensures { BytesAndTextsAgree }
{}
