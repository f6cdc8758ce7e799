//! What follows from the definitions of writing, for callers' proofs.
//!
//! The functions do nothing. Each is there for its clauses.
ghost use Rattle.dnw_write.specs.CandidateLaws.{NewPrecede, WritesPrecede, TextsPrecede, PlacesPrecede, FillsPrecede, NamesPrecede, StoresPrecede, TrimsPrecede, RewindsPrecede, ItemsPrecede, ItemPrecedes};
ghost use Rattle.dnw_write.specs.EncoderLaws.{WritesStayBounded, PlacesStayBounded, FillsStayBounded, FillsTakeNoMemory, ItemsStayBounded, ItemsKeepFrame, FramesFollow, NameIsRead, NameComesBack, NamesStayBounded, NamesTakeNoMore, PointersSave};

pub use super::marks::rewinding_undoes;
use crate::binary::BinEncodable;

/// A write, a placeholder and its filling leave the buffer no longer than it was, or than the maximum.
#[tactic(auto, using(crate::proofs::Bounds::writes_stay_bounded, crate::proofs::Bounds::places_stay_bounded, crate::proofs::Bounds::fills_stay_bounded))]
pub fn writes_stay_bounded()
    ensures writes { WritesStayBounded }
    ensures places { PlacesStayBounded }
    ensures fills { FillsStayBounded }
{}

/// So do items in turn, if each of them does.
#[tactic(auto, using(crate::proofs::Bounds::items_stay_bounded))]
pub fn items_stay_bounded<E: BinEncodable>()
    ensures { ItemsStayBounded E.emits }
{}

/// Filling a placeholder does not run out of memory.
#[tactic(auto, using(crate::proofs::Bounds::fills_take_no_memory))]
pub fn fills_take_no_memory()
    ensures { FillsTakeNoMemory }
{}

/// Items in turn, and parts in turn, keep the frame of `emit`.
pub fn frames_follow<E: BinEncodable>()
    ensures items { ItemsKeepFrame E.emits }
    ensures parts { FramesFollow }
{}

/// A name that was written is read back.
#[tactic(auto, using(crate::proofs::NameBack::name_is_read, crate::proofs::NameBack::name_comes_back))]
pub fn names_come_back()
    ensures at_once { NameIsRead }
    ensures alone { NameComesBack }
{}

/// A name leaves the buffer no longer than it was, or than the maximum, and takes no more bytes than its wire form; a
/// pointer saves one byte or more.
pub fn names_stay_bounded()
    ensures bounded { NamesStayBounded }
    ensures no_more { NamesTakeNoMore }
    ensures saves { PointersSave }
{}

/// Every candidate of a new encoder is before the offset, and each call below keeps that, whether it succeeds or fails: so
/// rewinding undoes what was written.
pub fn candidates_precede()
    ensures new { NewPrecede }
    ensures writes { WritesPrecede }
    ensures texts { TextsPrecede }
    ensures places { PlacesPrecede }
    ensures fills { FillsPrecede }
    ensures names { NamesPrecede }
    ensures stores { StoresPrecede }
    ensures trims { TrimsPrecede }
    ensures rewinds { RewindsPrecede }
{}

/// So do items, if each of them does, and the one that is rolled back.
#[tactic(auto, using(crate::proofs::Preceding::item_precedes, crate::proofs::Preceding::items_precede))]
pub fn items_precede<E: BinEncodable>()
    ensures in_turn { ItemsPrecede E.emits }
    ensures item { ItemPrecedes E.emits }
{}
