//! What follows from the definitions of type sets, for callers' proofs.
//!
//! The functions do nothing: each exists for its clauses.
ghost use Rattle.dnw_data.specs.SetLaws.{BitmapsAreWindows, BitmapsListFew, SetsComeBack, WindowsListBits};

/// The bytes of a new set are in bounds, and list its codes and no others: so what `new` made, `emit` wrote and
/// `read_data` read has the same codes.
pub fn sets_come_back()
    ensures { SetsComeBack }
{}

/// A bitmap is its windows, one after the other, and lists a code exactly if one of them has the code's bit (RFC 4034,
/// section 4.1.2). So it lists at most 8 types for each of its octets.
pub fn bitmaps_list_bits()
    ensures windows { BitmapsAreWindows }
    ensures bits { WindowsListBits }
    ensures few { BitmapsListFew }
{}
