//! What follows from the definition of lines.
//!
//! The function does nothing. It is there for its clause.
ghost use Rattle.dnw_zone_record.specs.LineLaws.{WindowsAgree};

/// A line that ends before a part of a text does is the same in the whole text. So a file may be read in parts.
pub fn windows_agree()
    ensures { WindowsAgree }
{}
