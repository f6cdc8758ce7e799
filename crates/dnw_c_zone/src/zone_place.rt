//! Places in zone files, of which the caller gives parts.
ghost use Rattle.std.specs.Prelude.{◌≡◌, take};
ghost use Rattle.dnw_c_zone.specs.ZonePlaces.{size_sum, moved};

use dnw_zone_file::place::place_of;

/// How much of a file was read: octets, line feeds, and octets after the last line feed. Each count stays at the greatest number.
#[derive(Clone, Copy)]
pub struct FilePlace {
    pub offset: usize,
    pub line: usize,
    pub column: usize,
}

/// Returns the place at an offset of a text that begins at a place.
pub(crate) fn moved(at: FilePlace, text: &[u8], offset: usize) -> FilePlace
    ensures { result ≡ moved at (take offset text.now) }
{
    let passed = &text[..offset.min(text.len())];
    let place = place_of(passed, passed.len());
    FilePlace {
        offset: at.offset.saturating_add(passed.len()),
        line: at.line.saturating_add(place.line),
        column: if place.line == 0 {
            at.column.saturating_add(place.column)
        } else {
            place.column
        },
    }
}
