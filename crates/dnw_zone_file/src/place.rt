//! Lines and columns of texts.
ghost use Rattle.std.specs.Prelude.{◌≡◌, ◌<◌, true, length, take, IfSome, MatchOption};
ghost use Rattle.std.specs.List.{list_all};
ghost use Rattle.dnw_zone_file.specs.Inside.PlaceLines.{BeginsWithLine, IsInLine, is_no_feed};
ghost use Rattle.dnw_zone_file.specs.Places.{place_from};

/// A place in a text, as editors count it, from 0.
#[derive(Debug, Clone, Copy, PartialEq, Eq)]
pub struct TextPlace {
    /// The number of line feeds before it.
    pub line: usize,
    /// The number of octets before it in its line.
    pub column: usize,
}

/// Returns the place of an offset. After the text's end it is the place of the end.
pub fn place_of(text: &[u8], offset: usize) -> TextPlace
    ensures { result ≡ place_from (record { line = 0; column = 0 }) (take offset text.now) }
{
    place_after(front_of(text, offset))
}

/// Returns the place after octets.
fn place_after(front: &[u8]) -> TextPlace
    ensures { result ≡ place_from (record { line = 0; column = 0 }) front.now }
{
    if is_line(front) {
        return TextPlace { line: 1, column: 0 };
    }
    let mut line = 0;
    let mut left = front;
    while let Some(rest) = after_line(left) {
        line += 1;
        left = rest;
    }
    TextPlace {
        line,
        column: left.len(),
    }
}

/// Returns `true` if octets are a line with the line feed that ends it, as most entries are.
#[inline(always)]
fn is_line(front: &[u8]) -> bool
    ensures { result ≡ true → place_from (record { line = 0; column = 0 }) front.now ≡ record { line = 1; column = 0 } }
{
    match front.split_last() {
        Some((b'\n', before)) => has_no_feed(before),
        _ => false,
    }
}

/// Returns `true` if no octet is a line feed. It looks at all of them, so that the processor takes many at once.
#[inline(always)]
#[tactic(auto, using(std::proofs::lemmas::List::Folds::list_all_more))]
fn has_no_feed(octets: &[u8]) -> bool
    ensures { result ≡ list_all is_no_feed octets.now }
{
    let mut none = true;
    for c in octets {
        if *c == b'\n' {
            none = false;
        }
    }
    none
}

/// Returns what is after the first line feed, if there is one.
fn after_line(text: &[u8]) -> Option<&[u8]>
    ensures is { MatchOption result (IsInLine text.now) (λ rest. BeginsWithLine text.now rest.now) }
    ensures shorter { IfSome result (λ rest. length rest.now < length text.now) }
{
    let mut left = text;
    // Four octets a round take less than one.
    'fours: while let [a, b, c, d, rest @ ..] = left {
        if *a == b'\n' || *b == b'\n' || *c == b'\n' || *d == b'\n' {
            break;
        }
        left = rest;
    }
    while let Some((c, rest)) = left.split_first() {
        if *c == b'\n' {
            return Some(rest);
        }
        left = rest;
    }
    None
}

/// Returns the octets before an offset.
fn front_of(text: &[u8], offset: usize) -> &[u8]
    ensures { result.now ≡ take offset text.now }
{
    if offset < text.len() {
        return &text[..offset];
    }
    text
}
