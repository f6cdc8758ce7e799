//! Locations (RFC 1876): their words, and their octets.
ghost use Rattle.std.specs.Prelude.{◌≡◌, ◌≤◌, ◌<◌, ◌+◌, ◌-◌, ◌*◌, ◌/◌, ◌%◌, ◌^◌, ◌++◌, ◌∷◌, ◌==◌, ◌&&◌, ℕ, Bool, true, false, [], List, length, map, drop, take, IfOk, MatchOption, string_bytes, decimal, slice_index};
ghost use Rattle.std.specs.Str.Parse.{AllDigits, digits_value, starts_with_minus, without_leading_sign};
ghost use Rattle.std.specs.List.{position_or_len};
ghost use Rattle.dnw_zone_values.specs.Numbers.{IsNumberText};
ghost use Rattle.dnw_zone_values.specs.Locations.{is_point, before_point, after_point, IsScaled, max_degrees, positive_letter, negative_letter, degree, minute, origin, IsSeconds, IsOnSide, IsAngle, is_letter, BeginWithAngle};
ghost use Rattle.dnw_zone_values.specs.Locations.{without_unit, IsCentimetres, IsMetres, IsAltitude, IsSizeText, precision, with_sizes, AreSizes, AreLocationWords, location_wire, location_at, arc, letter, hundredths_text, thousandths_text};
ghost use Rattle.dnw_zone_values.specs.Locations.{angle_words, altitude_text, size_of, size_text, words_text, location_text, is_precision, is_angle, is_location, has_version, PrintsLocation};

use crate::number::number_up_to;
use std::alloc::AllocError;

/// The direction that an angle is measured in.
#[derive(Clone, Copy, Debug, PartialEq, Eq)]
pub enum Axis {
    /// From the equator.
    Latitude,
    /// From the prime meridian.
    Longitude,
}

/// A location (RFC 1876, section 2).
#[derive(Clone, Copy, Debug, PartialEq, Eq)]
pub struct Location {
    /// The diameter of a sphere around what is there, in centimetres: a digit in the high four bits, and how many zeros are after it.
    pub size: u8,
    /// The horizontal precision, as the size.
    pub horizontal: u8,
    /// The vertical precision, as the size.
    pub vertical: u8,
    /// The latitude in thousandths of a second of arc; the equator is 2^31, and north is above it.
    pub latitude: u32,
    /// The longitude in thousandths of a second of arc; the prime meridian is 2^31, and east is above it.
    pub longitude: u32,
    /// The altitude in centimetres above the lowest one, which is 100,000 metres below the ellipsoid.
    pub altitude: u32,
}

/// The number that the equator and the prime meridian are.
const ORIGIN: u32 = 2147483648;

/// The thousandths of a second of arc in a degree.
const DEGREE: u32 = 3600000;

/// The thousandths of a second of arc in a minute.
const MINUTE: u32 = 60000;

/// The centimetres of the lowest altitude below the ellipsoid.
const DEPTH: u64 = 10000000;

/// The centimetres of the greatest size.
const MAX_SIZE: u64 = 9000000000;

/// More than any number with a point has parts.
const MANY: u64 = 9999999999;

/// The minutes, and the seconds, that are left out.
const ZERO: &[u8] = b"0";

/// The size that is left out.
const SIZE: &[u8] = b"1m";

/// The horizontal precision that is left out.
const HORIZONTAL: &[u8] = b"10000m";

/// The vertical precision that is left out.
const VERTICAL: &[u8] = b"10m";

/// Returns the location that words are: degrees, minutes and seconds, and `N` or `S`; the same with `E` or `W`; the altitude, the
/// size, the horizontal and the vertical precision, in metres. Minutes, seconds and what is after the altitude may be left out.
pub fn location_of(words: &[&[u8]]) -> Option<Location>
    ensures { MatchOption result ((l : Location) → ¬ (AreLocationWords (map (λ w. w.now) words.now) l)) (AreLocationWords (map (λ w. w.now) words.now)) }
{
    let (latitude, others) = angle_first(Axis::Latitude, words)?;
    let Some((longitude, sizes)) = angle_first(Axis::Longitude, others) else {
        return None;
    };
    with_sizes(latitude, longitude, sizes)
}

/// Returns the angle that words begin with, and the words after it.
fn angle_first<'w, 't>(axis: Axis, words: &'w [&'t [u8]]) -> Option<(u32, &'w [&'t [u8]])>
    ensures { MatchOption result ((n : ℕ) (rest : List (List ℕ)) → ¬ (BeginWithAngle axis (map (λ w. w.now) words.now) n rest))
        (λ x. BeginWithAngle axis (map (λ w. w.now) words.now) x.0 (map (λ w. w.now) x.1.now)) }
{
    match words {
        [degrees, letter, rest @ ..] if is_letter(axis, letter) => {
            let Some(angle) = angle_of(axis, degrees, ZERO, ZERO, letter) else {
                return None;
            };
            Some((angle, rest))
        }
        [degrees, minutes, letter, rest @ ..] if is_letter(axis, letter) => {
            let Some(angle) = angle_of(axis, degrees, minutes, ZERO, letter) else {
                return None;
            };
            Some((angle, rest))
        }
        [degrees, minutes, seconds, letter, rest @ ..] => {
            let Some(angle) = angle_of(axis, degrees, minutes, seconds, letter) else {
                return None;
            };
            Some((angle, rest))
        }
        _ => None,
    }
}

/// Returns `true` if a word is a letter of the sides of the origin.
fn is_letter(axis: Axis, word: &[u8]) -> bool
    ensures { result ≡ is_letter axis word.now }
{
    match word {
        [c] => *c == positive_letter(axis) || *c == negative_letter(axis),
        _ => false,
    }
}

/// Returns the letter of north or east.
fn positive_letter(axis: Axis) -> u8
    ensures { result ≡ positive_letter axis }
{
    match axis {
        Axis::Latitude => b'N',
        Axis::Longitude => b'E',
    }
}

/// Returns the letter of south or west.
fn negative_letter(axis: Axis) -> u8
    ensures { result ≡ negative_letter axis }
{
    match axis {
        Axis::Latitude => b'S',
        Axis::Longitude => b'W',
    }
}

/// Returns the degrees that an angle has at most.
fn max_degrees(axis: Axis) -> u32
    ensures is { result ≡ max_degrees axis }
    ensures few { result ≤ 180 }
{
    match axis {
        Axis::Latitude => 90,
        Axis::Longitude => 180,
    }
}

/// Returns the angle that words are.
fn angle_of(
    axis: Axis,
    degrees: &[u8],
    minutes: &[u8],
    seconds: &[u8],
    letter: &[u8],
) -> Option<u32>
    ensures { MatchOption result ((n : ℕ) → ¬ (IsAngle axis degrees.now minutes.now seconds.now letter.now n)) (IsAngle axis degrees.now minutes.now seconds.now letter.now) }
{
    let max = max_degrees(axis);
    let d = number_up_to(degrees, u64::from(max))? as u32;
    let m = number_up_to(minutes, 59)? as u32;
    let s = seconds_of(seconds)?;
    let arc = d * DEGREE + m * MINUTE + s;
    if arc > max * DEGREE {
        return None;
    }
    on_side(axis, letter, arc)
}

/// Returns the angle that is an arc from the origin, on the side that a letter says.
fn on_side(axis: Axis, letter: &[u8], arc: u32) -> Option<u32>
    requires { arc ≤ 180 * degree }
    ensures { MatchOption result ((n : ℕ) → ¬ (IsOnSide axis letter.now arc n)) (IsOnSide axis letter.now arc) }
{
    match letter {
        [c] if *c == positive_letter(axis) => Some(ORIGIN + arc),
        [c] if *c == negative_letter(axis) => Some(ORIGIN - arc),
        _ => None,
    }
}

/// Returns the thousandths of a second that seconds are.
fn seconds_of(text: &[u8]) -> Option<u32>
    ensures { MatchOption result ((n : ℕ) → ¬ (IsSeconds text.now n)) (IsSeconds text.now) }
{
    let (whole, part) = split_point(text);
    if whole.is_empty() {
        return None;
    }
    let number = scaled(whole, part, 3)?;
    if number < 60000 {
        Some(number as u32)
    } else {
        None
    }
}

/// Returns what is before the first point, and what is after it.
fn split_point(text: &[u8]) -> (&[u8], &[u8])
    ensures before { result.0.now ≡ before_point text.now }
    ensures after { result.1.now ≡ after_point text.now }
{
    let (whole, rest) = text.split_at(point_len(text));
    match rest.split_first() {
        Some((_, part)) => (whole, part),
        None => (whole, rest),
    }
}

/// Returns the number of characters before the first point, or of all if there is none.
fn point_len(text: &[u8]) -> usize
    ensures is { result ≡ position_or_len is_point text.now }
    ensures within { result ≤ length text.now }
{
    let mut left = text;
    while let Some((first, rest)) = left.split_first() {
        if *first == b'.' {
            return text.len() - left.len();
        }
        left = rest;
    }
    text.len()
}

/// Returns the number that digits before a point and at most `places` after it write, if it is not too great.
fn scaled(whole: &[u8], part: &[u8], places: usize) -> Option<u64>
    requires { places ≤ 3 }
    ensures { MatchOption result ((n : ℕ) → n ≤ 9999999999 → ¬ (IsScaled places whole.now part.now n)) (IsScaled places whole.now part.now) }
{
    if part.len() > places {
        return None;
    }
    let unit = power(places);
    let digit = power(places - part.len());
    let Some(number) = digits_of(whole) else {
        return None;
    };
    let Some(parts) = digits_of(part) else {
        return None;
    };
    Some(number * unit + parts * digit)
}

/// Returns a power of ten.
fn power(exponent: usize) -> u64
    requires { exponent ≤ 3 }
    ensures is { result ≡ 10 ^ exponent }
    ensures some { 1 ≤ result }
    ensures few { result ≤ 1000 }
{
    match exponent {
        0 => 1,
        1 => 10,
        2 => 100,
        _ => 1000,
    }
}

/// Returns the number that digits write, of which there may be none.
fn digits_of(text: &[u8]) -> Option<u64>
    ensures { MatchOption result (AllDigits 10 text.now → 9999999999 < digits_value 10 text.now)
        (λ n. AllDigits 10 text.now × (digits_value 10 text.now ≡ n) × (n ≤ 9999999999)) }
{
    if text.is_empty() {
        return Some(0);
    }
    number_up_to(text, MANY)
}

/// Returns the location with angles, and the altitude and the sizes that words are.
fn with_sizes(latitude: u32, longitude: u32, words: &[&[u8]]) -> Option<Location>
    ensures { MatchOption result ((l : Location) → ¬ (AreSizes (with_sizes (map (λ w. w.now) words.now)) l))
        (λ l. AreSizes (with_sizes (map (λ w. w.now) words.now)) l × (l.latitude ≡ latitude) × (l.longitude ≡ longitude)) }
{
    match words {
        [altitude] => of_sizes(latitude, longitude, altitude, SIZE, HORIZONTAL, VERTICAL),
        [altitude, size] => of_sizes(latitude, longitude, altitude, size, HORIZONTAL, VERTICAL),
        [altitude, size, horizontal] => {
            of_sizes(latitude, longitude, altitude, size, horizontal, VERTICAL)
        }
        [altitude, size, horizontal, vertical] => {
            of_sizes(latitude, longitude, altitude, size, horizontal, vertical)
        }
        _ => None,
    }
}

/// Returns the location with angles, and the altitude and the sizes that words are.
fn of_sizes(
    latitude: u32,
    longitude: u32,
    altitude: &[u8],
    size: &[u8],
    horizontal: &[u8],
    vertical: &[u8],
) -> Option<Location>
    ensures { MatchOption result ((l : Location) → ¬ (AreSizes (altitude.now ∷ size.now ∷ horizontal.now ∷ vertical.now ∷ []) l))
        (λ l. AreSizes (altitude.now ∷ size.now ∷ horizontal.now ∷ vertical.now ∷ []) l × (l.latitude ≡ latitude) × (l.longitude ≡ longitude)) }
{
    let Some(altitude) = altitude_of(altitude) else {
        return None;
    };
    let Some(size) = size_of(size) else {
        return None;
    };
    let Some(horizontal) = size_of(horizontal) else {
        return None;
    };
    let Some(vertical) = size_of(vertical) else {
        return None;
    };
    Some(Location {
        size,
        horizontal,
        vertical,
        latitude,
        longitude,
        altitude,
    })
}

/// Returns the altitude that a word is, in centimetres above the lowest one.
fn altitude_of(text: &[u8]) -> Option<u32>
    ensures { MatchOption result ((n : ℕ) → ¬ (IsAltitude text.now n)) (IsAltitude text.now) }
{
    let centimetres = metres_of(text)?;
    if has_minus(text) {
        if centimetres <= DEPTH {
            return Some((DEPTH - centimetres) as u32);
        }
        return None;
    }
    if centimetres <= 4284967295 {
        Some((DEPTH + centimetres) as u32)
    } else {
        None
    }
}

/// Returns the octet of the size that a word is.
fn size_of(text: &[u8]) -> Option<u8>
    ensures { MatchOption result ((octet : ℕ) → ¬ (IsSizeText text.now octet)) (IsSizeText text.now) }
{
    let centimetres = metres_of(text)?;
    if has_minus(text) && centimetres > 0 {
        return None;
    }
    if centimetres > MAX_SIZE {
        return None;
    }
    Some(precision(centimetres))
}

/// Returns the octet of a size: its first digit, and how many digits are after it.
fn precision(centimetres: u64) -> u8
    requires { centimetres < 10000000000 }
    ensures { result ≡ precision centimetres }
{
    let mut mantissa = centimetres;
    let mut exponent = 0;
    'digits: while mantissa >= 10 {
        mantissa /= 10;
        exponent += 1;
    }
    16 * mantissa as u8 + exponent
}

/// Returns the centimetres that metres after a sign are, if they are not too many.
fn metres_of(text: &[u8]) -> Option<u64>
    ensures { MatchOption result ((n : ℕ) → n ≤ 9999999999 → ¬ (IsMetres text.now n)) (IsMetres text.now) }
{
    let (whole, part) = split_point(without_unit(without_sign(text)));
    if whole.is_empty() && part.is_empty() {
        return None;
    }
    scaled(whole, part, 2)
}

/// Returns `true` if a text begins with a minus.
fn has_minus(text: &[u8]) -> bool
    ensures { result ≡ starts_with_minus text.now }
{
    matches!(text.first(), Some(b'-'))
}

/// Returns a text without the sign that it begins with.
fn without_sign(text: &[u8]) -> &[u8]
    ensures { result.now ≡ without_leading_sign text.now }
{
    match text.split_first() {
        Some((b'-' | b'+', rest)) => rest,
        _ => text,
    }
}

/// Returns a text without the `m` that it ends with.
fn without_unit(text: &[u8]) -> &[u8]
    ensures { result.now ≡ without_unit text.now }
{
    match text.split_last() {
        Some((b'm', rest)) => rest,
        _ => text,
    }
}

/// Returns the octets of a location, of version 0.
pub fn location_octets(location: &Location) -> [u8; 16]
    ensures { result ≡ location_wire location.now }
{
    let latitude = location.latitude.to_be_bytes();
    let longitude = location.longitude.to_be_bytes();
    let altitude = location.altitude.to_be_bytes();
    [
        0,
        location.size,
        location.horizontal,
        location.vertical,
        latitude[0],
        latitude[1],
        latitude[2],
        latitude[3],
        longitude[0],
        longitude[1],
        longitude[2],
        longitude[3],
        altitude[0],
        altitude[1],
        altitude[2],
        altitude[3],
    ]
}

/// Appends the text of the octets of a location, each word after a space. Returns `false` if they have none, and appends nothing:
/// they are not of version 0, an angle has too many degrees, or a size is none that is read from a text.
pub fn append_location(octets: &[u8], out: &mut String) -> Result<bool, AllocError>
    ensures yes { IfOk result (λ has. has ≡ true → PrintsLocation octets.now (location_text (location_at octets.now))
        × (string_bytes out.new ≡ string_bytes out.old ++ location_text (location_at octets.now))) }
    ensures no { IfOk result (λ has. has ≡ false → ((text : List ℕ) → ¬ (PrintsLocation octets.now text)) × (string_bytes out.new ≡ string_bytes out.old)) }
{
    let Some(location) = location_at(octets) else {
        return Ok(false);
    };
    if !is_location(&location) {
        return Ok(false);
    }
    write_angle(Axis::Latitude, location.latitude, out)?;
    write_angle(Axis::Longitude, location.longitude, out)?;
    write_altitude(location.altitude, out)?;
    write_size(location.size, out)?;
    write_size(location.horizontal, out)?;
    write_size(location.vertical, out)?;
    Ok(true)
}

/// Returns the location of 16 octets of version 0.
fn location_at(octets: &[u8]) -> Option<Location>
    ensures { MatchOption result (has_version octets.now ≡ false) (λ l. (has_version octets.now ≡ true) × (l ≡ location_at octets.now)) }
{
    match octets {
        [
            0,
            size,
            horizontal,
            vertical,
            a,
            b,
            c,
            d,
            e,
            f,
            g,
            h,
            i,
            j,
            k,
            l,
        ] => Some(Location {
            size: *size,
            horizontal: *horizontal,
            vertical: *vertical,
            latitude: u32::from_be_bytes([*a, *b, *c, *d]),
            longitude: u32::from_be_bytes([*e, *f, *g, *h]),
            altitude: u32::from_be_bytes([*i, *j, *k, *l]),
        }),
        _ => None,
    }
}

/// Returns `true` if a location has a text.
fn is_location(location: &Location) -> bool
    ensures is { result ≡ is_location location.now }
    ensures sizes { result ≡ true → (is_precision location.now.size ≡ true) × (is_precision location.now.horizontal ≡ true) × (is_precision location.now.vertical ≡ true) }
{
    is_angle(Axis::Latitude, location.latitude)
        && is_angle(Axis::Longitude, location.longitude)
        && is_precision(location.size)
        && is_precision(location.horizontal)
        && is_precision(location.vertical)
}

/// Returns `true` if an angle has no more degrees than it may have.
fn is_angle(axis: Axis, number: u32) -> bool
    ensures { result ≡ is_angle axis number }
{
    arc(number) <= max_degrees(axis) * DEGREE
}

/// Returns the arc between a number and the origin.
fn arc(number: u32) -> u32
    ensures is { result ≡ arc number }
    ensures few { result ≤ 2147483648 }
{
    if number < ORIGIN {
        ORIGIN - number
    } else {
        number - ORIGIN
    }
}

/// Returns `true` if a size is written as an octet.
fn is_precision(octet: u8) -> bool
    ensures { result ≡ is_precision octet }
{
    octet < 160 && octet % 16 < 10 && (octet >= 16 || octet == 0)
}

/// Appends the words of an angle.
fn write_angle(axis: Axis, number: u32, out: &mut String) -> Result<(), AllocError>
    ensures { IfOk result (λ _. string_bytes out.new ≡ string_bytes out.old ++ words_text (angle_words axis number)) }
{
    let arc = arc(number);
    write!(out, " {} {} ", arc / DEGREE, arc / MINUTE % 60)?;
    write_seconds(arc % MINUTE, out)?;
    out.push(' ')?;
    out.push(char::from(letter(axis, number)))?;
    Ok(())
}

/// Returns the letter of the side of the origin that a number is on.
fn letter(axis: Axis, number: u32) -> u8
    ensures is { result ≡ letter axis number }
    ensures ascii { result < 128 }
{
    if number < ORIGIN {
        negative_letter(axis)
    } else {
        positive_letter(axis)
    }
}

/// Appends thousandths of a second as seconds, with three digits after a point.
fn write_seconds(number: u32, out: &mut String) -> Result<(), AllocError>
    ensures { IfOk result (λ _. string_bytes out.new ≡ string_bytes out.old ++ thousandths_text number) }
{
    write!(
        out,
        "{}.{}{}{}",
        number / 1000,
        number / 100 % 10,
        number / 10 % 10,
        number % 10
    )
}

/// Appends an altitude after a space.
fn write_altitude(number: u32, out: &mut String) -> Result<(), AllocError>
    ensures { IfOk result (λ _. string_bytes out.new ≡ string_bytes out.old ++ 32 ∷ altitude_text number) }
{
    let number = u64::from(number);
    if number < DEPTH {
        out.push_str(" -")?;
        write_metres(DEPTH - number, out)?;
    } else {
        out.push(' ')?;
        write_metres(number - DEPTH, out)?;
    }
    out.push('m')?;
    Ok(())
}

/// Appends centimetres as metres, with two digits after a point.
fn write_metres(number: u64, out: &mut String) -> Result<(), AllocError>
    ensures { IfOk result (λ _. string_bytes out.new ≡ string_bytes out.old ++ hundredths_text number) }
{
    write!(out, "{}.{}{}", number / 100, number / 10 % 10, number % 10)
}

/// Appends a size after a space.
fn write_size(octet: u8, out: &mut String) -> Result<(), AllocError>
    requires { is_precision octet ≡ true }
    ensures { IfOk result (λ _. string_bytes out.new ≡ string_bytes out.old ++ 32 ∷ size_text octet) }
{
    out.push(' ')?;
    let number = centimetres(octet);
    if number < 100 {
        write_metres(number, out)?;
    } else {
        write!(out, "{}", number / 100)?;
    }
    out.push('m')?;
    Ok(())
}

/// Returns the centimetres that an octet stands for.
fn centimetres(octet: u8) -> u64
    requires { is_precision octet ≡ true }
    ensures { result ≡ size_of octet }
{
    let mut number = u64::from(octet / 16);
    'zeros: for _ in 0..octet % 16 {
        number *= 10;
    }
    number
}
