//! What the templates of `$GENERATE` make for a number.
ghost use Rattle.std.specs.Prelude.{◌≡◌, ◌≤◌, ◌++◌, drop, length, replicate, IfOk, IfErr};
ghost use Rattle.dnw_zone_file.specs.Templates.{as_unsigned, as_width, base_after, base_by_letter, base_of, braced, decimal_text, offset_from, dollar_len, dollar_text, dotted, kept_escape, fits_digit, len_before, made_text, modifier_of, minus_offset, digits_number, nibbles_text, number_in, offset_of, piece_len, piece_text, plus_offset, sum_with, text_before, text_from, zero_padded};
ghost use Rattle.dnw_zone_file.specs.Inside.Making.{FailsMade, IsMade};

use std::alloc::{AllocError, Global};

/// The greatest number that is read.
pub(crate) const MAX_NUMBER: u32 = 0x7fff_ffff;

/// The greatest width of a number.
const MAX_WIDTH: u32 = 127;

/// How a number is written.
#[derive(Clone, Copy)]
pub enum Base {
    /// In decimal.
    Decimal,
    /// In octal.
    Octal,
    /// In hexadecimal, with small letters.
    LowerHexadecimal,
    /// In hexadecimal, with capitals.
    UpperHexadecimal,
    /// As labels of hexadecimal digits, the last one first, with small letters.
    LowerNibbles,
    /// So with capitals.
    UpperNibbles,
}

/// A number with a sign.
#[derive(Clone, Copy)]
pub struct Offset {
    /// Whether it is below 0.
    pub is_negative: bool,
    /// The number without its sign.
    pub size: u32,
}

/// What is in the braces of `${offset,width,base}`.
#[derive(Clone, Copy)]
pub struct Modifier {
    /// What is added to the number.
    pub offset: Offset,
    /// How many characters are written, at least.
    pub width: u32,
    /// How the sum is written.
    pub base: Base,
}

/// Why a template makes no text.
#[derive(Debug, Drop)]
pub(crate) enum TemplateError {
    /// A modifier is none, or the sum has more than 31 bits.
    Modifier,
    /// An allocation failed.
    Memory,
}

impl From<AllocError> for TemplateError {
    ghost use Rattle.dnw_zone_file.specs.declared.template.TemplateError.TheVariants.{Memory};

    ghost from_gives = { λ error made. made ≡ Memory };

    fn from(_: AllocError) -> Self {
        TemplateError::Memory
    }
}

/// Returns the number that digits write, up to the greatest.
pub(crate) fn number_of(text: &[u8]) -> Option<u32>
    ensures { result ≡ digits_number text.now }
{
    if text.is_empty() {
        return None;
    }
    let mut number: u32 = 0;
    let mut left = text;
    while let Some((c, rest)) = left.split_first() {
        if !fits_digit(number, *c) {
            return None;
        }
        number = 10 * number + u32::from(*c - b'0');
        left = rest;
    }
    Some(number)
}

/// Returns `true` if an octet is a digit, and the number with it is no greater than the greatest.
fn fits_digit(number: u32, c: u8) -> bool
    ensures { result ≡ fits_digit number c }
{
    c.is_ascii_digit() && 10 * u64::from(number) + u64::from(c - b'0') <= u64::from(MAX_NUMBER)
}

/// Returns how many octets are before the first one of these.
fn len_before(octet: u8, text: &[u8]) -> usize
    ensures is { result ≡ len_before octet text.now }
    ensures within { result ≤ length text.now }
{
    let mut left = text;
    while let Some((c, rest)) = left.split_first() {
        if *c == octet {
            return text.len() - left.len();
        }
        left = rest;
    }
    text.len()
}

/// Splits a text before the first octet of these, if there is one.
pub(crate) fn split_before(octet: u8, text: &[u8]) -> (&[u8], &[u8])
    ensures before { result.0.now ≡ text_before octet text.now }
    ensures from { result.1.now ≡ text_from octet text.now }
{
    text.split_at(len_before(octet, text))
}

/// Returns the offset that a text is.
fn offset_of(text: &[u8]) -> Option<Offset>
    ensures { result ≡ offset_of text.now }
{
    let (first, rest) = text.split_first()?;
    match *first {
        b'-' => minus_offset(number_of(rest)),
        b'+' => plus_offset(number_of(rest)),
        _ => plus_offset(number_of(text)),
    }
}

/// Returns a number as one without a sign.
fn plus_offset(number: Option<u32>) -> Option<Offset>
    ensures { result ≡ plus_offset number }
{
    let size = number?;
    Some(Offset {
        is_negative: false,
        size,
    })
}

/// Returns a number as one below 0.
fn minus_offset(number: Option<u32>) -> Option<Offset>
    ensures { result ≡ minus_offset number }
{
    let size = number?;
    Some(Offset {
        is_negative: true,
        size,
    })
}

/// Returns a number if it is a width.
fn as_width(number: Option<u32>) -> Option<u32>
    ensures { result ≡ as_width number }
{
    let width = number?;
    if width <= MAX_WIDTH {
        Some(width)
    } else {
        None
    }
}

/// Returns the base that a text is, which is one letter.
fn base_of(text: &[u8]) -> Option<Base>
    ensures { result ≡ base_of text.now }
{
    match text {
        [letter] => base_by_letter(*letter),
        _ => None,
    }
}

/// Returns the base that a letter is.
fn base_by_letter(letter: u8) -> Option<Base>
    ensures { result ≡ base_by_letter letter }
{
    match letter {
        b'd' => Some(Base::Decimal),
        b'o' => Some(Base::Octal),
        b'x' => Some(Base::LowerHexadecimal),
        b'X' => Some(Base::UpperHexadecimal),
        b'n' => Some(Base::LowerNibbles),
        b'N' => Some(Base::UpperNibbles),
        _ => None,
    }
}

/// Returns the base that is after a comma, or decimal if nothing is there.
fn base_after(text: &[u8]) -> Option<Base>
    ensures { result ≡ base_after text.now }
{
    match text.split_first() {
        Some((_, text)) => base_of(text),
        None => Some(Base::Decimal),
    }
}

/// Returns the modifier that a text in braces is.
fn modifier_of(text: &[u8]) -> Option<Modifier>
    ensures { result ≡ modifier_of text.now }
{
    let (first, rest) = split_before(b',', text);
    let offset = offset_of(first)?;
    let Some((_, rest)) = rest.split_first() else {
        return Some(Modifier {
            offset,
            width: 0,
            base: Base::Decimal,
        });
    };
    let (second, third) = split_before(b',', rest);
    let width = as_width(number_of(second))?;
    let base = base_after(third)?;
    Some(Modifier {
        offset,
        width,
        base,
    })
}

/// Returns the sum of a number and an offset, if it has 31 bits at most.
fn sum_with(number: u32, offset: Offset) -> Option<Offset>
    ensures { result ≡ sum_with number offset }
{
    let size = offset.size;
    if offset.is_negative {
        return Some(difference(number, size));
    }
    let sum = u64::from(number) + u64::from(size);
    if sum <= u64::from(MAX_NUMBER) {
        let size = sum as u32;
        Some(Offset {
            is_negative: false,
            size,
        })
    } else {
        None
    }
}

/// Returns a number less another.
fn difference(number: u32, size: u32) -> Offset
    ensures { result ≡ offset_from number size }
{
    if size <= number {
        Offset {
            is_negative: false,
            size: number - size,
        }
    } else {
        Offset {
            is_negative: true,
            size: size - number,
        }
    }
}

/// Returns a number as one of 32 bits without a sign, which is the two's complement of a number below 0.
fn as_unsigned(number: Offset) -> u64
    ensures { result ≡ as_unsigned number }
{
    let size = u64::from(number.size);
    if number.is_negative {
        (1 << 32) - size
    } else {
        size
    }
}

/// Appends a number in a base, with zeros before it up to a width.
fn put_number(
    alloc: Global,
    base: Base,
    width: usize,
    number: Offset,
    out: &mut Vec<u8>,
) -> Result<(), AllocError>
    ensures { IfOk result (λ _. out.new.items ≡ out.old.items ++ number_in base width number) }
{
    let unsigned = as_unsigned(number);
    match base {
        Base::Decimal => put_decimal(alloc, width, number, out),
        Base::Octal => put_text(width, format!(in alloc; "{unsigned:o}")?.as_bytes(), out),
        Base::LowerHexadecimal => put_text(
            width,
            format!(in alloc; "{unsigned:x}")?.as_bytes(),
            out,
        ),
        Base::UpperHexadecimal => put_text(
            width,
            format!(in alloc; "{unsigned:X}")?.as_bytes(),
            out,
        ),
        Base::LowerNibbles => {
            put_nibbles(
                alloc,
                width,
                format!(in alloc; "{unsigned:x}")?.as_bytes(),
                out,
            )
        }
        Base::UpperNibbles => {
            put_nibbles(
                alloc,
                width,
                format!(in alloc; "{unsigned:X}")?.as_bytes(),
                out,
            )
        }
    }
}

/// Appends a number in decimal, with zeros after its sign.
fn put_decimal(
    alloc: Global,
    width: usize,
    number: Offset,
    out: &mut Vec<u8>,
) -> Result<(), AllocError>
    ensures { IfOk result (λ _. out.new.items ≡ out.old.items ++ decimal_text width number) }
{
    let size = number.size;
    let digits = format!(in alloc; "{size}")?;
    if number.is_negative {
        out.push(b'-')?;
        return put_text(width.saturating_sub(1), digits.as_bytes(), out);
    }
    put_text(width, digits.as_bytes(), out)
}

/// Appends a text, with zeros before it up to a width.
fn put_text(width: usize, text: &[u8], out: &mut Vec<u8>) -> Result<(), AllocError>
    ensures { IfOk result (λ _. out.new.items ≡ out.old.items ++ zero_padded width text.now) }
{
    put_zeros(width.saturating_sub(text.len()), out)?;
    out.extend_from_slice(text)
}

/// Appends so many zeros.
fn put_zeros(count: usize, out: &mut Vec<u8>) -> Result<(), AllocError>
    ensures { IfOk result (λ _. out.new.items ≡ out.old.items ++ replicate count 48) }
{
    let Some(len) = out.len().checked_add(count) else {
        return Err(AllocError);
    };
    out.resize(len, b'0')
}

/// Appends hexadecimal digits as labels, the last one first, with zeros after them up to a width. The last dot is left out unless the
/// width has it.
fn put_nibbles(
    alloc: Global,
    width: usize,
    text: &[u8],
    out: &mut Vec<u8>,
) -> Result<(), AllocError>
    ensures { IfOk result (λ _. out.new.items ≡ out.old.items ++ nibbles_text width text.now) }
{
    let mut digits = Vec::from_slice(alloc, text)?;
    digits.as_mut_slice().reverse();
    put_zeros(width.div_ceil(2).saturating_sub(text.len()), &mut digits)?;
    let mut labels = Vec::new(alloc);
    put_dotted(digits.as_slice(), &mut labels)?;
    labels.truncate(width.max(labels.len().saturating_sub(1)));
    out.extend_from_slice(labels.as_slice())
}

/// Appends digits, each with a dot after it.
fn put_dotted(digits: &[u8], out: &mut Vec<u8>) -> Result<(), AllocError>
    ensures { IfOk result (λ _. out.new.items ≡ out.old.items ++ dotted digits.now) }
{
    let mut left = digits;
    while let Some((digit, rest)) = left.split_first() {
        out.extend_from_slice(&[*digit, b'.'])?;
        left = rest;
    }
    Ok(())
}

/// Appends what a template makes for a number, in a quoted string or not. If it fails, some of it may be appended.
pub(crate) fn put_made(
    alloc: Global,
    number: u32,
    quoted: bool,
    template: &[u8],
    out: &mut Vec<u8>,
) -> Result<(), TemplateError>
    ensures ok { IfOk result (λ _. IsMade (made_text number quoted template.now) out.old.items out.new.items) }
    ensures err { IfErr result (FailsMade (made_text number quoted template.now)) }
{
    let mut left = template;
    'pieces: while let Some((first, rest)) = left.split_first() {
        match put_piece(alloc, number, quoted, *first, rest, out) {
            Ok(len) => left = left_after(len, rest),
            Err(error) => return Err(error),
        }
    }
    Ok(())
}

/// Returns what is left of a text after so many octets.
fn left_after(len: usize, text: &[u8]) -> &[u8]
    ensures is { result.now ≡ drop len text.now }
    ensures within { length result.now ≤ length text.now }
{
    &text[len.min(text.len())..]
}

/// Appends what an octet of a template and those after it stand for, and returns how many of these belong to it.
fn put_piece(
    alloc: Global,
    number: u32,
    quoted: bool,
    first: u8,
    rest: &[u8],
    out: &mut Vec<u8>,
) -> Result<usize, TemplateError>
    ensures ok { IfOk result (λ _. IsMade (piece_text number quoted first rest.now) out.old.items out.new.items) }
    ensures len { IfOk result (λ len. len ≡ piece_len first rest.now) }
    ensures err { IfErr result (FailsMade (piece_text number quoted first rest.now)) }
{
    match first {
        b'\\' => put_escape(quoted, rest, out)?,
        b'$' => put_dollar(alloc, number, rest, out)?,
        _ => out.extend_from_slice(&[first])?,
    }
    Ok(piece_len(first, rest))
}

/// Returns how many octets belong to an octet of a template.
fn piece_len(first: u8, rest: &[u8]) -> usize
    ensures { result ≡ piece_len first rest.now }
{
    match first {
        b'\\' => 1,
        b'$' => dollar_len(rest),
        _ => 0,
    }
}

/// Returns how many octets belong to a `$`.
fn dollar_len(rest: &[u8]) -> usize
    ensures { result ≡ dollar_len rest.now }
{
    match rest.split_first() {
        Some((b'$', _)) => 1,
        Some((b'{', inner)) => 2 + len_before(b'}', inner),
        _ => 0,
    }
}

/// Appends an escape, or the quote that it stands for in a quoted string.
fn put_escape(quoted: bool, rest: &[u8], out: &mut Vec<u8>) -> Result<(), AllocError>
    ensures { IfOk result (λ _. out.new.items ≡ out.old.items ++ kept_escape quoted rest.now) }
{
    match rest.first() {
        Some(b'"') if quoted => out.extend_from_slice(b"\""),
        Some(c) => out.extend_from_slice(&[b'\\', *c]),
        None => out.extend_from_slice(b"\\"),
    }
}

/// Appends what a `$` stands for.
fn put_dollar(
    alloc: Global,
    number: u32,
    rest: &[u8],
    out: &mut Vec<u8>,
) -> Result<(), TemplateError>
    ensures ok { IfOk result (λ _. IsMade (dollar_text number rest.now) out.old.items out.new.items) }
    ensures err { IfErr result (FailsMade (dollar_text number rest.now)) }
{
    match rest.split_first() {
        Some((b'$', _)) => Ok(out.extend_from_slice(b"\\$")?),
        Some((b'{', inner)) => put_modified(alloc, number, inner, out),
        _ => Ok(out.extend_from_slice(format!(in alloc; "{number}")?.as_bytes())?),
    }
}

/// Appends what a `${` stands for, with the modifier that is after it.
fn put_modified(
    alloc: Global,
    number: u32,
    inner: &[u8],
    out: &mut Vec<u8>,
) -> Result<(), TemplateError>
    ensures ok { IfOk result (λ _. IsMade (braced number (text_before 125 inner.now) (text_from 125 inner.now)) out.old.items out.new.items) }
    ensures err { IfErr result (FailsMade (braced number (text_before 125 inner.now) (text_from 125 inner.now))) }
{
    let (inner, rest) = split_before(b'}', inner);
    if rest.is_empty() {
        return Err(TemplateError::Modifier);
    }
    let Some(modifier) = modifier_of(inner) else {
        return Err(TemplateError::Modifier);
    };
    let Some(sum) = sum_with(number, modifier.offset) else {
        return Err(TemplateError::Modifier);
    };
    Ok(put_number(alloc, modifier.base, modifier.width as usize, sum, out)?)
}
