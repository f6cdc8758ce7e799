//! The texts of codes without a name.
ghost use Rattle.std.specs.Prelude.{◌≡◌, ℕ, ◌≤◌, List, ◌∷◌, length, None, IfSome, IfNone};
ghost use Rattle.std.specs.Str.{str_eq_ignore_ascii_case};
ghost use Rattle.dnw_base.specs.CodeTexts.{code_after, decimal_after, decimal_code, numbered};

use arrayvec::ArrayString;
use itoa::Buffer;

/// The length of the longest texts of a type or a class, as `CLASS65535`, in bytes.
pub const MAX_CODE_TEXT: usize = 10;

/// The text of a type or a class.
pub type CodeText = ArrayString<MAX_CODE_TEXT>;

/// Returns the text of a code without a name.
pub(crate) fn numbered(word: &str, code: u16) -> CodeText
    requires { length word.now ≤ 5 }
    ensures { result.bytes ≡ numbered word.now code }
{
    let mut text = named(word);
    text.push_str(Buffer::new().format(code));
    text
}

/// Returns the text of a code with a name.
pub(crate) fn named(name: &str) -> CodeText
    requires { length name.now ≤ 10 }
    ensures { result.bytes ≡ name.now }
{
    let mut text = CodeText::new();
    text.push_str(name);
    text
}

/// Returns the code that follows a word, in upper or lower case, in decimal digits.
pub(crate) fn code_after(word: &str, text: &str) -> Option<u16>
    ensures { result ≡ code_after word.now text.now }
{
    let (front, digits) = text.as_bytes().split_at_checked(word.len())?;
    if is_alike(front, word.as_bytes()) {
        decimal_code(digits)
    } else {
        None
    }
}

/// Returns `true` if two texts are the same but for upper and lower case.
pub(crate) fn is_alike(text: &[u8], other: &[u8]) -> bool
    ensures { result ≡ str_eq_ignore_ascii_case text.now other.now }
{
    text.eq_ignore_ascii_case(other)
}

/// Returns the code of decimal digits.
fn decimal_code(digits: &[u8]) -> Option<u16>
    ensures { result ≡ decimal_code digits.now }
{
    if digits.is_empty() {
        return None;
    }
    let mut code: u16 = 0;
    for i in 0..digits.len() {
        code = with_digit(code, digits[i])?;
    }
    Some(code)
}

/// Returns the number with one more digit.
#[tactic(auto, using(crate::proofs::Digits::past_codes))]
fn with_digit(number: u16, digit: u8) -> Option<u16>
    ensures some { IfSome result (λ longer. (rest : List ℕ) → decimal_after longer rest ≡ decimal_after number (digit ∷ rest)) }
    ensures none { IfNone result ((rest : List ℕ) → decimal_after number (digit ∷ rest) ≡ None) }
{
    if !digit.is_ascii_digit() {
        return None;
    }
    number.checked_mul(10)?.checked_add(u16::from(digit - b'0'))
}
