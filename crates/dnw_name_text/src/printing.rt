//! Names printed (RFC 1035, section 5.1).
ghost use Rattle.std.specs.Prelude.{◌≡◌, ◌≢◌, ◌+◌, ◌-◌, ◌*◌, ◌≤◌, ◌<◌, [], ◌++◌, length, drop, map, IsTrue, IfSome, IfNone};
ghost use Rattle.std.specs.List.{AllByRecursion, join_with_byte, list_all};
ghost use Rattle.arrayvec.specs.ArrayString.{array_string_len};
ghost use Rattle.dnw_base.specs.Limits.{max_name};
ghost use Rattle.dnw_base.specs.Labels.{IsLabel};
ghost use Rattle.dnw_base.specs.Names.{encoded_size, wire};
ghost use Rattle.dnw_name_form.specs.LabelText.{dot};
ghost use Rattle.dnw_name_text.specs.AsciiText.{max_text};
ghost use Rattle.dnw_name_text.specs.Inside.Plain.{plain_text};
ghost use Rattle.dnw_name_text.specs.PlainNames.{is_plain_label, is_plain_name};
ghost use Rattle.dnw_name_text.specs.NameTexts.{is_special, full_name_text, name_octet, label_octets, labels_text, text_of_name};

pub use crate::ascii::MAX_TEXT;
use crate::plain::are_own;
use arrayvec::ArrayString;
use dnw_name_form::wire_labels::WireLabels;

/// Writes the text of the name with these labels: a dot after each if it is fully qualified, or else between them. The root is `.`, and
/// the relative name without labels `@`.
///
/// A quote, `$`, `(`, `)`, `.`, `;`, `@` and a backslash are written after a backslash, and octets that are not printable ASCII as
/// `\DDD` in decimal. So a space is `\032`.
#[tactic(auto, using(crate::proofs::Joining::full_text))]
pub fn push_name(out: &mut ArrayString<MAX_TEXT>, labels: WireLabels<'_>, is_fqdn: bool)
    requires { out.old.bytes ≡ [] }
    ensures { out.new.bytes ≡ text_of_name (record { is_fqdn = is_fqdn; labels = labels.entry }) }
{
    // The proof reads here that the labels fit together.
    let form = labels.as_wire();
    if form.len() == 1 {
        out.push(if is_fqdn { '.' } else { '@' });
        return;
    }
    push_labels(out, labels);
    if is_fqdn {
        out.push('.');
    }
}

/// Puts the text of the fully qualified name with these labels at the front of a buffer, and returns its length, if the name is plain
/// and the text fits: there are labels, and each of their octets stands for itself. Else it returns `None`, and the buffer is unchanged.
///
/// Such a text is the wire form after its first octet, with dots in the place of the other lengths and of the zero. So it is copied in
/// one piece, and takes fewer instructions than `push_name`.
pub fn put_plain_text(out: &mut [u8], labels: WireLabels<'_>) -> Option<usize>
    ensures some { IfSome result (λ len. (len ≡ length (full_name_text labels.entry)) × (len ≤ length out.old)
        × (out.new ≡ full_name_text labels.entry ++ drop len out.old)) }
    ensures plain { IfSome result (λ len. IsTrue (is_plain_name labels.entry)) }
    ensures none { IfNone result ((out.new ≡ out.old)
        × (IsTrue (is_plain_name labels.entry) → length out.old < length (full_name_text labels.entry))) }
{
    let form = labels.as_wire();
    let len = form.len() - 1;
    if len == 0 || len > out.len() || !are_plain(labels.clone()) {
        return None;
    }
    out[..len].copy_from_slice(&form[1..]);
    put_dots(out, labels);
    Some(len)
}

/// Returns `true` if each octet of the labels stands for itself.
#[tactic(auto, using(crate::proofs::PlainNames::plain_labels))]
fn are_plain(mut labels: WireLabels<'_>) -> bool
    ensures plain { result ≡ list_all is_plain_label labels.entry }
    ensures text { IsTrue result → labels_text labels.entry ≡ plain_text labels.entry }
{
    'labels: while let Some(label) = labels.next() {
        if !are_own(label) {
            return false;
        }
    }
    true
}

/// Puts a dot after each label of a wire form whose octets after the first one are at the front of a buffer.
#[inline(always)]
fn put_dots(out: &mut [u8], mut labels: WireLabels<'_>)
    requires { out.old ≡ drop 1 (wire labels) ++ drop (length (wire labels) - 1) out.old }
    ensures { out.new ≡ plain_text labels.entry ++ drop (length (wire labels.entry) - 1) out.old }
{
    let mut end = 0;
    'labels: while let Some(label) = labels.next() {
        end += label.len();
        out[end] = b'.';
        end += 1;
    }
}

/// Writes labels with dots between them.
fn push_labels(out: &mut ArrayString<MAX_TEXT>, mut labels: WireLabels<'_>)
    requires empty { out.old.bytes ≡ [] }
    requires labels { AllByRecursion IsLabel labels }
    requires fit { encoded_size labels ≤ max_name }
    ensures text { out.new.bytes ≡ join_with_byte dot (map label_octets labels.entry) }
    ensures room { array_string_len out.new < max_text }
{
    let Some(first) = labels.next() else {
        return;
    };
    push_label(out, first);
    while let Some(label) = labels.next() {
        out.push('.');
        push_label(out, label);
    }
}

/// Appends a label.
fn push_label<const N: usize>(out: &mut ArrayString<N>, label: &[u8])
    requires { array_string_len out.old + 4 * length label.now ≤ N }
    ensures text { out.new.bytes ≡ out.old.bytes ++ label_octets label.now }
    ensures room { array_string_len out.new ≤ array_string_len out.old + 4 * length label.now }
{
    for octet in label {
        push_octet(out, *octet);
    }
}

/// Appends an octet of a label. Small letters come first, since most octets are.
fn push_octet<const N: usize>(out: &mut ArrayString<N>, octet: u8)
    requires { array_string_len out.old + 4 ≤ N }
    ensures text { out.new.bytes ≡ out.old.bytes ++ name_octet octet }
    ensures room { array_string_len out.new ≤ array_string_len out.old + 4 }
{
    if octet.is_ascii_lowercase() {
        out.push(char::from(octet));
    } else if !octet.is_ascii_graphic() {
        out.push('\\');
        out.push(char::from(b'0' + octet / 100));
        out.push(char::from(b'0' + octet / 10 % 10));
        out.push(char::from(b'0' + octet % 10));
    } else if is_special(octet) {
        out.push('\\');
        out.push(char::from(octet));
    } else {
        out.push(char::from(octet));
    }
}

/// Returns `true` if a character means something else in a master file.
fn is_special(octet: u8) -> bool
    ensures { result ≡ is_special octet }
{
    matches!(
        octet,
        b'"' | b'$' | b'(' | b')' | b'.' | b';' | b'@' | b'\\'
    )
}
