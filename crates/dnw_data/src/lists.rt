//! Lists that the data of a record end with: character strings, windows of record types, service parameters, address prefixes,
//! names.
ghost use Rattle.std.specs.Prelude.{◌≡◌, ◌≤◌, ◌<◌, length, take, None, Some, IfOk, IfErr, IsTrue};
ghost use Rattle.dnw_data.specs.Lists.{tag_of, count_of, item_size, may_come, out_of_order, item_fault, list_fault};
ghost use Rattle.dnw_data.specs.Prefixes.{family_of, is_prefix, prefix_fault};
ghost use Rattle.dnw_data.specs.Inside.Heads.{IsItemHead};

use crate::kind::ListKind;
use crate::whole_name::{check_name, name_size};
use dnw_base::error::DecodeError;
use dnw_base::limits::MAX_WINDOW;
use std::marker::Model;

/// A list whose items are whole and in order.
///
/// A contract sees it as its kind and the octets that are left of it.
#[derive(Drop)]
pub struct Items<'r> {
    kind: ListKind,
    octets: &'r [u8],
}

impl<'r> Model for Items<'r> {
    ghost use Rattle.dnw_data.specs.Lists.{ItemsValue};
    ghost use Rattle.dnw_data.specs.Inside.Checking.{IsChecked};

    ghost Value = { ItemsValue };

    ghost view = { λ items. record { kind = items.kind; octets = items.octets.now } };

    ghost invariant = { λ items. IsChecked items.kind items.octets.now };
}

impl<'r> Items<'r> {
    /// Creates the list that these octets are. It fails with `InsufficientBytes` if they end within an item, with
    /// `NsecBitmapOutOfBounds` if a window does not come after the one before or does not have 1 to 32 octets, with
    /// `SvcParamsOutOfOrder` if a parameter does not come after the one before, with `UnknownAddressFamily` if a prefix is
    /// longer than an address of its family or ends with a zero, and with `UnrecognizedLabelCode` or `DomainNameTooLong` if
    /// a name has a pointer or more than 255 octets.
    pub fn new(kind: ListKind, octets: &'r [u8]) -> Result<Self, DecodeError>
        ensures ok { IfOk result (λ items. (list_fault kind octets.now ≡ None) × (items ≡ record { kind = kind; octets = octets.now })) }
        ensures err { IfErr result (λ e. list_fault kind octets.now ≡ Some e) }
    {
        check(kind, octets)?;
        Ok(Items { kind, octets })
    }

    /// Returns an iterator over the items that are left, and leaves this one where it is.
    #[inline(always)]
    pub fn iter(&self) -> Items<'r>
        ensures { result ≡ self.now }
    {
        Items {
            kind: self.kind,
            octets: self.octets,
        }
    }

    /// Returns what the items are.
    #[inline(always)]
    pub fn kind(&self) -> ListKind
        ensures { result ≡ self.now.kind }
    {
        self.kind
    }

    /// Returns the octets of the items that are left, as they are in the message: whole items in order.
    #[inline(always)]
    pub fn as_bytes(&self) -> &'r [u8]
        ensures octets { result.now ≡ self.now.octets }
        ensures right { list_fault self.now.kind self.now.octets ≡ None }
    {
        self.octets
    }
}

/// An item of a list: a character string, a window of record types, a service parameter, an address prefix, or a name.
#[derive(Clone, Copy, Debug)]
pub struct Item<'r> {
    /// The number of a window, the key of a parameter, or the family of a prefix. It is 0 for a character string and a name.
    pub tag: u16,
    /// The octets of the string, of the window's bitmap, of the parameter's value, of the prefix after its family, or of the
    /// name.
    pub octets: &'r [u8],
}

impl<'r> Iterator for Items<'r> {
    ghost use Rattle.std.specs.Prelude.{length};
    ghost use Rattle.std.specs.Iterator.{at_most};
    ghost use Rattle.dnw_data.specs.Items.{NextItem};

    type Item = Item<'r>;

    ghost next_gives = { NextItem };

    ghost remaining = { λ items. at_most (length items.octets) };

    fn next(&mut self) -> Option<Item<'r>> {
        if self.octets.is_empty() {
            return None;
        }
        let head = head_of(self.kind, self.octets).unwrap();
        let octets = &self.octets[head.size - head.count..head.size];
        self.octets = &self.octets[head.size..];
        Some(Item {
            tag: head.tag,
            octets,
        })
    }
}

/// What is before the octets of an item.
#[derive(Clone, Copy)]
struct Head {
    tag: u16,
    count: usize,
    size: usize,
}

/// Checks that the octets are items in order.
fn check(kind: ListKind, octets: &[u8]) -> Result<(), DecodeError>
    ensures ok { IfOk result (λ _. list_fault kind octets.now ≡ None) }
    ensures err { IfErr result (λ e. list_fault kind octets.now ≡ Some e) }
{
    let mut left = octets;
    let mut least = 0u32;
    'items: while !left.is_empty() {
        let head = head_of(kind, left)?;
        if !may_come(kind, least, head) {
            return Err(out_of_order(kind));
        }
        check_item(kind, &left[..head.size])?;
        least = head.tag as u32 + 1;
        left = &left[head.size..];
    }
    Ok(())
}

/// Returns what is before the octets of the first item. It fails if the octets end within the item.
fn head_of(kind: ListKind, octets: &[u8]) -> Result<Head, DecodeError>
    ensures ok { IfOk result (λ head. IsItemHead kind octets.now head × (item_size kind octets.now ≤ length octets.now)) }
    ensures err { IfErr result (λ e. (length octets.now < item_size kind octets.now) × (e ≡ DecodeError.InsufficientBytes)) }
{
    let (tag, count, size) = match (kind, octets) {
        (ListKind::Texts, [count, ..]) => (0, *count as usize, 1),
        (ListKind::Types, [window, count, ..]) => (*window as u16, *count as usize, 2),
        (ListKind::Params, [a, b, c, d, ..]) => (
            u16::from_be_bytes([*a, *b]),
            u16::from_be_bytes([*c, *d]) as usize,
            4,
        ),
        (ListKind::Prefixes, [high, low, _, len, ..]) => (
            u16::from_be_bytes([*high, *low]),
            2 + (*len % 128) as usize,
            2,
        ),
        (ListKind::Names, _) => (0, name_size(octets), 0),
        _ => return Err(DecodeError::InsufficientBytes),
    };
    if octets.len() < size + count {
        return Err(DecodeError::InsufficientBytes);
    }
    Ok(Head {
        tag,
        count,
        size: size + count,
    })
}

/// Returns `true` if an item with this head may come, and none below the least may.
fn may_come(kind: ListKind, least: u32, head: Head) -> bool
    ensures { result ≡ may_come kind least head.tag head.count }
{
    match kind {
        ListKind::Texts => true,
        ListKind::Types => {
            least <= head.tag as u32 && 1 <= head.count && head.count <= MAX_WINDOW
        }
        ListKind::Params => least <= head.tag as u32,
        ListKind::Prefixes | ListKind::Names => true,
    }
}

/// Returns the error for an item that may not come.
fn out_of_order(kind: ListKind) -> DecodeError
    ensures { result ≡ out_of_order kind }
{
    match kind {
        ListKind::Types => DecodeError::NsecBitmapOutOfBounds,
        ListKind::Params => DecodeError::SvcParamsOutOfOrder,
        ListKind::Texts | ListKind::Prefixes | ListKind::Names => DecodeError::InsufficientBytes,
    }
}

/// Checks the octets of one item.
fn check_item(kind: ListKind, own: &[u8]) -> Result<(), DecodeError>
    requires { kind ≡ ListKind.Prefixes → 4 ≤ length own.now }
    ensures ok { IfOk result (λ _. item_fault kind own.now ≡ None) }
    ensures err { IfErr result (λ e. item_fault kind own.now ≡ Some e) }
{
    match kind {
        ListKind::Prefixes => check_prefix(own),
        ListKind::Names => check_name(own),
        ListKind::Texts | ListKind::Types | ListKind::Params => Ok(()),
    }
}

/// Checks the octets of a prefix.
fn check_prefix(own: &[u8]) -> Result<(), DecodeError>
    requires { 4 ≤ length own.now }
    ensures ok { IfOk result (λ _. prefix_fault own.now ≡ None) }
    ensures err { IfErr result (λ e. prefix_fault own.now ≡ Some e) }
{
    let family = u16::from_be_bytes([own[0], own[1]]);
    if is_prefix(family, own) {
        return Ok(());
    }
    Err(DecodeError::UnknownAddressFamily(family))
}

/// Returns `true` if octets are a prefix of this family, and do not end with a zero.
fn is_prefix(family: u16, own: &[u8]) -> bool
    requires size { 4 ≤ length own.now }
    requires family { family ≡ family_of own.now }
    ensures { result ≡ is_prefix own.now }
{
    let (bits, octets) = match family {
        1 => (32, 4),
        2 => (128, 16),
        _ => (255, 127),
    };
    let ends_in_zero = own.len() > 4 && own[own.len() - 1] == 0;
    own[2] <= bits && own.len() <= 4 + octets && !ends_in_zero
}
