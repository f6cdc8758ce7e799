//! Records and directives written after other entries of a zone file, by what these say.
ghost use Rattle.std.specs.Prelude.{◌≡◌, ◌≢◌, ◌↔◌, ℕ, true, List, [], ◌∷◌, ◌++◌, IsTrue, IfOk, OnOk, OnErr, Some, string_bytes};
ghost use Rattle.dnw_name_order.specs.Order.{IsZoneOfCase};
ghost use Rattle.dnw_name_text.specs.NameTexts.{relative_name_text};
ghost use Rattle.dnw_zone_file.specs.Inside.ShortTexts.{before_ending};
ghost use Rattle.dnw_zone_file.specs.ShortLines.{AppendsOrigin, AppendsShort, AppendsTtl, IsBefore, IsShortOwner, IsShortText, origin_line, short_head, short_line, short_rest, short_ttl, ttl_line};

use crate::context::Context;
use crate::entry::note;
use crate::head::Head;
use dnw_name::name::Name;
use dnw_name_order::order::eq_labels_case;
use dnw_record::record_ref::RecordRef;
use dnw_zone_data::data_text::data_text;
use std::alloc::{AllocError, Global};

/// Appends a record to a zone file, after the entries that made the context, and leaves out what these say (RFC 1035, section 5.1;
/// RFC 2308, section 4): the owner, if it is that of the last record; the last labels of another owner, if they are those of the
/// origin; and the time to live, if it is that of the last `$TTL`. The context is then that of a reader after the record.
///
/// Capitals count: a name that differs in them alone is written in full. It fails only if it runs out of memory. The text and the
/// context are unchanged then.
pub fn append_short_record(
    alloc: Global,
    context: &mut Context,
    record: &RecordRef<'_>,
    out: &mut Vec<u8>,
) -> Result<(), AllocError>
    ensures ok { OnOk result (AppendsShort context.old «record».now out.old.items out.new.items context.new) }
    ensures err { OnErr result ((out.new.items ≡ out.old.items) × (context.new ≡ context.old)) }
{
    let owner = owner_of(alloc, record);
    let ttl = short_ttl(context.default_ttl, record.ttl());
    let line = short_line(alloc, context, &owner, ttl, record)?;
    out.extend_from_slice(line.as_slice())?;
    let head = Head {
        ttl,
        class: Some(record.class()),
        record_type: record.record_type(),
    };
    note(alloc, context, owner.wire_labels(), head);
    Ok(())
}

/// Appends an `$ORIGIN` to a zone file, with the name in full. The context is then that of a reader after it, who takes the name for
/// fully qualified.
///
/// It fails only if it runs out of memory. The text and the context are unchanged then.
pub fn append_origin(
    alloc: Global,
    context: &mut Context,
    origin: &Name,
    out: &mut Vec<u8>,
) -> Result<(), AllocError>
    ensures ok { OnOk result (AppendsOrigin context.old origin.now out.old.items out.new.items context.new) }
    ensures err { OnErr result ((out.new.items ≡ out.old.items) × (context.new ≡ context.old)) }
{
    let origin = qualified(origin);
    let name = origin.to_text(alloc)?;
    let mut line = String::new(alloc);
    write!(line, "$ORIGIN {}\n", name.as_str())?;
    out.extend_from_slice(line.as_bytes())?;
    context.origin = origin;
    Ok(())
}

/// Appends a `$TTL` to a zone file, in seconds. The context is then that of a reader after it.
///
/// It fails only if it runs out of memory. The text and the context are unchanged then.
pub fn append_ttl(
    alloc: Global,
    context: &mut Context,
    ttl: u32,
    out: &mut Vec<u8>,
) -> Result<(), AllocError>
    ensures ok { OnOk result (AppendsTtl context.old ttl out.old.items out.new.items context.new) }
    ensures err { OnErr result ((out.new.items ≡ out.old.items) × (context.new ≡ context.old)) }
{
    let mut line = String::new(alloc);
    write!(line, "$TTL {ttl}\n")?;
    out.extend_from_slice(line.as_bytes())?;
    context.default_ttl = Some(ttl);
    Ok(())
}

/// Returns the owner of a record.
fn owner_of(alloc: Global, record: &RecordRef<'_>) -> Name
    ensures { result ≡ record { is_fqdn = true; labels = «record».now.owner } }
{
    record.owner().to_name(alloc).unwrap()
}

/// Returns the time to live that is written of a record: none, if it is that of the last `$TTL`.
fn short_ttl(known: Option<u32>, ttl: u32) -> Option<u32>
    ensures { result ≡ short_ttl known ttl }
{
    match known {
        Some(known) if known == ttl => None,
        _ => Some(ttl),
    }
}

/// Returns the line of a record with this owner and time to live.
fn short_line(
    alloc: Global,
    context: &Context,
    owner: &Name,
    ttl: Option<u32>,
    record: &RecordRef<'_>,
) -> Result<Vec<u8>, AllocError>
    ensures { IfOk result (λ line. IsShortText context.now owner.now.labels ttl «record».now line.items) }
{
    let text = data_text(alloc, record)?;
    let rest = short_rest(alloc, ttl, record, text.as_str())?;
    let mut line = owner_text(alloc, context, owner)?;
    line.extend_from_slice(rest.as_bytes())?;
    Ok(line)
}

/// Returns what is after the owner in the line of a record whose data have this text.
fn short_rest(
    alloc: Global,
    ttl: Option<u32>,
    record: &RecordRef<'_>,
    text: &str,
) -> Result<String, AllocError>
    ensures { IfOk result (λ rest. string_bytes rest ≡ short_rest ttl «record».now text.now ++ 10 ∷ []) }
{
    let class = record.class().to_text();
    let record_type = record.record_type().to_text();
    let mut rest = String::new(alloc);
    if let Some(ttl) = ttl {
        write!(rest, " {ttl}")?;
    }
    write!(rest, " {} {}", class.as_str(), record_type.as_str())?;
    if !text.is_empty() {
        write!(rest, " {text}")?;
    }
    rest.push('\n')?;
    Ok(rest)
}

/// Returns the text of an owner: none, if it is that of the last record.
fn owner_text(alloc: Global, context: &Context, owner: &Name) -> Result<Vec<u8>, AllocError>
    ensures { IfOk result (λ text. IsShortOwner context.now owner.now.labels text.items) }
{
    if is_owner_before(context, owner) {
        return Ok(Vec::new(alloc));
    }
    let origin = &context.origin;
    if has_no_labels(origin) || !origin.zone_of_case(owner) {
        let whole = qualified(owner).to_text(alloc)?;
        return Vec::from_slice(alloc, whole.as_bytes());
    }
    let text = shortened(alloc, owner, origin)?;
    Ok(text)
}

/// Returns the text of a name that ends with an origin, without that.
fn shortened(alloc: Global, name: &Name, origin: &Name) -> Result<Vec<u8>, AllocError>
    requires some { origin.now.labels ≢ [] }
    requires ends { IsZoneOfCase origin.now.labels name.now.labels }
    ensures { IfOk result (λ text. (front : List (List ℕ)) × IsBefore origin.now.labels name.now.labels front × (text.items ≡ relative_name_text front)) }
{
    let whole = qualified(name).to_text(alloc)?;
    let ending = qualified(origin).to_text(alloc)?;
    let size = ending.as_bytes().len();
    let text = Vec::from_slice(alloc, before_ending(whole.as_bytes(), size))?;
    Ok(text)
}

/// Returns `true` if a name has no labels.
#[tactic(auto, using(dnw_base::proofs::Wires::no_labels_size))]
fn has_no_labels(name: &Name) -> bool
    ensures { IsTrue result ↔ (name.now.labels ≡ []) }
{
    name.encoded_len() == 1
}

/// Returns `true` if a name is the owner of the last record, with capitals as they are.
fn is_owner_before(context: &Context, owner: &Name) -> bool
    ensures { IsTrue result ↔ (context.now.owner ≡ Some owner.now.labels) }
{
    match &context.owner {
        Some(last) => eq_labels_case(last.labels(), owner.wire_labels()),
        None => false,
    }
}

/// Returns the text of a name without that of the origin at its end, which has this size, and the dot before it.
fn before_ending(whole: &[u8], size: usize) -> &[u8]
    ensures { result.now ≡ before_ending whole.now size }
{
    if whole.len() <= size {
        return b"@";
    }
    &whole[..whole.len() - size - 1]
}

/// Returns the fully qualified name with the same labels.
fn qualified(name: &Name) -> Name
    ensures { result ≡ record { is_fqdn = true; labels = name.now.labels } }
{
    let mut whole = name.copied();
    whole.set_fqdn(true);
    whole
}
