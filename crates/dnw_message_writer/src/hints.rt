//! Where suffixes of names may stand in a message: a table that is only ever believed after reading.
ghost use Rattle.std.specs.Prelude.{◌≡◌, ◌≤◌, ◌<◌, ◌+◌, ◌/◌, length};
ghost use Rattle.dnw_message_writer.specs.Hints.{eight_at, eights_from, hash_of, mixed, mixed_eight, slot_of_form};

/// How many hints there are, two for each slot. Each is an offset of the message, or 0 if there is none.
pub const SLOTS: usize = 512;

/// How far after the later hint of a slot the former one is, which it took the place of.
pub(crate) const FORMER: usize = 256;

/// The hash of a short form is multiplied by this number for each octet.
const FACTOR: u32 = 2_654_435_761;

/// The hash of a long form is multiplied by this number for each eight octets.
const LONG_FACTOR: u64 = 11_400_714_819_323_198_485;

/// Returns the slot for the wire form of a suffix.
#[inline(always)]
pub(crate) fn slot_of(form: &[u8]) -> usize
    ensures slot { result ≡ slot_of_form form.now }
    ensures there { result < 256 }
{
    if form.len() < 8 {
        return (hash_of(form) >> 24) as usize;
    }
    let last = eight_at(form, form.len() - 8);
    (mixed_eight(hash_of_eights(form), last) >> 56) as usize
}

/// Returns the hash of the octets of a long form, eight at a time, but for those of the last eight that are left then.
#[inline(always)]
fn hash_of_eights(form: &[u8]) -> u64
    ensures { result ≡ eights_from (length form.now / 8) 0 form.now (length form.now) }
{
    let count = form.len() / 8;
    let mut hash = form.len() as u64;
    let mut index = 0;
    'eights: while index < count {
        hash = mixed_eight(hash, eight_at(form, 8 * index));
        index += 1;
    }
    hash
}

/// Returns the number that eight octets are.
#[inline(always)]
fn eight_at(octets: &[u8], at: usize) -> u64
    requires { at + 8 ≤ length octets.now }
    ensures { result ≡ eight_at octets.now at }
{
    let eight = &octets[at..at + 8];
    u64::from_be_bytes(*eight.first_chunk::<8>().unwrap())
}

/// Returns the hash of a long form with eight more octets.
#[inline(always)]
fn mixed_eight(hash: u64, eight: u64) -> u64
    ensures { result ≡ mixed_eight hash eight }
{
    hash.wrapping_add(eight).wrapping_mul(LONG_FACTOR)
}

/// Returns the hash of a short form, from its last octet to its first.
#[inline(always)]
fn hash_of(octets: &[u8]) -> u32
    ensures { result ≡ hash_of octets.now }
{
    let mut hash = 0;
    let mut index = octets.len();
    'octets: while index > 0 {
        index -= 1;
        hash = mixed(hash, octets[index]);
    }
    hash
}

/// Returns the hash with one more octet before the others.
#[inline(always)]
fn mixed(hash: u32, octet: u8) -> u32
    ensures { result ≡ mixed hash octet }
{
    hash.wrapping_mul(FACTOR).wrapping_add(u32::from(octet))
}
