//! Sort keys of names, by their wire forms.
ghost use Rattle.dnw_name_order.specs.SortKeys.{max_sort_key, sort_key};
ghost use Rattle.dnw_c_base.specs.Results.{Returns};
ghost use Rattle.dnw_c_names.specs.NameCalls.{PutsOfForm};

use crate::wire_form::labels_of;
use dnw_c_base::buffer::put;
use dnw_c_base::failure::Failure;
use dnw_c_base::results::report;
use dnw_name_order::sort_key::{self, MAX_SORT_KEY_LENGTH};

/// Puts the sort key of a name, and its length. It does not allocate.
#[unsafe(no_mangle)]
pub extern "C" fn dnw_name_sort_key(form: &[u8], key: &mut [u8], len: &mut usize) -> u32
    ensures { Returns (PutsOfForm max_sort_key sort_key form.now key.old key.new) len.old len.new result }
{
    report(put_key(form, key), len)
}

/// Puts the sort key of the name with a wire form, and returns its length.
fn put_key(form: &[u8], key: &mut [u8]) -> Result<usize, Failure>
    ensures { PutsOfForm max_sort_key sort_key form.now key.old key.new result }
{
    let labels = labels_of(form)?;
    let mut buffer = [0; MAX_SORT_KEY_LENGTH];
    put(key, sort_key::of_labels(labels, &mut buffer))
}
