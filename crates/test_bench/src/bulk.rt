//! Many names in memory, in canonical order: as a vector of names, and as a table of wire forms.
ghost use Rattle.std.specs.Prelude.{◌≡◌};

use crate::{FAILURE, names_of};
use dns_names_wire::name::Name;
use std::alloc::Global;
use uses::table::{NameTable, PushError};

/// Looks each name up among all of them, which have to be in canonical order: its number, from 1.
#[unsafe(no_mangle)]
pub extern "C" fn dnw_find_names(alloc: Global, names: &[u8], count: u64) -> u64
    ensures idle { count ≡ 0 → result ≡ 0 }
{
    let Ok(names) = names_of(alloc, names) else {
        return 0;
    };
    let mut sum = 0u64;
    for _round in 0..count {
        sum = sum.wrapping_add(find_each(names.as_slice()));
    }
    sum
}

/// Goes through the names: their encoded lengths.
#[unsafe(no_mangle)]
pub extern "C" fn dnw_list_names(alloc: Global, names: &[u8], count: u64) -> u64
    ensures idle { count ≡ 0 → result ≡ 0 }
{
    let Ok(names) = names_of(alloc, names) else {
        return 0;
    };
    let mut sum = 0u64;
    for _round in 0..count {
        sum = sum.wrapping_add(list_each(names.as_slice()));
    }
    sum
}

/// Puts the names into a table, for which they have to be in canonical order: their number.
#[unsafe(no_mangle)]
pub extern "C" fn dnw_table_build(alloc: Global, names: &[u8], count: u64) -> u64
    ensures idle { count ≡ 0 → result ≡ 0 }
{
    let Ok(names) = names_of(alloc, names) else {
        return 0;
    };
    let mut sum = 0u64;
    for _round in 0..count {
        sum = sum.wrapping_add(match table_of(alloc, names.as_slice()) {
            Ok(table) => table.len() as u64,
            Err(_) => FAILURE,
        });
    }
    sum
}

/// Looks each name up in a table of all of them, as `dnw_find_names` does.
#[unsafe(no_mangle)]
pub extern "C" fn dnw_table_find(alloc: Global, names: &[u8], count: u64) -> u64
    ensures idle { count ≡ 0 → result ≡ 0 }
{
    let Ok(names) = names_of(alloc, names) else {
        return 0;
    };
    let Ok(table) = table_of(alloc, names.as_slice()) else {
        return 0;
    };
    let mut sum = 0u64;
    for _round in 0..count {
        sum = sum.wrapping_add(find_each_in(&table, names.as_slice()));
    }
    sum
}

/// Goes through a table of the names, as `dnw_list_names` does.
#[unsafe(no_mangle)]
pub extern "C" fn dnw_table_list(alloc: Global, names: &[u8], count: u64) -> u64
    ensures idle { count ≡ 0 → result ≡ 0 }
{
    let Ok(names) = names_of(alloc, names) else {
        return 0;
    };
    let Ok(table) = table_of(alloc, names.as_slice()) else {
        return 0;
    };
    let mut sum = 0u64;
    for _round in 0..count {
        sum = sum.wrapping_add(list_each_of(&table));
    }
    sum
}

fn find_each(names: &[Name]) -> u64 {
    let mut sum = 0u64;
    for name in names {
        sum = sum.wrapping_add(number(names.binary_search(name)));
    }
    sum
}

fn list_each(names: &[Name]) -> u64 {
    let mut sum = 0u64;
    for name in names {
        sum = sum.wrapping_add(name.encoded_len() as u64);
    }
    sum
}

fn table_of(alloc: Global, names: &[Name]) -> Result<NameTable, PushError> {
    let mut table = NameTable::new(alloc);
    for name in names {
        table.push(name)?;
    }
    Ok(table)
}

fn find_each_in(table: &NameTable, names: &[Name]) -> u64 {
    let mut sum = 0u64;
    for name in names {
        sum = sum.wrapping_add(number(table.find(name)));
    }
    sum
}

fn list_each_of(table: &NameTable) -> u64 {
    let mut sum = 0u64;
    for index in 0..table.len() {
        sum = sum.wrapping_add(match table.get(index) {
            Some(name) => name.encoded_len() as u64,
            None => FAILURE,
        });
    }
    sum
}

/// Returns the number of a name that was found, from 1.
fn number(found: Result<usize, usize>) -> u64 {
    match found {
        Ok(index) => (index as u64).wrapping_add(1),
        Err(_) => FAILURE,
    }
}
