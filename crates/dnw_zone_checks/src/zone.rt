//! A zone that is checked: its records, found by their owners.
ghost use Rattle.std.specs.Prelude.{◌≡◌, ◌≢◌, ◌<◌, List, [], ◌∷◌, drop, length, IfOk, IfSome, slice_index_or};
ghost use Rattle.std.specs.List.{position_from};
ghost use Rattle.dnw_base.specs.Labels.{wildcard};
ghost use Rattle.dnw_name_order.specs.Order.{labels_cmp};
ghost use Rattle.dnw_record.specs.Records.{RecordValue};
ghost use Rattle.dnw_zone_checks.specs.Checks.{OwnersAreInOrder, above, exists, first_at, first_found, first_of_wildcard, first_upward, is_delegated, is_in, upward};
ghost use Rattle.dnw_zone_checks.specs.Inside.Seeking.{AreLists, IsZoneListed, is_from, is_sought, numbers_of};

use crate::lookup::{Sought, cmp_owner, is_in, is_sought, label_count};
use dnw_base::limits::MAX_NAME;
use dnw_name::name::Name;
use dnw_name_form::form::WireForm;
use dnw_name_form::wire_labels::WireLabels;
use dnw_record::record_ref::RecordRef;
use std::alloc::{AllocError, Global};
use std::cmp::Ordering;

/// The numbers of the records of a zone that are sought, in order.
#[derive(Drop)]
pub(crate) struct Lists {
    any: Vec<usize>,
    soa: Vec<usize>,
    ns: Vec<usize>,
    cname: Vec<usize>,
    dname: Vec<usize>,
    address: Vec<usize>,
    not_beside_alias: Vec<usize>,
}

impl Lists {
    /// Lists the records of a zone.
    fn new(alloc: Global, records: &[RecordRef<'_>]) -> Result<Self, AllocError>
        ensures { IfOk result (λ lists. AreLists lists records.now) }
    {
        Ok(Lists {
            any: numbers_of(alloc, records, Sought::Any)?,
            soa: numbers_of(alloc, records, Sought::Soa)?,
            ns: numbers_of(alloc, records, Sought::Ns)?,
            cname: numbers_of(alloc, records, Sought::Cname)?,
            dname: numbers_of(alloc, records, Sought::Dname)?,
            address: numbers_of(alloc, records, Sought::Address)?,
            not_beside_alias: numbers_of(alloc, records, Sought::NotBesideAlias)?,
        })
    }

    /// Returns the numbers of the records that are sought.
    fn of(&self, sought: Sought) -> &[usize]
        ensures { (records : List RecordValue) → AreLists self.now records → result.now ≡ numbers_of sought records }
    {
        match sought {
            Sought::Any => self.any.as_slice(),
            Sought::Soa => self.soa.as_slice(),
            Sought::Ns => self.ns.as_slice(),
            Sought::Cname => self.cname.as_slice(),
            Sought::Dname => self.dname.as_slice(),
            Sought::Address => self.address.as_slice(),
            Sought::NotBesideAlias => self.not_beside_alias.as_slice(),
        }
    }
}

/// Returns the numbers of the records that are sought.
fn numbers_of(
    alloc: Global,
    records: &[RecordRef<'_>],
    sought: Sought,
) -> Result<Vec<usize>, AllocError>
    ensures { IfOk result (λ numbers. numbers.items ≡ numbers_of sought records.now) }
{
    let mut numbers = Vec::new(alloc);
    'records: for number in 0..records.len() {
        if is_sought(sought, &records[number]) {
            numbers.push(number)?;
        }
    }
    Ok(numbers)
}

/// A zone: its name, its records in canonical order of their owners, and the lists of those that are looked for.
#[derive(Drop)]
pub(crate) struct Zone<'z, 'r> {
    pub(crate) apex: &'z Name,
    pub(crate) records: &'z [RecordRef<'r>],
    lists: Lists,
}

impl<'z, 'r> Zone<'z, 'r> {
    /// Takes a zone.
    pub(crate) fn new(
        alloc: Global,
        apex: &'z Name,
        records: &'z [RecordRef<'r>],
    ) -> Result<Self, AllocError>
        requires { OwnersAreInOrder records.now }
        ensures checked { IfOk result IsZoneListed }
        ensures apex { IfOk result (λ zone. zone.apex.now ≡ apex.now) }
        ensures records { IfOk result (λ zone. zone.records.now ≡ records.now) }
    {
        let lists = Lists::new(alloc, records)?;
        Ok(Zone {
            apex,
            records,
            lists,
        })
    }

    /// Compares the owner of a record with a name.
    fn cmp_owner(&self, number: usize, name: &WireLabels<'_>) -> Ordering
        requires { number < length self.now.records.now }
        ensures { (d : RecordValue) → result ≡ labels_cmp (slice_index_or self.now.records.now number d).owner name.now }
    {
        cmp_owner(&self.records[number], name)
    }

    /// Returns the number of the first record of a name that is sought.
    pub(crate) fn first_at(&self, name: &WireLabels<'_>, sought: Sought) -> Option<usize>
        requires { IsZoneListed self.now }
        ensures { result ≡ first_at self.now.records.now name.now (is_sought sought) }
    {
        let Some(number) = self.first_from(name, sought) else {
            return None;
        };
        if self.cmp_owner(number, name).is_eq() {
            Some(number)
        } else {
            None
        }
    }

    /// Returns the number of the first record that is sought and whose owner is not before a name.
    fn first_from(&self, name: &WireLabels<'_>, sought: Sought) -> Option<usize>
        requires { IsZoneListed self.now }
        ensures first { result ≡ position_from (is_from name.now (is_sought sought)) 0 self.now.records.now }
        ensures within { IfSome result (λ k. k < length self.now.records.now) }
    {
        let numbers = self.lists.of(sought);
        let mut low = 0;
        let mut high = numbers.len();
        'halves: while low < high {
            let middle = low + (high - low) / 2;
            if self.cmp_owner(numbers[middle], name).is_lt() {
                low = middle + 1;
            } else {
                high = middle;
            }
        }
        if low < numbers.len() {
            Some(numbers[low])
        } else {
            None
        }
    }

    /// Returns the number of the first record that is sought of a name, or, if it has none, of the nearest of the names above it that
    /// has one. Names of fewer labels are not looked at.
    pub(crate) fn first_upward(
        &self,
        mut name: WireLabels<'_>,
        least: usize,
        sought: Sought,
    ) -> Option<usize>
        requires { IsZoneListed self.now }
        ensures { result ≡ first_upward self.now.records.now (upward least name.entry) (is_sought sought) }
    {
        'names: while name.len() >= least {
            if let Some(number) = self.first_at(&name, sought) {
                return Some(number);
            }
            if name.next().is_none() {
                return None;
            }
        }
        None
    }

    /// Returns the number of the first record that is sought of the nearest name above a name that has one. Names of fewer labels are
    /// not looked at.
    pub(crate) fn first_above(
        &self,
        name: &WireLabels<'_>,
        least: usize,
        sought: Sought,
    ) -> Option<usize>
        requires { IsZoneListed self.now }
        ensures { result ≡ first_upward self.now.records.now (above least name.now) (is_sought sought) }
    {
        let mut rest = name.clone();
        if rest.next().is_none() {
            return None;
        }
        self.first_upward(rest, least, sought)
    }

    /// Returns `true` if a name is that of a delegation or below one.
    pub(crate) fn is_delegated(&self, name: &WireLabels<'_>) -> bool
        requires { IsZoneListed self.now }
        ensures { result ≡ is_delegated self.now.apex.now.labels self.now.records.now name.now }
    {
        let least = label_count(self.apex) + 1;
        self.first_upward(name.clone(), least, Sought::Ns).is_some()
    }

    /// Returns `true` if the owner of a record is a name, or one below it.
    fn is_owner_in(&self, number: usize, name: &WireLabels<'_>) -> bool
        requires { number < length self.now.records.now }
        ensures { (d : RecordValue) → result ≡ is_in name.now (slice_index_or self.now.records.now number d).owner }
    {
        let mut room = [0; MAX_NAME];
        is_in(name, &self.records[number].owner().wire_labels(&mut room))
    }

    /// Returns `true` if a name, or one below it, owns records.
    fn exists(&self, name: &WireLabels<'_>) -> bool
        requires { IsZoneListed self.now }
        ensures { result ≡ exists self.now.records.now name.now }
    {
        match self.first_from(name, Sought::Any) {
            Some(number) => self.is_owner_in(number, name),
            None => false,
        }
    }

    /// Returns the number of the first record that is sought of those that a question for a name finds.
    pub(crate) fn first_found(
        &self,
        alloc: Global,
        name: &WireLabels<'_>,
        sought: Sought,
    ) -> Option<usize>
        requires { IsZoneListed self.now }
        ensures { result ≡ first_found self.now.apex.now.labels self.now.records.now name.now (is_sought sought) }
    {
        if self.is_delegated(name) || self.exists(name) {
            self.first_at(name, sought)
        } else {
            self.first_of_wildcard(alloc, name, sought)
        }
    }

    /// Returns the number of the first record that is sought of the wildcard right below the nearest name above one that exists.
    fn first_of_wildcard(
        &self,
        alloc: Global,
        name: &WireLabels<'_>,
        sought: Sought,
    ) -> Option<usize>
        requires { IsZoneListed self.now }
        ensures { result ≡ first_of_wildcard self.now.records.now name.now (is_sought sought) }
    {
        let mut below = name.clone();
        let mut rest = name.clone();
        'names: while rest.next().is_some() {
            if self.exists(&rest) {
                return self.first_beside(alloc, &below, sought);
            }
            below = rest.clone();
        }
        None
    }

    /// Returns the number of the first record that is sought of the wildcard beside a name.
    fn first_beside(&self, alloc: Global, name: &WireLabels<'_>, sought: Sought) -> Option<usize>
        requires checked { IsZoneListed self.now }
        requires some { name.now ≢ [] }
        ensures { result ≡ first_at self.now.records.now (wildcard ∷ drop 1 name.now) (is_sought sought) }
    {
        match WireForm::from_octets(alloc, name.as_wire()).to_wildcard() {
            Some(wildcard) => self.first_at(&wildcard.labels(), sought),
            None => None,
        }
    }
}
