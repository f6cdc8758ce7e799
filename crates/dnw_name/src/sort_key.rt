//! Sort keys of names, owned and in messages.
ghost use Rattle.std.specs.Prelude.{◌≡◌, ◌≤◌, length, map, IfOk};
ghost use Rattle.dnw_name_order.specs.SortKeys.{max_sort_key, sort_key};
ghost use Rattle.dnw_name_order.specs.Sorted.{AreInOrder};

use crate::name::Name;
use crate::name_ref::NameRef;
use dnw_base::limits::MAX_NAME;
use dnw_name_order::sort_key::{self, MAX_SORT_KEY_LENGTH};
use dnw_name_order::sorting::{CanonicalOrder, SortKeys};
use std::alloc::{AllocError, Global};

impl Name {
    /// Puts the sort key of the name at the front of a buffer, and returns it. Keys compare as bytes as the names do in
    /// canonical order (RFC 4034, section 6.1).
    ///
    /// The key has the labels from the last one, in lower case, with a byte 0 after each. In a label, 0 becomes `1 1`, and 1
    /// becomes `1 2`. So `a.B.` has the key `b 0 a 0`, and the root has the empty key.
    ///
    /// Whether the name is fully qualified is ignored: keys are equal exactly if `eq_ignore_root` returns `true`, and
    /// compare as `cmp` does if both names are fully qualified or both relative. A key begins with the key of a zone exactly
    /// if the name is in the zone. `sort_key::laws` has these facts.
    #[inline]
    pub fn sort_key<'b>(&self, buffer: &'b mut [u8; MAX_SORT_KEY_LENGTH]) -> &'b [u8]
        ensures key { result.now ≡ sort_key self.now.labels }
        ensures short { length result.now ≤ max_sort_key }
    {
        sort_key::of_labels(self.wire_labels(), buffer)
    }

    /// Returns the numbers of names, from 0, in canonical order of the names (RFC 4034, section 6.1). Those of equal names
    /// ascend. Whether names are fully qualified is ignored.
    ///
    /// The sort key of each name is made once. So many names take less time than by `sort`, and room for their keys.
    pub fn canonical_order(alloc: Global, names: &[Name]) -> Result<CanonicalOrder, AllocError>
        ensures { IfOk result (AreInOrder (map (λ name. name.labels) names.now)) }
    {
        let mut keys = SortKeys::new(alloc);
        for name in names {
            keys.push(name.wire_labels())?;
        }
        Ok(keys.sorted())
    }
}

impl<'a> NameRef<'a> {
    /// Puts the sort key of the name at the front of a buffer, and returns it, as `Name::sort_key`.
    #[inline]
    pub fn sort_key<'b>(&self, buffer: &'b mut [u8; MAX_SORT_KEY_LENGTH]) -> &'b [u8]
        ensures key { result.now ≡ sort_key self.now }
        ensures short { length result.now ≤ max_sort_key }
    {
        let mut room = [0; MAX_NAME];
        sort_key::of_labels(self.wire_labels(&mut room), buffer)
    }

    /// Returns the numbers of names, from 0, in canonical order of the names, as `Name::canonical_order`.
    pub fn canonical_order(
        alloc: Global,
        names: &[NameRef<'_>],
    ) -> Result<CanonicalOrder, AllocError>
        ensures { IfOk result (AreInOrder names.now) }
    {
        let mut keys = SortKeys::new(alloc);
        let mut room = [0; MAX_NAME];
        for name in names {
            keys.push(name.wire_labels(&mut room))?;
        }
        Ok(keys.sorted())
    }
}
