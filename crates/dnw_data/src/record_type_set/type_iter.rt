//! The types of a set, one after another.
ghost use Rattle.std.specs.Prelude.{◌≡◌};
ghost use Rattle.std.specs.Iterator.{YieldsFirst, item_count};

use dnw_base::record_type::RecordType;
use std::marker::Model;

/// An iterator over the types of a set, in ascending order.
///
/// A contract sees it as the list of the types that are left.
#[derive(Drop)]
pub struct TypeIter<'a> {
    rest: &'a [RecordType],
}

impl<'a> Model for TypeIter<'a> {
    ghost use Rattle.std.specs.Prelude.{List};
    ghost use Rattle.dnw_base.specs.declared.record_type.RecordType.{RecordType};

    ghost Value = { List RecordType };

    ghost view = { λ it. it.rest.now };
}

impl<'a> TypeIter<'a> {
    /// Creates an iterator over these types.
    pub(crate) fn new(types: &'a [RecordType]) -> Self
        ensures { result ≡ types.now }
    {
        TypeIter { rest: types }
    }
}

impl<'a> Iterator for TypeIter<'a> {
    type Item = RecordType;

    ghost next_gives = { YieldsFirst (λ types. types) };

    ghost remaining = { item_count (λ types. types) };

    fn next(&mut self) -> Option<RecordType> {
        let (record_type, rest) = self.rest.split_first()?;
        self.rest = rest;
        Some(*record_type)
    }
}
