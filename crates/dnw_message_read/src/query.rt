//! Questions in a message, which are read without copying.
ghost use Rattle.std.specs.Prelude.{◌≡◌, IfOk, IfErr, OnErr};
ghost use Rattle.dnw_message_read.specs.Queries.{TakesQuery, FailsQuery};

use dnw_base::decoder::BinDecoder;
use dnw_base::dns_class::DNSClass;
use dnw_base::error::DecodeError;
use dnw_base::record_type::RecordType;
use dnw_name::name_ref::NameRef;
use std::marker::Model;

/// A question in a message (RFC 1035, section 4.1.2). It borrows its name from the message, and nothing here allocates.
///
/// A contract sees it as the labels of its name, its type and its class.
#[derive(Drop)]
pub struct QueryRef<'m> {
    name: NameRef<'m>,
    query_type: RecordType,
    query_class: DNSClass,
}

impl<'m> Model for QueryRef<'m> {
    ghost use Rattle.dnw_message_read.specs.Messages.{QueryValue};

    ghost Value = { QueryValue };

    ghost view = { λ q. record { name = q.name; query_type = q.query_type; query_class = q.query_class } };
}

impl<'m> QueryRef<'m> {
    /// Reads the question at the cursor, and leaves the cursor after it. If it fails, the cursor is unchanged.
    ///
    /// It fails with the error of reading the name, or with `InsufficientBytes` if the type and the class are not all there.
    pub fn read_next(reader: &mut BinDecoder<'m>) -> Result<Self, DecodeError>
        ensures ok { IfOk result (λ q. TakesQuery reader.old q reader.new) }
        ensures err { IfErr result (FailsQuery reader.old) }
        ensures same { OnErr result (reader.new ≡ reader.old) }
    {
        let mut ahead = BinDecoder::new(reader.message());
        ahead.skip(reader.index()).unwrap();
        let query = read_on(&mut ahead)?;
        *reader = ahead;
        Ok(query)
    }

    /// Returns the name that is asked for.
    #[inline(always)]
    pub fn name(&self) -> &NameRef<'m>
        ensures { result.now ≡ self.now.name }
    {
        &self.name
    }

    /// Returns the type that is asked for.
    #[inline(always)]
    pub fn query_type(&self) -> RecordType
        ensures { result ≡ self.now.query_type }
    {
        self.query_type
    }

    /// Returns the class that is asked for.
    #[inline(always)]
    pub fn query_class(&self) -> DNSClass
        ensures { result ≡ self.now.query_class }
    {
        self.query_class
    }
}

/// Reads a question at the cursor. If it fails, the cursor may be past the name.
#[inline(always)]
fn read_on<'m>(reader: &mut BinDecoder<'m>) -> Result<QueryRef<'m>, DecodeError>
    ensures ok { IfOk result (λ q. TakesQuery reader.old q reader.new) }
    ensures err { IfErr result (FailsQuery reader.old) }
{
    let name = NameRef::read(reader)?;
    let query_type = RecordType::from(reader.read_u16()?.unverified());
    let query_class = DNSClass::from(reader.read_u16()?.unverified());
    Ok(QueryRef {
        name,
        query_type,
        query_class,
    })
}
