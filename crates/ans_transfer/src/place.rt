//! How far a transfer has come.
ghost use Rattle.std.specs.Prelude.{◌≡◌};
ghost use Rattle.ans_transfer.specs.Places.{has_begun, is_over, status_of};

/// How far a transfer has come.
#[derive(Debug, Clone, Copy, PartialEq, Eq)]
pub enum Place {
    /// No record came.
    Start,
    /// Only the first SOA record came. Whether a whole zone follows or changes is not known yet.
    Begun {
        /// Its serial number, which is the server's version.
        new: u32,
    },
    /// A record of a whole zone comes next, or the SOA record at its end.
    InZone {
        /// The serial number of the zone.
        new: u32,
    },
    /// A record that is deleted comes next, or the SOA record after those.
    InDeleted {
        /// The serial number that the changes lead to.
        new: u32,
    },
    /// A record that is added comes next, or the SOA record after those.
    InAdded {
        /// The serial number that the changes lead to.
        new: u32,
        /// The serial number that this step leads to.
        to: u32,
    },
    /// A whole zone came.
    EndOfZone {
        /// Its serial number.
        new: u32,
    },
    /// All changes came.
    EndOfChanges {
        /// The serial number that they lead to.
        new: u32,
    },
    /// The server has the client's version or an older one: nothing is transferred.
    UpToDate,
}

/// What has come of a transfer.
#[derive(Debug, Clone, Copy, PartialEq, Eq)]
pub enum Step {
    /// Only the first SOA record came. A reply over UDP that has no other asks for a request over TCP (RFC 1995, section 2).
    Begun,
    /// More messages come.
    More,
    /// All came.
    Done,
    /// The client's version is no older than the server's (RFC 1995, section 2). Nothing else comes.
    UpToDate,
}

impl Place {
    /// Returns what has come.
    #[tactic(auto, unfolding(crate::specs::Places::status_of))]
    pub fn step(&self) -> Step
        ensures { result ≡ status_of self.now }
    {
        match self {
            Place::Start | Place::Begun { .. } => Step::Begun,
            Place::InZone { .. } | Place::InDeleted { .. } | Place::InAdded { .. } => Step::More,
            Place::EndOfZone { .. } | Place::EndOfChanges { .. } => Step::Done,
            Place::UpToDate => Step::UpToDate,
        }
    }

    /// Returns `true` if nothing else may come.
    pub fn is_over(&self) -> bool
        ensures { result ≡ is_over self.now }
    {
        matches!(
            self,
            Place::EndOfZone { .. } | Place::EndOfChanges { .. } | Place::UpToDate
        )
    }

    /// Returns `true` if a record came.
    #[tactic(auto, unfolding(crate::specs::Places::has_begun))]
    pub fn has_begun(&self) -> bool
        ensures { result ≡ has_begun self.now }
    {
        !matches!(self, Place::Start)
    }
}
