//! What follows from the definitions of reading, for callers' proofs.
//!
//! The functions do nothing: each exists for its clauses.
ghost use Rattle.dnw_name_read.specs.ReadingLaws.{NameOrFault, NotBoth, OneName, OneFault, ReadsBack, StandsBefore, StandsWider, NameSteps, FaultSteps, OwnOctets};

/// At every offset of every message there is exactly one name or exactly one error.
pub fn one_reading()
    ensures some { NameOrFault }
    ensures not_both { NotBoth }
    ensures one_name { OneName }
    ensures one_fault { OneFault }
{}

/// Reading a wire form returns its labels, whatever is before and after it.
#[tactic(auto, using(crate::proofs::Back::reads_back))]
pub fn reads_back()
    ensures { ReadsBack }
{}

/// A name is still read if bytes follow, and if its segment's start or its limit grows.
#[tactic(auto, using(crate::proofs::Stand::stands_before, crate::proofs::Stand::stands_wider))]
pub fn reading_stands()
    ensures before { StandsBefore }
    ensures wider { StandsWider }
{}

/// Every reading takes few steps, also one that fails, and a name's own octets lie within the message.
#[tactic(auto, using(crate::proofs::Counts::name_steps, crate::proofs::Counts::fault_steps, crate::proofs::Counts::own_octets))]
pub fn few_steps()
    ensures name { NameSteps }
    ensures fault { FaultSteps }
    ensures own { OwnOctets }
{}
