//! What follows from the definitions of denial, for callers' proofs.
//!
//! The functions do nothing: each exists for its clauses.
ghost use Rattle.ans_denial.specs.Completeness.{ChainsAreEnough, DenialsAreComplete};
ghost use Rattle.ans_denial.specs.HashedChains.{ExpansionsAreSound, HashedDenialsAreSound};
ghost use Rattle.ans_denial.specs.Soundness.{DenialsAreSound, EnclosersAreSound};

use dns_names_wire::sort_key::laws;

/// Whatever NSEC records of a zone's chain are given, what they prove is what the zone says: if they prove that there is no such name, the
/// zone says so, and if they prove that there are no records of a type, it has none. And a closest encloser that they prove is the one
/// whose wildcard stands for the name.
pub fn denials_are_sound()
    ensures denials { DenialsAreSound }
    ensures enclosers { EnclosersAreSound }
{
    laws::keys_compare();
    laws::zones_begin();
}

/// Whatever NSEC records of a zone's chain are enough for a name, they prove what the zone says of it: that there is no such name, or no
/// records of a type at it or at its wildcard. Enough are the record that is the name's or covers it, and, if the name does not exist, that
/// of the wildcard which would stand for it. The whole chain is enough for each name that the zone does not send to a delegation or a DNAME
/// record.
pub fn denials_are_complete()
    ensures chains { ChainsAreEnough }
    ensures denials { DenialsAreComplete }
{
    laws::keys_compare();
    laws::zones_begin();
}

/// What NSEC3 records of a zone's chain prove is what the zone says, too, if no name of the zone has the hash of another that is hashed.
/// Where delegations without DS records may be left out, a name that may be one of them is never found to be missing; and if the zone
/// refers it to a delegation, that has no DS records.
///
/// And the answer of a wildcard that the zone has is the one for a name if the records prove that no name nearer exists.
pub fn hashed_denials_are_sound()
    ensures denials { HashedDenialsAreSound }
    ensures expansions { ExpansionsAreSound }
{}
