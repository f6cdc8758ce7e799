//! What follows from a run of a script, for callers' proofs.
//!
//! The functions do nothing. Each is there for its clauses.
ghost use Rattle.dnw_write_script.specs.ScriptLaws.{RunsReply, RunsFinish, RunsStayUseful, RunsAreShortest, RunsStayBounded, RunsUndoRecords, StandingRecordsAreRead};
ghost use Rattle.dnw_write_script.specs.ScriptLaws.{PartsOfScriptsStayBounded, ItemsOfScriptsStayBounded};

use crate::record_laws;

/// Each step has the reply that its definition says.
#[tactic(auto, using(crate::proofs::Running::runs_reply))]
pub fn replies_follow()
    ensures { RunsReply }
{}

/// The finished bytes hold the pieces of a script, and every candidate is usable.
#[tactic(auto, using(crate::proofs::Running::runs_finish, crate::proofs::Running::runs_useful))]
pub fn pieces_stand()
    ensures finished { RunsFinish }
    ensures useful { RunsStayUseful }
{}

/// Names are as short as possible.
#[tactic(auto, using(crate::proofs::ShortestNames::names_are_shortest))]
pub fn names_are_shortest()
    ensures { RunsAreShortest }
{}

/// The buffer is no longer at the end than it was, or than the largest maximum in force. An accepted part or item leaves it no
/// longer than it was, or than the maximum.
pub fn runs_stay_bounded()
    ensures runs { RunsStayBounded }
    ensures parts { PartsOfScriptsStayBounded }
    ensures items { ItemsOfScriptsStayBounded }
{}

/// A record that is refused leaves the whole encoder unchanged, the count of names included.
pub fn refused_records_undo()
    ensures { RunsUndoRecords }
{
    record_laws::refused_records_undo();
}

/// A record of a script is read where it stands in the finished bytes, with its owner, its fields and its data.
#[tactic(auto, using(crate::proofs::ReadingBack::records_are_read))]
pub fn records_are_read()
    ensures { StandingRecordsAreRead }
{}
