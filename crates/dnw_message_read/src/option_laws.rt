//! What follows from the definitions of options, for callers' proofs.
//!
//! The functions do nothing: each exists for its clauses.
ghost use Rattle.dnw_message_read.specs.OptionLaws.{OneOption, OptionsComeBack};

use dnw_name_read::laws;

/// What an option may say is read from the octets that say it.
#[tactic(auto, using(crate::proofs::Back::comes_back))]
pub fn options_come_back()
    ensures { OptionsComeBack }
{}

/// The octets of an option are read in one way: as one value, or with one error.
pub fn one_option()
    ensures { OneOption }
{
    laws::reads_back();
    laws::one_reading();
}
