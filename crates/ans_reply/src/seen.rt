//! Names and records, compared.
ghost use Rattle.std.specs.Prelude.{◌≡◌};
ghost use Rattle.dns_names_wire.specs.Words.{is_same};
ghost use Rattle.ans_answer.specs.Answers.{is_met};
ghost use Rattle.ans_answer.specs.Outcomes.{is_wanted};
ghost use Rattle.ans_answer.specs.Seen.{all_labels};

use dns_names_wire::{Name, RecordRef};

/// All types (RFC 1035, section 3.2.3).
pub(crate) const ANY: u16 = 255;

/// Returns `true` if names are the same, ignoring ASCII case.
#[tactic(auto, unfolding(dns_names_wire::specs::Words::is_same))]
pub(crate) fn is_same(name: &Name, other: &Name) -> bool
    ensures { result ≡ is_same name.now.labels other.now.labels }
{
    name.as_name_ref().cmp_name(other).is_eq()
}

/// Returns `true` if a name is one of these, ignoring ASCII case.
#[tactic(auto, unfolding(ans_answer::specs::Answers::is_met))]
pub(crate) fn is_met(names: &[Name], name: &Name) -> bool
    ensures { result ≡ is_met (all_labels names.now) name.now.labels }
{
    'met: for met in names {
        if is_same(met, name) {
            return true;
        }
    }
    false
}

/// Returns `true` if a record is asked for: it has the type, or all are asked for (RFC 1035, section 3.2.3).
pub(crate) fn is_wanted(record: &RecordRef<'_>, code: u16) -> bool
    ensures { result ≡ is_wanted code record.now }
{
    code == ANY || record.record_type().code() == code
}
