//! Labels that are joined into a name one after another.
ghost use Rattle.std.specs.Prelude.{◌≡◌, ℕ, ◌+◌, ◌^◌, ◌<◌, ◌↔◌, List, [], ◌∷◌, ◌++◌, Result, Ok, OnOk, IfOk, IfErr, IsErr, IsTrue, MatchOption};
ghost use Rattle.dnw_base.specs.Fault.{Fault, Follows, NeedsErrorText};
ghost use Rattle.dnw_name_form.specs.Edits.{joined};
ghost use Rattle.dnw_name.specs.Inside.Joined.{HasJoined};

use dnw_base::error::{DecodeError, ProtoError, ProtoResult};
use dnw_base::limits::MAX_NAME;
use dnw_name_form::form::WireForm;
use dnw_name_form::label::{IntoLabel, Label};
use std::alloc::Global;

/// Labels that are joined into a name one after another.
#[derive(Drop)]
pub(crate) struct Joining {
    /// The wire form of the labels, or the error of the first one that did not fit.
    form: ProtoResult<WireForm>,
    /// How many labels were made.
    made: usize,
    /// Whether each label could be made.
    all_made: bool,
}

impl Joining {
    /// No labels yet.
    pub(crate) fn new(alloc: Global) -> Self
        ensures joined { HasJoined result [] }
    {
        Joining {
            form: Ok(WireForm::new(alloc)),
            made: 0,
            all_made: true,
        }
    }

    /// Adds the label of an item. That there is none, or that it does not fit, is reported by `finish`.
    pub(crate) fn add<L: IntoLabel>(&mut self, alloc: Global, item: L) -> ProtoResult<()>
        requires { (self.old).made + 1 < 2 ^ 64 }
        ensures ok { OnOk result ((items : List (Result (List ℕ) Fault)) → HasJoined self.old items → HasJoined self.new (items ++ L.label_of item ∷ [])) }
        ensures err { IfErr result (λ e. (e ≡ ProtoError.Memory) × L.may_run_out item) }
    {
        let Some(label) = made(alloc, item)? else {
            self.all_made = false;
            return Ok(());
        };
        self.push(&label);
        Ok(())
    }

    /// Adds a label that was made.
    fn push(&mut self, label: &Label)
        requires { (self.old).made + 1 < 2 ^ 64 }
        ensures { (items : List (Result (List ℕ) Fault)) → HasJoined self.old items → HasJoined self.new (items ++ Ok label.now ∷ []) }
    {
        self.made += 1;
        let Ok(form) = &mut self.form else {
            return;
        };
        if let Err(error) = form.push(label.as_bytes()) {
            self.form = Err(error);
        }
    }

    /// Returns the wire form of all labels.
    pub(crate) fn finish(self, alloc: Global) -> ProtoResult<WireForm>
        ensures follows { (items : List (Result (List ℕ) Fault)) → HasJoined self items → Follows (joined items) (NeedsErrorText (joined items)) result }
    {
        if self.made > MAX_NAME {
            return Err(ProtoError::Decode(DecodeError::DomainNameTooLong(self.made)));
        }
        if !self.all_made {
            let text = String::from_str(alloc, "error converting some labels")?;
            return Err(ProtoError::Msg(text));
        }
        self.form
    }
}

/// Makes the label of an item. It returns `None` if there is none, and fails only if memory runs out.
fn made<L: IntoLabel>(alloc: Global, item: L) -> ProtoResult<Option<Label>>
    ensures ok { IfOk result (λ made. MatchOption made (IsErr (L.label_of item)) (λ label. L.label_of item ≡ Ok label)) }
    ensures err { IfErr result (λ e. (e ≡ ProtoError.Memory) × L.may_run_out item) }
{
    match item.into_label(alloc) {
        Ok(label) => Ok(Some(label)),
        Err(error) => {
            if is_memory(&error) {
                Err(ProtoError::Memory)
            } else {
                Ok(None)
            }
        }
    }
}

fn is_memory(error: &ProtoError) -> bool
    ensures { IsTrue result ↔ (error.now ≡ ProtoError.Memory) }
{
    matches!(error, ProtoError::Memory)
}
