// Why an edit is refused.
ghost use Rattle.std.specs.Prelude.{◌≡◌};
ghost use Rattle.solid_model.specs.Changes.{fault_of};

use crate::EditFault;

// Why an edit is refused. Where a clause is in use its place is told beside that of its user, so
// that its name is not looked up again to keep the user.
#[derive(Clone, Copy, Debug)]
pub(crate) enum Refusal {
    // For this fault.
    Plain(EditFault),
    // The clause at the first place is an operand of that at the second, and of none before it.
    InUse(u32, u32),
}

impl Refusal {
    // The fault.
    pub(crate) fn fault(&self) -> EditFault
        ensures { result ≡ fault_of self.now }
    {
        match self {
            Refusal::Plain(fault) => *fault,
            Refusal::InUse(_, user) => EditFault::InUse(*user),
        }
    }
}
