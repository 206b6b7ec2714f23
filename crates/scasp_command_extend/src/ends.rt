//! How the extension of blocks ends.
ghost use Rattle.std.specs.Prelude.{◌≡◌, ◌+◌, IfOk};
ghost use Rattle.scasp_command_extend.specs.Ends.{models_in};
ghost use Rattle.scasp_command_extend.specs.Inside as inside;

use scasp_list::Memory;

/// How the extension of blocks ends.
#[derive(Clone, Copy, Debug, PartialEq, Eq)]
pub enum Extended {
    /// Above each block a model was made.
    Models,
    /// Each block is accepted, and above one no model was made.
    NoModel,
    /// A block is not accepted.
    Refused,
}

impl Extended {
    /// How blocks of which some end so and the others so end.
    fn worst(self, other: Extended) -> Extended
        ensures { result ≡ inside.worst self other }
    {
        match self {
            Extended::Refused => Extended::Refused,
            Extended::NoModel => match other {
                Extended::Models | Extended::NoModel => Extended::NoModel,
                Extended::Refused => Extended::Refused,
            },
            Extended::Models => other,
        }
    }
}

/// So many models, with that of a block that ends so.
fn counted(models: u64, end: Extended) -> Result<u64, Memory>
    ensures { IfOk result (λ count. count ≡ models + models_in end) }
{
    match end {
        Extended::Models => models.checked_add(1).ok_or(Memory),
        Extended::NoModel | Extended::Refused => Ok(models),
    }
}

/// What has been found so far: the number of models, and how the blocks end.
#[derive(Clone, Copy)]
pub(crate) struct Tally {
    pub models: u64,
    pub extended: Extended,
}

impl Tally {
    /// One block more, which ends so.
    fn with_end(self, end: Extended) -> Result<Tally, Memory>
        ensures { IfOk result (λ tally. tally ≡ inside.with_end self end) }
    {
        Ok(Tally {
            models: counted(self.models, end)?,
            extended: end.worst(self.extended),
        })
    }

    /// The same, where there is one.
    pub fn with_ends(self, end: Option<Extended>) -> Result<Tally, Memory>
        ensures { IfOk result (λ tally. tally ≡ inside.with_ends self end) }
    {
        match end {
            Some(end) => self.with_end(end),
            None => Ok(self),
        }
    }
}
