//! How names and variables are written.
use scasp_list::Memory;
use scasp_name::Names;
use std::alloc::Global;
use std::marker::Model;

/// The text of a variable.
#[derive(Drop)]
pub struct VariableText {
    bytes: Vec<u8>,
}

impl Model for VariableText {
    ghost use Rattle.std.specs.Prelude.{ℕ, List};

    ghost Value = { List ℕ };

    ghost view = { λ t. t.bytes.items };
}

impl VariableText {
    ghost use Rattle.std.specs.Prelude.{◌≡◌, IfOk};

    /// The text of these bytes.
    pub fn new(bytes: Vec<u8>) -> VariableText
        ensures { result ≡ bytes.items }
    {
        VariableText { bytes }
    }

    /// The same text.
    pub fn from_str(alloc: Global, text: &str) -> Result<VariableText, Memory>
        ensures { IfOk result (λ copied. copied ≡ text.now) }
    {
        Ok(VariableText {
            bytes: Vec::from_slice(alloc, text.as_bytes())?,
        })
    }

    /// Its bytes.
    pub fn as_bytes(&self) -> &[u8]
        ensures { result.now ≡ self.now }
    {
        self.bytes.as_slice()
    }
}

/// The table of names, and the texts of a clause's variables by their numbers.
#[derive(Drop)]
pub struct Shown<'a> {
    names: &'a Names,
    variables: &'a [VariableText],
}

impl<'a> Model for Shown<'a> {
    ghost use Rattle.scasp_print_program.specs.Terms.{Style};

    ghost Value = { Style };

    ghost view = { λ s. record { names = s.names.now; variables = s.variables.now } };
}

impl<'a> Shown<'a> {
    ghost use Rattle.std.specs.Prelude.{◌≡◌};
    ghost use Rattle.scasp_print_program.specs.Terms.{variable_text};

    /// What is written with these names and variables.
    pub fn new(names: &'a Names, variables: &'a [VariableText]) -> Shown<'a>
        ensures { result ≡ record { names = names.now; variables = variables.now } }
    {
        Shown { names, variables }
    }

    /// The table of names.
    pub fn names(&self) -> &Names
        ensures { result.now ≡ self.now.names }
    {
        self.names
    }

    /// The text of a variable; the empty one for a number that the clause lacks.
    pub fn variable(&self, var: u64) -> &[u8]
        ensures { result.now ≡ variable_text self.now var }
    {
        match self.variables.get(var as usize) {
            Some(text) => text.as_bytes(),
            None => &[],
        }
    }
}
