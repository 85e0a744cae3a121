ghost use Rattle.std.specs.Prelude.{◌≡◌, ◌∷◌, [], None, IfOk, IfErr, OnOk, OnErr};
ghost use Rattle.gcl_parser.specs.Refusal.{refused};
ghost use Rattle.std.specs.Option.{option_copied};
ghost use Rattle.query_names.specs.Names.{text_under};
ghost use Rattle.query_names.specs.Defining.{Defines, HasDefineCause, IsRefusal};

use crate::fault::DefineFault;
use crate::putting::put_in;
use gcl_model::Bytes;
use gcl_parser::parse;
use std::alloc::{AllocError, Global};
use std::marker::Model;

/// Refuses a text that is not a query.
fn test(alloc: Global, query: &[u8]) -> Result<(), DefineFault>
    ensures ok { OnOk result (refused query.now ≡ None) }
    ensures err { IfErr result (λ fault. IsRefusal query.now fault) }
{
    match parse(alloc, query) {
        Ok(_expr) => Ok(()),
        Err(fault) => Err(fault.into()),
    }
}

/// Names and the texts that they stand for.
#[derive(Drop)]
pub struct Definitions {
    entries: Vec<(Bytes, Bytes)>,
}

impl Model for Definitions {
    ghost use Rattle.query_names.specs.Names.{Defined};

    ghost Value = { Defined };

    ghost view = { λ d. d.entries.items };
}

impl Definitions {
    /// No name is defined. It allocates nothing.
    pub fn new(alloc: Global) -> Self
        ensures { result ≡ [] }
    {
        Definitions {
            entries: Vec::new(alloc),
        }
    }

    /// The text of a name, with all names put in.
    pub fn text(&self, name: &[u8]) -> Option<&[u8]>
        ensures { option_copied result ≡ text_under self.now name.now }
    {
        self.entries
            .as_slice()
            .iter()
            .find(|entry| entry.0.as_slice() == name)
            .map(|entry| entry.1.as_slice())
    }

    /// Puts an entry before all others, so that it counts for its name.
    fn put(&mut self, alloc: Global, name: &[u8], text: Vec<u8>) -> Result<(), AllocError>
        ensures ok { IfOk result (λ _. self.new ≡ (name.now, text.items) ∷ self.old) }
        ensures err { OnErr result (self.new ≡ self.old) }
    {
        let entry = (Bytes::copy_of(alloc, name)?, Bytes::of(text));
        self.entries.insert(0, entry)?;
        Ok(())
    }

    /// Defines a name. Its text may use the names that are defined, and is a query itself.
    pub fn define(&mut self, alloc: Global, name: &[u8], text: &[u8]) -> Result<(), DefineFault>
        ensures defines { Defines self.old self.new name.now text.now result }
        ensures cause { HasDefineCause self.old text.now result }
    {
        let query = put_in(alloc, self, text)?;
        test(alloc, query.as_slice())?;
        self.put(alloc, name, query)?;
        Ok(())
    }
}
