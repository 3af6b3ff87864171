use kom_letters::{Charset, show_name};
use kom_types::Memory;
use std::alloc::Global;
use std::collections::HashMap;

/// How many columns of a name are kept.
const NAME_COLUMNS: u16 = 200;

/// The names of conferences and persons that were asked for.
#[derive(Drop)]
pub(crate) struct Names {
    names: HashMap<u32, String>,
}

impl Names {
    pub(crate) fn new(alloc: Global) -> Names {
        Names {
            names: HashMap::new(alloc),
        }
    }

    pub(crate) fn has(&self, number: u32) -> bool {
        self.names.contains_key(&number)
    }

    /// Keeps a name of the server.
    pub(crate) fn learn(&mut self, alloc: Global, number: u32, name: &[u8]) -> Result<(), Memory> {
        let shown = show_name(alloc, name, Charset::Latin1, NAME_COLUMNS)?;
        self.names.insert(number, shown)?;
        Ok(())
    }

    /// A name as it is shown.
    pub(crate) fn name(&self, number: u32) -> &str {
        match self.names.get(&number) {
            Some(name) => name.as_str(),
            None if number == 0 => "nobody",
            None => "somebody unknown",
        }
    }
}
