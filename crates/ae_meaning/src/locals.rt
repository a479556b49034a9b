// The values of a method's names.
ghost use Rattle.std.specs.Prelude.{◌≡◌, ◌<◌, length, OnOk};
ghost use Rattle.ae_meaning.specs.Values.{empty, today_with};
ghost use Rattle.ae_meaning.specs.Running.{env_of};

use ae_tree::Name;
use std::alloc::{AllocError, Global};

/// The value of each name that has one, by the name's number.
#[derive(Drop)]
pub struct Locals {
    pub values: Vec<Option<i64>>,
}

impl Locals {
    /// No name has a value.
    pub fn new(alloc: Global) -> Locals
        ensures { env_of result ≡ empty }
    {
        Locals {
            values: Vec::new(alloc),
        }
    }

    pub fn get(&self, name: Name) -> Option<i64>
        ensures { result ≡ env_of self.now name }
    {
        match self.values.get(name as usize) {
            Some(value) => *value,
            None => None,
        }
    }

    // Names up to this one have a place.
    fn make_room(&mut self, name: Name) -> Result<(), AllocError>
        ensures within { OnOk result (name < length self.new.values.items) }
        ensures same { OnOk result (env_of self.new ≡ env_of self.old) }
    {
        let least = name as usize + 1;
        if self.values.len() < least {
            self.values.resize(least, None)?;
        }
        Ok(())
    }

    /// Gives a name its value, in place of an older one.
    pub fn put(&mut self, name: Name, value: i64) -> Result<(), AllocError>
        ensures { OnOk result (env_of self.new ≡ today_with name value (env_of self.old)) }
    {
        self.make_room(name)?;
        self.values[name as usize] = Some(value);
        Ok(())
    }
}
