// The class table.
ghost use Rattle.std.specs.Prelude.{◌≡◌, ◌<◌, nat_eq, length, Some, slice_get, option_map};
ghost use Rattle.indexmap.specs.IndexMap.{get};

use ae_text::Items;
use ae_tree::Name;
use indexmap::IndexMap;

/// What a class has under a name: a field by its place in the class, or a method by its number in the program.
#[derive(Clone, Copy, Debug, PartialEq, Eq)]
pub enum Member {
    Field(u32),
    Method(u32),
}

/// The declared classes, top-level methods and members by name.
#[derive(Drop)]
pub struct ClassTable {
    pub classes: IndexMap<Name, u32>,
    pub tops: IndexMap<Name, u32>,
    pub members: Items<IndexMap<Name, Member>>,
}

impl ClassTable {
    /// The number of the class with this name, and none exactly where no class has it. Takes no memory.
    pub fn class(&self, name: Name) -> Option<u32>
        ensures { result ≡ get nat_eq self.now.classes name }
    {
        self.classes.get(&name).copied()
    }

    /// The number of the method at the top with this name, and none exactly where no such method has it. Takes no
    /// memory.
    pub fn top(&self, name: Name) -> Option<u32>
        ensures { result ≡ get nat_eq self.now.tops name }
    {
        self.tops.get(&name).copied()
    }

    /// What the class with this number has under a name, and none exactly where it has nothing. Takes no memory.
    pub fn member(&self, class: u32, name: Name) -> Option<Member>
        requires { class < length self.now.members }
        ensures { option_map (λ m. get nat_eq m name) (slice_get self.now.members class) ≡ Some result }
    {
        self.members.as_slice()[class as usize].get(&name).copied()
    }
}
