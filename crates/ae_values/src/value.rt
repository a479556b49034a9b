// Values and objects.
ghost use Rattle.std.specs.Prelude.{◌≡◌, ◌<◌, ◌+◌, ◌∷◌, max, min, length, slice_get, slice_set, [], None, IfOk};
ghost use Rattle.std.specs.Prelude.{IfSome, IsTrue, option_map};
ghost use Rattle.std.specs.Option.{option_copied};
ghost use Rattle.ae_semantics.specs.Values as meant;
ghost use Rattle.ae_semantics.specs.Values.{height, tree_height, highest};
ghost use Rattle.ae_semantics.specs.Places.{field_value};
ghost use Rattle.ae_values.specs.Shown.{shown, shown_tree, fields_shown, all_measured, IsMeasured, IsMeasuredTree};
ghost use Rattle.ae_values.specs.Shown.{value_shown, tree_shown};
ghost use Rattle.ae_rules.specs.Verdict.{given};
ghost use Rattle.ae_tree.specs.Plain.{Code};
ghost use Rattle.ae_semantics.specs.Values.{value_fits, is_of_kind};
ghost use Rattle.ae_values.specs.Fitting.{fields_of_form, fields_of_kind};
ghost use Rattle.ae_values.specs.Inside.{value_inside, highest_besides, object_or, item_changed, tree_items};
ghost use Rattle.ae_semantics.specs.Values.{put_at, Owned};

use ae_tree::{Form, Kind, Name, Perm};
use sqlite_items::at;
use std::alloc::{AllocError, Global};
use std::mem::replace;

/// A value: a number, a truth, null, an object that stands here, or the number of a member of a group.
#[derive(Drop)]
#[cycle(value)]
pub enum Val {
    Int(i64),
    Bool(bool),
    Null,
    Object(Box<Object>),
    Ref(u64),
}

/// An object of a class with its fields in order and its height, or an array of integers.
#[derive(Drop)]
#[cycle(value)]
pub enum Object {
    Rec {
        class: Name,
        fields: Vec<Val>,
        height: u32,
    },
    Ints(Vec<i64>),
}

impl Val {
    /// How high the value is: what its object stores, without a walk. Takes no memory.
    #[tactic(auto, using(crate::specs::Shown::shows))]
    pub fn height(&self) -> u32
        requires { IsMeasured self.now }
        ensures { result ≡ height (shown self.now) }
    {
        self.stored()
    }

    /// Whether the value fits a place of this form, in each program in which the class that the form names has so many
    /// fields, or is not there. What stands in the fields does not count. Takes no memory.
    #[tactic(auto, using(crate::specs::Shown::shows))]
    pub fn fits(&self, form: &Form, fields: Option<usize>) -> bool
        ensures { (p : Code) → fields ≡ fields_of_form p form.now → result ≡ value_fits p form.now (shown self.now) }
    {
        match form {
            Form::Int => match self {
                Val::Int(_) => true,
                Val::Bool(_) | Val::Null | Val::Object(_) | Val::Ref(_) => false,
            },
            Form::Bool => match self {
                Val::Bool(_) => true,
                Val::Int(_) | Val::Null | Val::Object(_) | Val::Ref(_) => false,
            },
            Form::Object(Perm::Shared(_), _) => match self {
                Val::Null | Val::Ref(_) => true,
                Val::Int(_) | Val::Bool(_) | Val::Object(_) => false,
            },
            Form::Object(Perm::Unique | Perm::Immutable | Perm::Lent, kind) => match self {
                Val::Null => true,
                Val::Object(object) => object.is_of(kind, fields),
                Val::Int(_) | Val::Bool(_) | Val::Ref(_) => false,
            },
        }
    }

    /// The same value once more, with the same heights. Where memory is refused there is none. It goes as deep as the
    /// value is high, and a value of a program is at most 1,000 high.
    #[cycle(copy)]
    #[tactic(auto, using(crate::specs::Shown::shows))]
    pub fn copy(&self, alloc: Global) -> Result<Val, AllocError>
        ensures { IfOk result (λ v. value_shown v ≡ value_shown self.now) }
    {
        match self {
            Val::Int(n) => Ok(Val::Int(*n)),
            Val::Bool(b) => Ok(Val::Bool(*b)),
            Val::Null => Ok(Val::Null),
            Val::Object(object) => {
                let copied = object.copy(alloc)?;
                Ok(Val::Object(Box::new(alloc, copied)?))
            }
            Val::Ref(n) => Ok(Val::Ref(*n)),
        }
    }
}

impl Val {
    /// The value at the place to which these fields lead, one after another, and none exactly where there is no such
    /// place. Takes no memory.
    #[tactic(auto, using(crate::specs::Shown::shows))]
    pub fn at(&self, fields: &[u32]) -> Option<&Val>
        requires { IsMeasured self.now }
        ensures value { option_map shown (option_copied result) ≡ value_inside fields.now (shown self.now) }
        ensures measured { IfSome result (λ v. IsMeasured v.now) }
    {
        let mut value = self;
        for field in fields {
            match value {
                Val::Object(object) => match object.field(*field as usize) {
                    Some(inside) => value = inside,
                    None => return None,
                },
                Val::Int(_) | Val::Bool(_) | Val::Null | Val::Ref(_) => return None,
            }
        }
        Some(value)
    }
}

impl Val {
    // What the value stores of its height.
    #[tactic(auto, using(crate::specs::Shown::shows))]
    fn stored(&self) -> u32
        ensures { IsMeasured self.now → result ≡ height (shown self.now) }
    {
        match self {
            Val::Object(object) => object.stored(),
            Val::Int(_) | Val::Bool(_) | Val::Null | Val::Ref(_) => 0,
        }
    }
}

// The highest of these values, by what they store.
#[tactic(auto, using(crate::specs::Shown::shows))]
fn highest_of(fields: &[Val]) -> u32
    ensures { IsTrue (all_measured fields.now) → result ≡ highest (fields_shown fields.now) }
{
    let mut most = 0;
    for field in fields {
        most = most.max(field.stored());
    }
    most
}

// The highest of these values besides the one at this place, by what they store.
#[tactic(auto, using(crate::specs::Shown::shows))]
fn highest_of_others(fields: &[Val], at: usize) -> u32
    requires within { at < length fields.now }
    ensures { IsTrue (all_measured fields.now) → result ≡ highest_besides (fields_shown fields.now) at }
{
    highest_of(&fields[..at]).max(highest_of(&fields[at + 1..]))
}

// How high an object is once the field at this place has another height, up to the largest number. The others are
// looked through only where the field was the highest and is lower now.
#[tactic(auto, using(crate::specs::Shown::shows))]
fn height_after(object: u32, fields: &[Val], at: usize, before: u32, after: u32) -> u32
    requires within { at < length fields.now }
    ensures { IsTrue (all_measured fields.now) → object ≡ max before (highest_besides (fields_shown fields.now) at) + 1
        → result ≡ min (max after (highest_besides (fields_shown fields.now) at) + 1) 4294967295 }
{
    if before <= after {
        object.max(after.saturating_add(1))
    } else if before.saturating_add(1) < object {
        object
    } else {
        after.max(highest_of_others(fields, at)).saturating_add(1)
    }
}

impl Object {
    /// An object of a class with these fields, in order. It stores that it is one higher than its highest field. The
    /// fields of an object of a program are at most 1,000 high. Takes no memory.
    #[tactic(auto, using(crate::specs::Shown::shows))]
    pub fn record(class: Name, fields: Vec<Val>) -> Object
        requires measured { IsTrue (all_measured fields.items) }
        requires room { highest (fields_shown fields.items) < 4294967295 }
        ensures tree { shown_tree result ≡ meant.Object class (fields_shown fields.items) }
        ensures measured { IsMeasuredTree result }
    {
        let height = highest_of(fields.as_slice()) + 1;
        Object::Rec {
            class,
            fields,
            height,
        }
    }

    /// An array of these integers. Takes no memory.
    #[tactic(auto, using(crate::specs::Shown::shows))]
    pub fn ints(items: Vec<i64>) -> Object
        ensures tree { shown_tree result ≡ meant.Array items.items }
        ensures measured { IsMeasuredTree result }
    {
        Object::Ints(items)
    }

    /// How high the object is: what it stores, without a walk. Takes no memory.
    #[tactic(auto, using(crate::specs::Shown::shows))]
    pub fn height(&self) -> u32
        requires { IsMeasuredTree self.now }
        ensures { result ≡ tree_height (shown_tree self.now) }
    {
        self.stored()
    }

    // What the object stores of its height.
    #[tactic(auto, using(crate::specs::Shown::shows))]
    fn stored(&self) -> u32
        ensures { IsMeasuredTree self.now → result ≡ tree_height (shown_tree self.now) }
    {
        match self {
            Object::Rec { height, .. } => *height,
            Object::Ints(_) => 1,
        }
    }

    /// The value of the field with this number, and none exactly where the object has not so many fields, or is an
    /// array. Takes no memory.
    #[tactic(auto, using(crate::specs::Shown::shows, crate::proofs::ValueLemmas::value_at_place))]
    pub fn field(&self, number: usize) -> Option<&Val>
        requires { IsMeasuredTree self.now }
        ensures value { option_map shown (option_copied result) ≡ field_value (shown_tree self.now) number }
        ensures measured { IfSome result (λ v. IsMeasured v.now) }
    {
        match self {
            Object::Rec { fields, .. } => at(fields.as_slice(), number),
            Object::Ints(_) => None,
        }
    }

    /// Whether the object is of this kind, in each program in which the class that the kind names has so many fields,
    /// or is not there. Takes no memory.
    #[tactic(auto, using(crate::specs::Shown::shows, crate::proofs::ValueLemmas::as_many_values))]
    pub fn is_of(&self, kind: &Kind, fields: Option<usize>) -> bool
        ensures { (p : Code) → fields ≡ fields_of_kind p kind.now
            → result ≡ is_of_kind p kind.now (shown_tree self.now) }
    {
        match self {
            Object::Rec {
                class,
                fields: values,
                ..
            } => match kind {
                Kind::Class(name, _) => *name == *class && fields == Some(values.len()),
                Kind::Ints => false,
            },
            Object::Ints(_) => match kind {
                Kind::Class(..) => false,
                Kind::Ints => true,
            },
        }
    }

    /// The same object once more, with the same heights. Where memory is refused there is none.
    #[cycle(copy)]
    #[tactic(auto, using(crate::specs::Shown::shows))]
    pub fn copy(&self, alloc: Global) -> Result<Object, AllocError>
        ensures { IfOk result (λ o. tree_shown o ≡ tree_shown self.now) }
    {
        match self {
            Object::Rec {
                class,
                fields,
                height,
            } => {
                let mut copied = Vec::new(alloc);
                for field in fields {
                    copied.push(field.copy(alloc)?)?;
                }
                Ok(Object::Rec {
                    class: *class,
                    fields: copied,
                    height: *height,
                })
            }
            Object::Ints(items) => Ok(Object::Ints(Vec::from_slice(alloc, items.as_slice())?)),
        }
    }
}

impl Val {
    // Puts a new value at the place to which these fields lead, and hands out what stood there. Where there is no such
    // place the new value is handed out.
    #[cycle(replace)]
    #[tactic(auto, using(crate::specs::Shown::shows))]
    fn replace(&mut self, fields: &[u32], new: Val) -> Val
        ensures left { shown self.new ≡ put_at fields.now (shown new) (shown self.old) }
        ensures taken { shown result ≡ given (value_inside fields.now (shown self.old)) (shown new) (λ v. v) }
        ensures measured { IsMeasured self.old → IsMeasured new
            → height (put_at fields.now (shown new) (shown self.old)) < 4294967296 → IsMeasured self.new }
        ensures taken_measured { IsMeasured self.old → IsMeasured new → IsMeasured result }
    {
        match fields.split_first() {
            Some((first, rest)) => match self {
                Val::Object(object) => object.replace(*first, rest, new),
                Val::Int(_) | Val::Bool(_) | Val::Null | Val::Ref(_) => new,
            },
            None => replace(self, new),
        }
    }
}

impl Object {
    /// A new value comes to stand at the place to which these fields lead, as in a value. Without fields it is the
    /// whole
    /// object, and nothing changes where it is none. Takes no memory.
    #[tactic(auto, using(crate::specs::Shown::shows))]
    pub fn put(&mut self, fields: &[u32], new: Val)
        requires measured { IsMeasuredTree self.old }
        requires new { IsMeasured new }
        requires room { height (put_at fields.now (shown new) (Owned (shown_tree self.old))) < 4294967296 }
        ensures tree { shown_tree self.new ≡
            object_or (shown_tree self.old) (put_at fields.now (shown new) (Owned (shown_tree self.old))) }
        ensures measured { IsMeasuredTree self.new }
    {
        match fields.split_first() {
            Some((first, rest)) => drop(self.replace(*first, rest, new)),
            None => match new {
                Val::Object(object) => *self = Box::into_inner(object),
                Val::Int(_) | Val::Bool(_) | Val::Null | Val::Ref(_) => {}
            },
        }
    }

    // The same, where the first field and those behind it lead to the place.
    #[cycle(replace)]
    #[tactic(auto, using(crate::specs::Shown::shows))]
    fn replace(&mut self, first: u32, rest: &[u32], new: Val) -> Val
        ensures left { Owned (shown_tree self.new) ≡ put_at (first ∷ rest.now) (shown new) (Owned
            (shown_tree self.old)) }
        ensures taken { shown result ≡
            given (value_inside (first ∷ rest.now) (Owned (shown_tree self.old))) (shown new) (λ v. v) }
        ensures measured { IsMeasuredTree self.old → IsMeasured new
            → height (put_at (first ∷ rest.now) (shown new) (Owned (shown_tree self.old))) < 4294967296
            → IsMeasuredTree self.new }
        ensures taken_measured { IsMeasuredTree self.old → IsMeasured new → IsMeasured result }
    {
        match self {
            Object::Rec { fields, height, .. } => match fields.get_mut(first as usize) {
                Some(field) => {
                    let before = field.stored();
                    let old = field.replace(rest, new);
                    let after = field.stored();
                    *height = height_after(
                        *height,
                        fields.as_slice(),
                        first as usize,
                        before,
                        after,
                    );
                    old
                }
                None => new,
            },
            Object::Ints(_) => new,
        }
    }
}

impl Val {
    // The height of a value that is measured can be stored.
    fn height_is_stored(&self)
        ensures { IsMeasured self.now → height (shown self.now) < 4294967296 }
    {
        self.stored();
    }

    /// A new value comes to stand at the place to which these fields lead, one after another, and the heights on the
    /// way are made right. Where there is no such place nothing changes. What stood there is dropped. Takes no memory.
    /// It costs the way alone, except where a lower value comes in place of the highest field of an object, whose other
    /// fields are then looked through.
    pub fn put(&mut self, fields: &[u32], new: Val)
        requires measured { IsMeasured self.old }
        requires new { IsMeasured new }
        requires room { height (put_at fields.now (shown new) (shown self.old)) < 4294967296 }
        ensures value { shown self.new ≡ put_at fields.now (shown new) (shown self.old) }
        ensures measured { IsMeasured self.new }
    {
        drop(self.replace(fields, new));
    }

    /// Takes out the value at the place to which these fields lead, one after another; null stands there then, and the
    /// heights on the way are made right. Where there is no such place nothing changes, and null is handed out.
    /// Takes no
    /// memory.
    #[tactic(auto, using(crate::specs::Shown::shows))]
    pub fn take(&mut self, fields: &[u32]) -> Val
        requires { IsMeasured self.old }
        ensures taken { shown result ≡ given (value_inside fields.now (shown self.old)) meant.Null (λ v. v) }
        ensures left { shown self.new ≡ put_at fields.now meant.Null (shown self.old) }
        ensures measured { IsMeasured self.new }
        ensures taken_measured { IsMeasured result }
    {
        self.height_is_stored();
        self.replace(fields, Val::Null)
    }

    /// How high the value would be with a value of this height at the place to which these fields lead, before anything
    /// is changed: no higher than the largest number is told. Takes no memory. It costs what the change would cost.
    #[cycle(height_with)]
    #[tactic(auto, using(crate::specs::Shown::shows))]
    pub fn height_with(&self, fields: &[u32], height: u32) -> u32
        ensures { IsMeasured self.now → (new : meant.Val) → meant.height new ≡ height
            → result ≡ min (meant.height (put_at fields.now new (shown self.now))) 4294967295 }
    {
        match fields.split_first() {
            Some((first, rest)) => match self {
                Val::Object(object) => object.height_with_in_field(*first, rest, height),
                Val::Int(_) | Val::Bool(_) | Val::Null | Val::Ref(_) => 0,
            },
            None => height,
        }
    }
}

impl Object {
    /// The same of an object. Without fields it is a value of this height that comes in its place.
    #[tactic(auto, using(crate::specs::Shown::shows))]
    pub fn height_with(&self, fields: &[u32], height: u32) -> u32
        ensures { IsMeasuredTree self.now → (new : meant.Val) → meant.height new ≡ height
            → result ≡ min (meant.height (put_at fields.now new (Owned (shown_tree self.now)))) 4294967295 }
    {
        match fields.split_first() {
            Some((first, rest)) => self.height_with_in_field(*first, rest, height),
            None => height,
        }
    }

    // The same, where the first field and those behind it lead to the place.
    #[cycle(height_with)]
    #[tactic(auto, using(crate::specs::Shown::shows))]
    fn height_with_in_field(&self, first: u32, rest: &[u32], height: u32) -> u32
        ensures { IsMeasuredTree self.now → (new : meant.Val) → meant.height new ≡ height
            → result ≡ min (meant.height (put_at (first ∷ rest.now) new (Owned (shown_tree self.now)))) 4294967295 }
    {
        match self {
            Object::Rec {
                fields,
                height: own,
                ..
            } => match at(fields.as_slice(), first as usize) {
                Some(field) => {
                    let after = field.height_with(rest, height);
                    height_after(
                        *own,
                        fields.as_slice(),
                        first as usize,
                        field.stored(),
                        after,
                    )
                }
                None => self.stored(),
            },
            Object::Ints(_) => 1,
        }
    }
}

// One item comes to be this number, if there is such an item.
fn write_item(items: &mut Vec<i64>, at: usize, n: i64)
    ensures { items.new.items ≡ slice_set items.old.items at n }
{
    if let Some(item) = items.get_mut(at) {
        *item = n;
    }
}

impl Val {
    /// One item of the array at the place to which these fields lead comes to be this number: one write. Where there is
    /// no such place, no array or no such item nothing changes. Takes no memory.
    #[cycle(set_item)]
    #[tactic(auto, using(crate::specs::Shown::shows))]
    pub fn set_item(&mut self, fields: &[u32], at: usize, n: i64)
        ensures value { shown self.new ≡ item_changed fields.now at n (shown self.old) }
        ensures measured { IsMeasured self.old → IsMeasured self.new }
    {
        match fields.split_first() {
            Some((first, rest)) => match self {
                Val::Object(object) => object.set_item_in_field(*first, rest, at, n),
                Val::Int(_) | Val::Bool(_) | Val::Null | Val::Ref(_) => {}
            },
            None => self.set_own_item(at, n),
        }
    }

    // One item of the array that the value is.
    #[tactic(auto, using(crate::specs::Shown::shows))]
    fn set_own_item(&mut self, at: usize, n: i64)
        ensures value { shown self.new ≡ item_changed [] at n (shown self.old) }
        ensures measured { IsMeasured self.old → IsMeasured self.new }
    {
        match self {
            Val::Object(object) => object.set_own_item(at, n),
            Val::Int(_) | Val::Bool(_) | Val::Null | Val::Ref(_) => {}
        }
    }
}

impl Object {
    /// The same of an object. Without fields the array is the object itself.
    #[tactic(auto, using(crate::specs::Shown::shows))]
    pub fn set_item(&mut self, fields: &[u32], at: usize, n: i64)
        ensures value { Owned (shown_tree self.new) ≡ item_changed fields.now at n (Owned (shown_tree self.old)) }
        ensures measured { IsMeasuredTree self.old → IsMeasuredTree self.new }
    {
        match fields.split_first() {
            Some((first, rest)) => self.set_item_in_field(*first, rest, at, n),
            None => self.set_own_item(at, n),
        }
    }

    // The same, where the first field and those behind it lead to the array.
    #[cycle(set_item)]
    #[tactic(auto, using(crate::specs::Shown::shows))]
    fn set_item_in_field(&mut self, first: u32, rest: &[u32], at: usize, n: i64)
        ensures value { Owned (shown_tree self.new) ≡ item_changed (first ∷ rest.now) at n (Owned
            (shown_tree self.old)) }
        ensures measured { IsMeasuredTree self.old → IsMeasuredTree self.new }
    {
        match self {
            Object::Rec { fields, height, .. } => match fields.get_mut(first as usize) {
                Some(field) => field.set_item(rest, at, n),
                None => {}
            },
            Object::Ints(_) => {}
        }
    }

    // One item of the array that the object is.
    #[tactic(auto, using(crate::specs::Shown::shows))]
    fn set_own_item(&mut self, at: usize, n: i64)
        ensures value { Owned (shown_tree self.new) ≡ item_changed [] at n (Owned (shown_tree self.old)) }
        ensures measured { IsMeasuredTree self.old → IsMeasuredTree self.new }
    {
        match self {
            Object::Rec { .. } => {}
            Object::Ints(items) => write_item(items, at, n),
        }
    }

    /// How many items the array has, and none exactly where the object is no array. Takes no memory.
    #[tactic(auto, using(crate::specs::Shown::shows))]
    pub fn len(&self) -> Option<usize>
        ensures { result ≡ option_map length (tree_items (shown_tree self.now)) }
    {
        match self {
            Object::Rec { .. } => None,
            Object::Ints(items) => Some(items.len()),
        }
    }

    /// The item at this place, and none exactly where the object is no array, or has not so many. Takes no memory.
    #[tactic(auto, using(crate::specs::Shown::shows))]
    pub fn item(&self, place: usize) -> Option<i64>
        ensures { result ≡ given (tree_items (shown_tree self.now)) None (λ ns. slice_get ns place) }
    {
        match self {
            Object::Rec { .. } => None,
            Object::Ints(items) => at(items.as_slice(), place).copied(),
        }
    }
}
