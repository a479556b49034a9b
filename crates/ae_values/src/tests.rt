ghost use Rattle.std.specs.Prelude.{◌≡◌, IsTrue};
ghost use Rattle.ae_values.specs.Binding.{bound_measured};
ghost use Rattle.ae_values.specs.Environments.{waiting_binds};

use crate::{Bound, Env, Image, Object, Store, Val};
use ae_tree::{Form, Perm};
use std::test::Fail;

// Each call that takes memory can go well.
#[test]
#[tactic(auto, using(crate::specs::Shown::shows))]
fn copied_objects_become_members(rt: HostRuntime) -> Result<(), Fail> {
    let alloc = rt.alloc();
    let ints = Object::ints(Vec::from_slice(alloc, [7, 8].as_slice())?);
    let mut fields = Vec::new(alloc);
    fields.push(Val::Object(Box::new(alloc, ints)?))?;
    fields.push(Val::Ref(3))?;
    let object = Object::record(5, fields);
    let copied = object.copy(alloc)?;
    assert_eq!(rt; copied.height(), 2);
    let mut store = Store::new(alloc);
    let number = match store.add(copied) {
        Ok(number) => number,
        Err(_) => return Err("memory")?,
    };
    assert_eq!(rt; number, 0);
    assert!(rt; store.get(1).is_none());
    let again = store.copy(alloc)?;
    assert!(rt; again.get(0).is_some_and(|member| member.field(1).is_some()));
    Ok(())
}

// This number is bound to the name.
#[tactic(auto, using(crate::specs::Shown::shows))]
fn binds(env: &mut Env, name: u32, n: i64) -> Result<(), Fail>
    ensures { waiting_binds env.new ≡ waiting_binds env.old }
{
    match env.put(name, Perm::Unique, Bound::Value(Form::Int, Val::Int(n))) {
        Ok(()) => Ok(()),
        Err(_) => Err("memory")?,
    }
}

// Whether the name is bound to this number.
fn has(env: &Env, name: u32, n: i64) -> bool {
    match env.get(name) {
        Some(Bound::Value(Form::Int, Val::Int(bound))) => *bound == n,
        _ => false,
    }
}

// A name is bound anew, taken out, assigned and frozen, whether it has a hint or not.
#[test]
#[tactic(auto, using(crate::specs::Shown::shows))]
fn names_are_bound(rt: HostRuntime) -> Result<(), Fail> {
    let mut env = Env::new(rt.alloc(), 5)?;
    for name in [4, 9] {
        binds(&mut env, name, 1)?;
        binds(&mut env, name, 2)?;
        assert!(rt; has(&env, name, 2));
        assert!(rt; env.take(name).is_some());
        assert!(rt; env.take(name).is_none());
        assert!(rt; matches!(env.get(name), Some(Bound::Moved(Form::Int))));
        env.assign(name, Val::Int(3));
        env.set_perm(name, Perm::Immutable);
        assert!(rt; has(&env, name, 3));
    }
    assert!(rt; env.get(0).is_none());
    assert_eq!(rt; env.mark(), 2);
    Ok(())
}

// A name that a block or a call bound again is found where it was before.
#[test]
fn names_come_back(rt: HostRuntime) -> Result<(), Fail> {
    let mut env = Env::new(rt.alloc(), 5)?;
    binds(&mut env, 1, 10)?;
    let mark = env.mark();
    binds(&mut env, 3, 30)?;
    let base = env.enter();
    assert!(rt; env.get(1).is_none());
    binds(&mut env, 3, 31)?;
    binds(&mut env, 1, 11)?;
    env.forget(1);
    assert!(rt; env.get(1).is_none());
    assert!(rt; has(&env, 3, 31));
    env.leave(base);
    assert!(rt; has(&env, 1, 10));
    assert!(rt; has(&env, 3, 30));
    env.forget(mark);
    assert!(rt; env.get(3).is_none());
    Ok(())
}

// Two thousand names.
#[test]
fn many_names_are_bound(rt: HostRuntime) -> Result<(), Fail> {
    let mut env = Env::new(rt.alloc(), 2000)?;
    for name in 0..2000 {
        binds(&mut env, name, i64::from(name))?;
    }
    for name in 0..2000 {
        assert!(rt; has(&env, name, i64::from(name)));
    }
    Ok(())
}

// A group, or another name of one, is bound to the name.
fn binds_group(env: &mut Env, name: u32, group: Bound) -> Result<(), Fail>
    requires { IsTrue (bound_measured group) }
{
    match env.put(name, Perm::Unique, group) {
        Ok(()) => Ok(()),
        Err(_) => Err("memory")?,
    }
}

// Whether the first member of the group is an array that begins with this number.
fn begins_with(env: &Env, group: u32, n: i64) -> bool {
    match env.store(group) {
        Some(store) => match store.get(0) {
            Some(member) => member.item(0) == Some(n),
            None => false,
        },
        None => false,
    }
}

// An object joins a group by another of its names, and is changed where it stands.
#[test]
#[tactic(auto, using(crate::specs::Shown::shows))]
fn members_are_changed(rt: HostRuntime) -> Result<(), Fail> {
    let alloc = rt.alloc();
    let mut env = Env::new(alloc, 5)?;
    binds_group(&mut env, 1, Bound::Whole(Image::Store(Store::new(alloc))))?;
    binds_group(&mut env, 3, Bound::Other(1))?;
    let object = Object::ints(Vec::from_slice(alloc, [7].as_slice())?);
    let number = env.add_member(3, object);
    assert!(rt; matches!(number, Ok(Some(0))));
    assert!(rt; begins_with(&env, 1, 7));
    let fields: Vec<u32> = Vec::new(alloc);
    assert_eq!(rt; env.member_height_with(3, 0, fields.as_slice(), 4), 4);
    env.set_member_item(3, 0, fields.as_slice(), 0, 8);
    assert!(rt; begins_with(&env, 3, 8));
    Ok(())
}
