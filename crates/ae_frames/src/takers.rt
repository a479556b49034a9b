// The parameters of a method, as a call of it binds them.
ghost use Rattle.std.specs.Prelude.{◌≡◌, [], IfOk};
ghost use Rattle.ae_tree.specs.Shown.{definition};
ghost use Rattle.ae_semantics.specs.Calls as spec;
ghost use Rattle.ae_judge.specs.Tabled.{code_of};
ghost use Rattle.ae_frames.specs.Givens.{all_takers, me_taker};

use crate::given::Parameter;
use ae_calls::{GroupsIn, ParamSlot, me_slot, param_slot};
use ae_judge::Tabled;
use ae_text::{Items, Memory};
use ae_tree::{Form, Method, THIS};

// The receiver, where the method has one.
fn me_taken(tabled: &Tabled, own: &GroupsIn, method: &Method) -> Result<Vec<Parameter>, Memory>
    requires { (own.now.names ≡ []) × (own.now.groups ≡ []) }
    ensures { IfOk result (λ ts. all_takers ts ≡ me_taker (code_of tabled.now) (definition method.now)) }
{
    let mut takers = Vec::new(tabled.alloc);
    match &method.me {
        Some(me) => {
            let slot = match me_slot(tabled, own, method, me) {
                Ok(slot) => slot,
                Err(_) => return Err(Memory),
            };
            let form = Form::Object(slot.perm, slot.kind);
            let slot = ParamSlot {
                form,
                away: slot.away,
            };
            match takers.push(Parameter { name: THIS, slot }) {
                Ok(()) => Ok(takers),
                Err(_) => Err(Memory),
            }
        }
        None => Ok(takers),
    }
}

/// The receiver, where the method has one, and the parameters in order, each with its form in the method. Takes memory
/// for them.
pub(crate) fn takers(tabled: &Tabled, method: &Method) -> Result<Vec<Parameter>, Memory>
    ensures { IfOk result (λ ts. all_takers ts ≡ spec.takers (code_of tabled.now) (definition method.now)) }
{
    let own = GroupsIn {
        names: Items::new(tabled.alloc),
        groups: Items::new(tabled.alloc),
    };
    let mut takers = match me_taken(tabled, &own, method) {
        Ok(takers) => takers,
        Err(memory) => return Err(memory),
    };
    for param in method.params.as_slice() {
        let slot = match param_slot(tabled.alloc, &own, param) {
            Ok(slot) => slot,
            Err(_) => return Err(Memory),
        };
        let name = param.name.name;
        match takers.push(Parameter { name, slot }) {
            Ok(()) => {}
            Err(_) => return Err(Memory),
        }
    }
    Ok(takers)
}
