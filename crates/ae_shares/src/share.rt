// Shares of what is held.
ghost use Rattle.std.specs.Prelude.{◌≡◌, MatchOption, Some};
ghost use Rattle.ae_rules.specs.Shares.{splits, joins};

use ae_rules::{Held, taken_is_given_back};
use ae_tree::Perm;

// What is left where a part is lent.
fn lend(held: Held) -> Option<(Held, Held)>
    ensures { result ≡ splits held Perm.Lent }
{
    match held {
        Held::Unique => Some((Held::Lent, Held::Split(1))),
        Held::Split(parts) => {
            if parts > 0 && parts < u32::MAX {
                Some((Held::Lent, Held::Split(parts + 1)))
            } else {
                None
            }
        }
        Held::Immutable => Some((Held::Lent, Held::Immutable)),
        Held::Lent => Some((Held::Lent, Held::Lent)),
        Held::Shared(_) | Held::Inner(_) | Held::None => None,
    }
}

// A share in a group, where the group is the same one.
fn share(held: Held, need: u32) -> Option<(Held, Held)>
    ensures { result ≡ splits held (Perm.Shared need) }
{
    match held {
        Held::Shared(group) => {
            if group == need {
                Some((held, held))
            } else {
                None
            }
        }
        Held::Unique
        | Held::Split(_)
        | Held::Immutable
        | Held::Lent
        | Held::Inner(_)
        | Held::None => None,
    }
}

/// The part that meets a need, and what is left of what was held. None, where nothing that is held meets the need, and
/// where as many parts are lent as can be counted.
pub fn take(held: Held, need: Perm) -> Option<(Held, Held)>
    ensures share { result ≡ splits held need }
    ensures comes_back { MatchOption result (Unit {0}) (λ s. joins s.1 s.0 ≡ Some held) }
{
    taken_is_given_back();
    match need {
        Perm::Unique => match held {
            Held::Unique => Some((Held::Unique, Held::None)),
            Held::Split(_)
            | Held::Immutable
            | Held::Lent
            | Held::Shared(_)
            | Held::Inner(_)
            | Held::None => None,
        },
        Perm::Immutable => match held {
            Held::Immutable => Some((Held::Immutable, Held::Immutable)),
            Held::Unique
            | Held::Split(_)
            | Held::Lent
            | Held::Shared(_)
            | Held::Inner(_)
            | Held::None => None,
        },
        Perm::Lent => lend(held),
        Perm::Shared(group) => share(held, group),
    }
}

// What is held once one of the lent parts is back. No part of none is.
fn one_less(parts: u32) -> Option<Held>
    ensures { result ≡ joins (Held.Split parts) Held.Lent }
{
    match parts {
        0 => None,
        1 => Some(Held::Unique),
        more => Some(Held::Split(more - 1)),
    }
}

/// What is held once a part comes back to what was left. None, where the part was not taken from what left this.
pub fn give(rest: Held, part: Held) -> Option<Held>
    ensures { result ≡ joins rest part }
{
    match part {
        Held::Unique => match rest {
            Held::None => Some(Held::Unique),
            Held::Unique
            | Held::Split(_)
            | Held::Immutable
            | Held::Lent
            | Held::Shared(_)
            | Held::Inner(_) => None,
        },
        Held::Lent => match rest {
            Held::Split(parts) => one_less(parts),
            Held::Immutable | Held::Lent => Some(rest),
            Held::Unique | Held::Shared(_) | Held::Inner(_) | Held::None => None,
        },
        Held::Immutable => match rest {
            Held::Immutable => Some(Held::Immutable),
            Held::Unique
            | Held::Split(_)
            | Held::Lent
            | Held::Shared(_)
            | Held::Inner(_)
            | Held::None => None,
        },
        Held::Shared(group) => match rest {
            Held::Shared(other) => {
                if other == group {
                    Some(Held::Shared(group))
                } else {
                    None
                }
            }
            Held::Unique
            | Held::Split(_)
            | Held::Immutable
            | Held::Lent
            | Held::Inner(_)
            | Held::None => None,
        },
        Held::Split(_) | Held::Inner(_) | Held::None => None,
    }
}
