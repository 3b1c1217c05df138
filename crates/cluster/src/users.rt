ghost use Rattle.std.specs.Prelude.{◌≡◌, ◌++◌, ◌↔◌, [], ◌∷◌, length, is_some, IfOk, option_copied};
ghost use Rattle.std.specs.Bool.{IsTrue};
ghost use Rattle.std.specs.BTreeMap.{insert_entry};
ghost use Rattle.pool_view.specs.Names.{at_key, key_cmp};
ghost use Rattle.cluster.specs.Freed.{without_user};
ghost use Rattle.cluster.specs.Tables.{changed_at};

use crate::Use;
use dra_values::Duplicate;
use object_fields::Key;
use std::alloc::{AllocError, Global};
use std::cmp::Ordering;
use std::marker::Model;

/// The pods that use a claim, each with how it does, in the order of their keys.
///
/// Contracts see them as a list of pairs. Most claims have one user, so they are kept in a list with room
/// for its items and no more.
#[derive(Drop)]
pub struct Users {
    items: Vec<(Key, Use)>,
}

impl Model for Users {
    ghost use Rattle.std.specs.Prelude.{List};
    ghost use Rattle.object_fields.specs.declared.key.Key.{Key};
    ghost use Rattle.cluster.specs.declared.state.Use.{Use};

    ghost Value = { List (Key × Use) };

    ghost view = { λ u. u.items.items };
}

impl Users {
    /// No user. Allocates nothing.
    pub fn none(alloc: Global) -> Users
        ensures { result ≡ [] }
    {
        Users {
            items: Vec::new(alloc),
        }
    }

    /// The users, in the order of their keys.
    pub fn as_slice(&self) -> &[(Key, Use)]
        ensures { result.now ≡ self.now }
    {
        &self.items
    }

    /// How many users.
    pub fn len(&self) -> usize
        ensures { result ≡ length self.now }
    {
        self.items.len()
    }

    /// Whether there is no user.
    pub fn is_empty(&self) -> bool
        ensures { IsTrue result ↔ (self.now ≡ []) }
    {
        self.items.is_empty()
    }

    /// How the pod uses the claim, or `None` if it doesn't.
    pub fn get(&self, pod: &Key) -> Option<&Use>
        ensures { option_copied result ≡ at_key self.now pod.now }
    {
        for user in self.as_slice() {
            if pod.cmp(&user.0).is_eq() {
                return Some(&user.1);
            }
        }
        None
    }

    /// Whether the pod uses the claim.
    pub fn contains_key(&self, pod: &Key) -> bool
        ensures { result ≡ is_some (at_key self.now pod.now) }
    {
        self.get(pod).is_some()
    }

    /// These users and the pod, or if it is one of them, these with another use of it. `AllocError` is returned
    /// only if memory runs out.
    pub fn with(&self, alloc: Global, pod: &Key, how: Use) -> Result<Users, AllocError>
        ensures { IfOk result (λ users. users ≡ insert_entry key_cmp self.now pod.now how) }
    {
        let mut items = Vec::with_capacity(alloc, self.len().saturating_add(1))?;
        let mut rest = self.as_slice();
        while let Some((user, later)) = rest.split_first() {
            match pod.cmp(&user.0) {
                Ordering::Less => return joined(alloc, items, pod, how, rest),
                Ordering::Equal => return joined(alloc, items, &user.0, how, later),
                Ordering::Greater => items.push(user.duplicate(alloc)?)?,
            }
            rest = later;
        }
        joined(alloc, items, pod, how, rest)
    }

    /// These users without the pod. `AllocError` is returned only if memory runs out.
    pub fn without(&self, alloc: Global, pod: &Key) -> Result<Users, AllocError>
        ensures { IfOk result (λ users. users ≡ without_user pod.now self.now) }
    {
        let mut items = Vec::with_capacity(alloc, self.len())?;
        let mut rest = self.as_slice();
        while let Some((user, later)) = rest.split_first() {
            rest = later;
            if pod.cmp(&user.0).is_eq() {
                break;
            }
            items.push(user.duplicate(alloc)?)?;
        }
        push_all(alloc, &mut items, rest)?;
        Ok(Users { items })
    }

    /// Changes how the pod uses the claim, if it does.
    pub fn set(&mut self, pod: &Key, how: Use)
        ensures { self.new ≡ changed_at pod.now (λ _. how) self.old }
    {
        for index in 0..self.items.len() {
            if pod.cmp(&self.items[index].0).is_eq() {
                self.items[index].1 = how;
                return;
            }
        }
    }
}

/// The users of a list, then the pod, and then the others.
fn joined(
    alloc: Global,
    items: Vec<(Key, Use)>,
    pod: &Key,
    how: Use,
    others: &[(Key, Use)],
) -> Result<Users, AllocError>
    ensures { IfOk result (λ users. users ≡ items.items ++ (pod.now, how) ∷ others.now) }
{
    let mut items = items;
    items.push((pod.copy(alloc)?, how))?;
    push_all(alloc, &mut items, others)?;
    Ok(Users { items })
}

/// Puts copies of the users at the end of a list.
fn push_all(
    alloc: Global,
    items: &mut Vec<(Key, Use)>,
    users: &[(Key, Use)],
) -> Result<(), AllocError>
    ensures { IfOk result (λ _. items.new.items ≡ items.old.items ++ users.now) }
{
    for user in users {
        items.push(user.duplicate(alloc)?)?;
    }
    Ok(())
}

impl Duplicate for Users {
    fn duplicate(&self, alloc: Global) -> Result<Users, AllocError> {
        let mut items = Vec::with_capacity(alloc, self.len())?;
        push_all(alloc, &mut items, self.as_slice())?;
        Ok(Users { items })
    }
}
