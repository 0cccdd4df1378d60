ghost use Rattle.std.specs.Prelude.{◌≡◌, ◌++◌, string_bytes, IfOk, OnOk};
ghost use Rattle.cluster_runs.specs.Ran.{owner_in};
ghost use Rattle.commands.specs.Roles.{client_calling, client_of, clients_of, other_role, role_by};

use controllers::{ClusterEvent, SetSpec, Turn};
use pictures::{Roles, note_caller};
use std::alloc::{AllocError, Global};
use std::collections::{BTreeMap, BTreeSet};

/// Who the callers of a cluster's run are: for each the controller that it is or was, the sets of the controllers, and the
/// other clients. What is left is the kubelet.
#[derive(Clone, Copy, Drop)]
pub(crate) struct ClusterRoles<'a> {
    pub(crate) owners: &'a BTreeMap<u64, Option<usize>>,
    pub(crate) sets: &'a [SetSpec],
    pub(crate) clients: &'a BTreeSet<u64>,
}

impl Roles for ClusterRoles<'_> {
    ghost role = { λ roles caller. role_by roles.sets.now roles.clients.now.keys (owner_in roles.owners.now caller) caller };

    fn put_role(&self, caller: u64, out: &mut String) -> Result<(), AllocError> {
        let Some(Some(controller)) = self.owners.get(&caller) else {
            return put_other(self.clients, caller, out);
        };
        let Some(set) = self.sets.get(*controller) else {
            return Ok(());
        };
        let name = set.name.as_str();
        write!(out, "{name}, controller {controller}, ")
    }
}

/// Appends the role of a caller that is no controller's.
fn put_other(clients: &BTreeSet<u64>, caller: u64, out: &mut String) -> Result<(), AllocError>
    ensures { OnOk result (string_bytes out.new ≡ string_bytes out.old ++ other_role clients.now.keys caller) }
{
    if clients.contains(&caller) {
        return Ok(());
    }
    out.push_str("kubelet, ")
}

/// The other clients that the turns name.
pub(crate) fn clients_of(alloc: Global, turns: &[Turn]) -> Result<BTreeSet<u64>, AllocError>
    ensures { IfOk result (λ clients. clients.keys ≡ clients_of turns.now) }
{
    let mut clients = BTreeSet::new(alloc);
    for turn in turns {
        note_caller(&mut clients, client_of(turn))?;
    }
    Ok(clients)
}

fn client_of(turn: &Turn) -> Option<u64>
    ensures { result ≡ client_of turn.now }
{
    match turn {
        Turn::Event(event) => client_calling(event),
        Turn::Ask(caller, _) => Some(*caller),
        _ => None,
    }
}

fn client_calling(event: &ClusterEvent) -> Option<u64>
    ensures { result ≡ client_calling event.now }
{
    match event {
        ClusterEvent::Outside(caller, _) => Some(*caller),
        _ => None,
    }
}
