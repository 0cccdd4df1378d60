// What is looked at after a race: all objects of the namespaces that it names.
ghost use Rattle.std.specs.Prelude.{◌≡◌, ◌++◌, IfOk, OnOk, map};
ghost use Rattle.race_lines.specs.Looks.{list_of, lists_in, looks_of, named_by, namespaces_by, sent_by, with_created, with_name, with_named, with_sent};

use objects::{Kind, Text};
use participants::{Ask, Asked, Participant};
use plain::Request;
use std::alloc::{AllocError, Global};
use std::collections::BTreeSet;

/// A list of each kind in each namespace that the requests create in or that one who races is in, in the order in which
/// the store keeps what is listed: by kind, then by namespace.
pub(crate) fn looks_of(
    alloc: Global,
    beginning: &[Request],
    participants: &[Participant],
) -> Result<Vec<Request>, AllocError>
    ensures { IfOk result (λ looks. looks.items ≡ looks_of beginning.now participants.now) }
{
    let mut names = BTreeSet::new(alloc);
    add_created(beginning, &mut names)?;
    add_named(participants, &mut names)?;
    let looks = lists_in(alloc, &names);
    drop(names);
    looks
}

/// Adds the namespaces in which the requests create.
fn add_created(beginning: &[Request], names: &mut BTreeSet<Text>) -> Result<(), AllocError>
    ensures { OnOk result (names.new.keys ≡ namespaces_by names.old.keys beginning.now) }
{
    for request in beginning {
        add_by(request, names)?;
    }
    Ok(())
}

fn add_by(request: &Request, names: &mut BTreeSet<Text>) -> Result<(), AllocError>
    ensures { OnOk result (names.new.keys ≡ with_created names.old.keys request.now) }
{
    match request {
        Request::Create(draft) => add(&draft.object.key.namespace, names),
        _ => Ok(()),
    }
}

/// Adds the namespaces of those who race.
fn add_named(participants: &[Participant], names: &mut BTreeSet<Text>) -> Result<(), AllocError>
    ensures { OnOk result (names.new.keys ≡ named_by names.old.keys participants.now) }
{
    for participant in participants {
        add_of(participant, names)?;
    }
    Ok(())
}

fn add_of(participant: &Participant, names: &mut BTreeSet<Text>) -> Result<(), AllocError>
    ensures { OnOk result (names.new.keys ≡ with_named names.old.keys participant.now) }
{
    match participant {
        Participant::Caller(caller) => add_sent(caller.asks.as_slice(), names),
        Participant::Controller {
            set,
            rounds: _,
            may_crash: _,
            spares_reads: _,
        } => add(&set.namespace, names),
        Participant::Kubelet {
            namespace,
            turns: _,
            may_crash: _,
        } => add(namespace, names),
    }
}

/// Adds the namespaces in which a caller creates.
fn add_sent(asks: &[Ask], names: &mut BTreeSet<Text>) -> Result<(), AllocError>
    ensures { OnOk result (names.new.keys ≡ sent_by names.old.keys asks.now) }
{
    for ask in asks {
        add_ask(&ask.asked, names)?;
    }
    Ok(())
}

fn add_ask(asked: &Asked, names: &mut BTreeSet<Text>) -> Result<(), AllocError>
    ensures { OnOk result (names.new.keys ≡ with_sent names.old.keys asked.now) }
{
    match asked {
        Asked::Request(request) => add_by(request, names),
        Asked::Last { verb: _, patch: _ } => Ok(()),
    }
}

fn add(name: &Text, names: &mut BTreeSet<Text>) -> Result<(), AllocError>
    ensures { OnOk result (names.new.keys ≡ with_name names.old.keys name.now) }
{
    match names.insert(name.clone()?) {
        Ok(_) => Ok(()),
        Err(refused) => {
            drop(refused);
            Err(AllocError)
        }
    }
}

fn lists_in(alloc: Global, names: &BTreeSet<Text>) -> Result<Vec<Request>, AllocError>
    ensures { IfOk result (λ looks. looks.items ≡ lists_in names.now.keys) }
{
    let mut looks = Vec::new(alloc);
    add_lists(Kind::StatefulSet, names, &mut looks)?;
    add_lists(Kind::Pod, names, &mut looks)?;
    add_lists(Kind::PersistentVolumeClaim, names, &mut looks)?;
    add_lists(Kind::ControllerRevision, names, &mut looks)?;
    Ok(looks)
}

fn add_lists(kind: Kind, names: &BTreeSet<Text>, looks: &mut Vec<Request>) -> Result<(), AllocError>
    ensures { OnOk result (looks.new.items ≡ looks.old.items ++ map (list_of kind) names.now.keys) }
{
    for name in names.iter() {
        looks.push(Request::List {
            kind,
            namespace: name.clone()?,
            exact: 0,
        })?;
    }
    Ok(())
}
