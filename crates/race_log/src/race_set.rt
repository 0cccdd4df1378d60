// The set that a race is about.
ghost use Rattle.std.specs.Prelude.{◌≡◌, IfOk, codes};
ghost use Rattle.serde_json.specs.Data.{no_members, put};
ghost use Rattle.objects.specs.Tree.{data_of};
ghost use Rattle.objects.specs.declared.kind.Kind.TheVariants.{StatefulSet};
ghost use Rattle.objects.specs.Key.{key_parts};
ghost use Rattle.race_log.specs.RaceSet.{creates_set, set_draft, set_namespace, set_name, set_spec};

use objects::{Draft, Key, Kind, Members, Memory, Object, Text, Tree};
use requests::Request;
use std::alloc::{AllocError, Global};

/// The namespace of the set.
pub const NAMESPACE: &str = "default";

/// The name of the set.
pub const SET: &str = "web";

/// The key of the set.
#[tactic(auto, unfolding(objects::specs::Names::is_dns_label))]
pub fn set_key(alloc: Global) -> Result<Key, AllocError>
    ensures { IfOk result (λ key. key ≡ key_parts StatefulSet set_namespace set_name) }
{
    let namespace = Text::copy_of(alloc, NAMESPACE)?;
    let name = Text::copy_of(alloc, SET)?;
    Ok(Key {
        kind: Kind::StatefulSet,
        namespace,
        name,
    })
}

fn spec(alloc: Global, replicas: u64, template: Members) -> Result<Tree, AllocError>
    ensures { IfOk result (λ spec. data_of spec ≡ set_spec replicas template) }
{
    let counted = Members::none(alloc)?.with_number("replicas", replicas)?;
    let whole = counted.with("template", Some(Tree::Map(template)))?;
    Ok(Tree::Map(whole))
}

/// The members of the set.
fn members(alloc: Global, replicas: u64, template: Members) -> Result<Members, AllocError>
    ensures { IfOk result (λ members. members ≡ put (codes "spec") (set_spec replicas template) no_members) }
{
    let spec = spec(alloc, replicas, template)?;
    Members::none(alloc)?.with("spec", Some(spec))
}

/// The set `web` in `default`, with that many pods and that template, without claims, and with OrderedReady.
#[tactic(auto, unfolding(objects::specs::MetadataShape::metadata_fits))]
pub(crate) fn set_draft(
    alloc: Global,
    replicas: u64,
    template: Members,
) -> Result<Draft, AllocError>
    ensures { IfOk result (λ draft. draft ≡ set_draft replicas template) }
{
    let members = members(alloc, replicas, template)?;
    let object = Object::of(alloc, set_key(alloc)?, Members::none(alloc)?, members)?;
    Ok(Draft {
        object,
        uid: None,
        version: None,
    })
}

/// The create of the set, with an empty template.
pub fn set_creation(alloc: Global, replicas: u64) -> Result<Request, Memory>
    ensures { IfOk result (λ request. request ≡ creates_set replicas) }
{
    Ok(Request::Create(set_draft(alloc, replicas, Members::none(alloc)?)?))
}
