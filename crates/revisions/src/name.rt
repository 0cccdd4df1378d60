// The name of a new revision.
ghost use Rattle.std.specs.Prelude.{◌≡◌, ◌≤◌, ◌<◌, ◌+◌, ◌^◌, ℕ, List, true, length, string_bytes, IfOk};
ghost use Rattle.objects.specs.Key.{is_key, key_parts};
ghost use Rattle.objects.specs.Tree.{data_of};
ghost use Rattle.objects.specs.declared.kind.Kind.TheVariants.{ControllerRevision};
ghost use Rattle.serde_json.specs.Written.{compact_text};
ghost use Rattle.sha2.specs.Hashers.{Holds256};
ghost use Rattle.set_views.specs.Steps.{Gives, required};
ghost use Rattle.set_views.specs.declared.fault.PlanError.TheVariants.{NoRevisionName};
ghost use Rattle.revisions.specs.Choice.{data_with};
ghost use Rattle.revisions.specs.Listing.{has_name};
ghost use Rattle.revisions.specs.Name.{first_free, most_tries, revision_name};

use objects::{Tree, tree_text};
use set_views::{PlanError, Set};
use sha2::{Digest, Sha256};
use std::alloc::{AllocError, Global};
use std::collections::BTreeSet;

/// How many collision counts are tried.
const MAX_TRIES: u32 = 1024;

/// The name of which `digits` are hexadecimal digits of the digest of a text, which the hasher holds, and the collision
/// count.
#[tactic(auto, unfolding(crate::specs::Name::revision_name))]
fn revision_name(
    alloc: Global,
    set: &str,
    hashed: &Sha256,
    digits: usize,
    count: u32,
) -> Result<String, AllocError>
    requires { digits ≤ 64 }
    ensures { (text : List ℕ) → Holds256 hashed.now text → IfOk result (λ name. string_bytes name ≡ revision_name set.now text digits count) }
{
    let mut hasher = hashed.clone()?;
    hasher.update(itoa::Buffer::new().format(count).as_bytes());
    let digest = hasher.finalize();
    let hexadecimal = hex::encode(alloc, &digest)?;
    let mut name = String::from_str(alloc, set)?;
    name.push_str("-")?;
    name.push_str(&hexadecimal.as_str()[..digits])?;
    Ok(name)
}

/// The first name that is none of these, by counts from one on. The text that the hasher holds is not hashed again for
/// each.
fn free_name(
    alloc: Global,
    names: &BTreeSet<&str>,
    set: &str,
    hashed: &Sha256,
    digits: usize,
    from: u32,
) -> Result<String, PlanError>
    requires digits { digits ≤ 64 }
    requires small { from < 2 ^ 31 }
    ensures free { (text : List ℕ) → Holds256 hashed.now text → Gives (λ name. string_bytes name) result
        (required NoRevisionName (first_free (λ q. has_name q names.now.keys) (revision_name set.now text digits) from most_tries)) }
    ensures made { (text : List ℕ) → Holds256 hashed.now text
        → IfOk result (λ name. (count : ℕ) × (string_bytes name ≡ revision_name set.now text digits count)) }
{
    for count in from..from + MAX_TRIES {
        let name = revision_name(alloc, set, hashed, digits, count)?;
        if !names.contains(name.as_str()) {
            return Ok(name);
        }
    }
    Err(PlanError::NoRevisionName)
}

/// The set's name, which a revision's begins with.
pub(crate) fn name_of(set: &Set) -> &str
    ensures name { result.now ≡ set.now.object.key.name }
    ensures valid { is_key set.now.object.key ≡ true }
{
    set.object.key.name.as_str()
}

/// The first free name of a revision with that `data`, which is that of the set's template. It is one that a
/// ControllerRevision may have.
pub(crate) fn new_name(
    alloc: Global,
    set: &Set,
    names: &BTreeSet<&str>,
    template: &Tree,
    digits: usize,
) -> Result<String, PlanError>
    requires some { 1 ≤ digits }
    requires most { digits ≤ 64 }
    requires template { data_of template.now ≡ data_with set.now.template }
    requires short { length set.now.object.key.name + 1 + digits ≤ 63 }
    ensures free { Gives (λ name. string_bytes name) result (required NoRevisionName (first_free (λ q. has_name q names.now.keys)
        (revision_name set.now.object.key.name (compact_text (data_with set.now.template)) digits) set.now.collisions most_tries)) }
    ensures valid { IfOk result (λ name. is_key (key_parts ControllerRevision set.now.object.key.namespace (string_bytes name)) ≡ true) }
{
    let text = tree_text(alloc, template)?;
    let mut hashed = Sha256::new();
    hashed.update(text.as_slice());
    free_name(alloc, names, name_of(set), &hashed, digits, set.collisions)
}
