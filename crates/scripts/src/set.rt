// The sets in the first line of a cluster's script.
ghost use Rattle.std.specs.Prelude.{◌≡◌, ◌<◌, ◌≤◌, true, length, map, option_map, IfSome};
ghost use Rattle.objects.specs.Names.{is_dns_label};
ghost use Rattle.objects.specs.Tree.{data_of, items_of};
ghost use Rattle.scripts.specs.Sets.{digits_in, digits_of, label_of, moment_in, moment_of, name_in, namespace_in};
ghost use Rattle.scripts.specs.Sets.{set_in, set_of, set_parts, sets_in, sets_of};
ghost use Rattle.scripts.specs.Events.{Reads};

use crate::fault::ScriptError;
use crate::line::count_of;
use controllers::SetSpec;
use objects::{Members, Tree, is_dns_label};
use std::alloc::Global;

/// The most hex digits that a hash has.
const MAX_DIGITS: u64 = 64;

/// The sets of the list in the member `sets`, which is required.
pub(crate) fn sets_in(alloc: Global, members: &Members) -> Result<Vec<SetSpec>, ScriptError>
    ensures { Reads (λ sets. map set_parts sets.items) result (sets_in members.now) }
{
    let Some(value) = members.get("sets") else {
        return Err(ScriptError::BadScript);
    };
    let Some(items) = value.as_list() else {
        return Err(ScriptError::BadScript);
    };
    sets_of(alloc, items.as_slice())
}

#[tactic(auto, using(crate::proofs::Readings::fails_bind))]
fn sets_of(alloc: Global, items: &[Tree]) -> Result<Vec<SetSpec>, ScriptError>
    ensures { Reads (λ sets. map set_parts sets.items) result (sets_of (items_of items.now)) }
{
    let mut sets = Vec::new(alloc);
    for item in items {
        sets.push(set_of(alloc, item)?)?;
    }
    Ok(sets)
}

/// The set in a value, `{"digits":H,"moment":T,"name":N,"namespace":S}` as
/// [`read_cluster_script`](crate::read_cluster_script) describes it.
///
/// # Errors
///
/// `BadScript` if it is none.
pub fn set_of(alloc: Global, value: &Tree) -> Result<SetSpec, ScriptError>
    ensures { Reads set_parts result (set_of (data_of value.now)) }
{
    match value.as_map() {
        Some(members) => set_in(alloc, members),
        None => Err(ScriptError::BadScript),
    }
}

fn set_in(alloc: Global, members: &Members) -> Result<SetSpec, ScriptError>
    ensures { Reads set_parts result (set_in members.now) }
{
    let Some(name) = name_in(members) else {
        return Err(ScriptError::BadScript);
    };
    let Some(namespace) = namespace_in(members) else {
        return Err(ScriptError::BadScript);
    };
    let Some(digits) = digits_in(members) else {
        return Err(ScriptError::BadScript);
    };
    let Some(moment) = moment_in(members) else {
        return Err(ScriptError::BadScript);
    };
    Ok(SetSpec::new(alloc, namespace, name, digits, moment)?)
}

fn name_in(members: &Members) -> Option<&str>
    ensures name { option_map (λ s. s.now) result ≡ name_in members.now }
    ensures label { IfSome result (λ s. is_dns_label s.now ≡ true) }
{
    label_of(members.get("name")?)
}

#[tactic(auto, unfolding(objects::specs::Names::is_dns_label))]
fn namespace_in(members: &Members) -> Option<&str>
    ensures namespace { option_map (λ s. s.now) result ≡ namespace_in members.now }
    ensures label { IfSome result (λ s. is_dns_label s.now ≡ true) }
{
    match members.get("namespace") {
        Some(value) => label_of(value),
        None => Some("default"),
    }
}

fn label_of(value: &Tree) -> Option<&str>
    ensures text { option_map (λ s. s.now) result ≡ label_of (data_of value.now) }
    ensures label { IfSome result (λ s. is_dns_label s.now ≡ true) }
{
    let text = value.as_text()?;
    if is_dns_label(text) { Some(text) } else { None }
}

fn digits_in(members: &Members) -> Option<usize>
    ensures digits { result ≡ digits_in members.now }
    ensures some { IfSome result (λ n. 1 ≤ n) }
    ensures most { IfSome result (λ n. n ≤ 64) }
{
    match members.get("digits") {
        Some(value) => digits_of(value),
        None => Some(10),
    }
}

fn digits_of(value: &Tree) -> Option<usize>
    ensures digits { result ≡ digits_of (data_of value.now) }
    ensures some { IfSome result (λ n. 1 ≤ n) }
    ensures most { IfSome result (λ n. n ≤ 64) }
{
    let digits = count_of(value)?;
    if 1 <= digits && digits <= MAX_DIGITS {
        Some(digits as usize)
    } else {
        None
    }
}

fn moment_in(members: &Members) -> Option<&str>
    ensures moment { option_map (λ s. s.now) result ≡ moment_in members.now }
    ensures some { IfSome result (λ s. 0 < length s.now) }
{
    match members.get("moment") {
        Some(value) => moment_of(value),
        None => Some("2024-01-01T00:00:00Z"),
    }
}

fn moment_of(value: &Tree) -> Option<&str>
    ensures moment { option_map (λ s. s.now) result ≡ moment_of (data_of value.now) }
    ensures some { IfSome result (λ s. 0 < length s.now) }
{
    let text = value.as_text()?;
    if text.is_empty() { None } else { Some(text) }
}
