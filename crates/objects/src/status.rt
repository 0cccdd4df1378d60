// Members of an object, such as its status.
ghost use Rattle.std.specs.Prelude.{◌≡◌, ◌≢◌, ℕ, List, Option, option_map, codes, IfOk, false};
ghost use Rattle.serde_json.specs.Data.{Data, Members, object};
ghost use Rattle.trees.specs.Tree.{data_of};
ghost use Rattle.objects.specs.Status.{is_identity, member_of, with_member};

use crate::object::Object;
use std::alloc::AllocError;
use trees::Tree;

impl Object {
    /// The value of a member of the object, such as `spec` or `status` (Kubernetes API conventions, "Objects"). A
    /// `metadata` comes without the members that the key and the meta hold.
    pub fn member(&self, name: &str) -> Option<&Tree>
        ensures { option_map (λ t. data_of t.now) result ≡ member_of name.now self.now.body }
    {
        self.body.as_map()?.get(name)
    }

    /// A copy of the object's status, which shares what it holds.
    pub fn status(&self) -> Result<Option<Tree>, AllocError>
        ensures { IfOk result (λ status. option_map data_of status ≡ member_of (codes "status") self.now.body) }
    {
        match self.member("status") {
            Some(status) => Ok(Some(status.clone()?)),
            None => Ok(None),
        }
    }

    /// The object with that status, or without one. `status` is written by a request of its own, which leaves all else
    /// as it was (Kubernetes API conventions, "Spec and Status"). The members of the object are copied only if another
    /// object shares them, and what their values hold is never copied.
    pub fn with_status(self, status: Option<Tree>) -> Result<Object, AllocError>
        ensures key { IfOk result (λ object. object.key ≡ self.key) }
        ensures meta { IfOk result (λ object. object.meta ≡ self.meta) }
        ensures body { IfOk result (λ object. object.body ≡ with_member (codes "status") (option_map data_of status) self.body) }
    {
        let Object { key, meta, body } = self;
        Ok(Object {
            key,
            meta,
            body: with_member(body, "status", status)?,
        })
    }

    /// The object with that value of a member, or without the member if there is no value. The member is none of those
    /// that say what the object is, so that `apiVersion`, `kind` and `metadata` stay. The key, the meta and all other
    /// members stay.
    pub fn with_member(self, name: &str, value: Option<Tree>) -> Result<Object, AllocError>
        requires { is_identity name.now ≡ false }
        ensures key { IfOk result (λ object. object.key ≡ self.key) }
        ensures meta { IfOk result (λ object. object.meta ≡ self.meta) }
        ensures body { IfOk result (λ object. object.body ≡ with_member name.now (option_map data_of value) self.body) }
    {
        let Object { key, meta, body } = self;
        Ok(Object {
            key,
            meta,
            body: with_member(body, name, value)?,
        })
    }
}

pub(crate) fn with_member(body: Tree, key: &str, value: Option<Tree>) -> Result<Tree, AllocError>
    ensures { IfOk result (λ changed. data_of changed ≡ with_member key.now (option_map data_of value) (data_of body)) }
{
    match body {
        Tree::Map(members) => Ok(Tree::Map(members.with(key, value)?)),
        other => Ok(other),
    }
}

/// A member that is set has its value, one that is removed is no longer there, and all others stay as they were.
pub fn only_the_set_member_changes()
    ensures set { (name : List ℕ) (value : Option Data) (members : Members)
        → member_of name (with_member name value (object members)) ≡ value }
    ensures others { (other name : List ℕ) (value : Option Data) (body : Data)
        → other ≢ name → member_of other (with_member name value body) ≡ member_of other body }
{}
