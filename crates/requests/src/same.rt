// Whether two replies say the same.
ghost use Rattle.std.specs.Prelude.{◌≡◌, IsTrue};
ghost use Rattle.std.specs.Option.{option_copied};
ghost use Rattle.requests.specs.Same.{same_meta, same_object, same_objects, same_reply, same_time};

use crate::reply::Reply;
use objects::{Meta, Object, Text};

impl Reply {
    /// Whether the other reply says the same of the same objects. If it does, they are equal.
    #[tactic(auto, using(crate::proofs::Sameness::replies_equal))]
    pub fn is_same(&self, other: &Reply) -> bool
        ensures value { result ≡ same_reply self.now other.now }
        ensures equal { IsTrue result → self.now ≡ other.now }
    {
        same_replies(self, other)
    }
}

fn same_replies(left: &Reply, right: &Reply) -> bool
    ensures { result ≡ same_reply left.now right.now }
{
    match left {
        Reply::Created(object) => matches!(right, Reply::Created(o) if same_object(object, o)),
        Reply::Found(object) => matches!(right, Reply::Found(o) if same_object(object, o)),
        Reply::Listed { objects, revision } => match right {
            Reply::Listed {
                objects: others,
                revision: r,
            } => same_objects(objects.as_slice(), others.as_slice()) && *revision == *r,
            _ => false,
        },
        Reply::Updated(object) => matches!(right, Reply::Updated(o) if same_object(object, o)),
        Reply::Unchanged(object) => {
            matches!(right, Reply::Unchanged(o) if same_object(object, o))
        }
        Reply::Marked(object) => matches!(right, Reply::Marked(o) if same_object(object, o)),
        Reply::Removed(object) => matches!(right, Reply::Removed(o) if same_object(object, o)),
        Reply::Compacted { revision } => {
            matches!(right, Reply::Compacted { revision: r } if *revision == *r)
        }
        Reply::Refused(reason) => matches!(right, Reply::Refused(r) if *reason == *r),
    }
}

fn same_objects(left: &[Object], right: &[Object]) -> bool
    ensures { result ≡ same_objects left.now right.now }
{
    if left.len() != right.len() {
        return false;
    }
    for i in 0..left.len() {
        if !same_object(&left[i], &right[i]) {
            return false;
        }
    }
    true
}

fn same_object(left: &Object, right: &Object) -> bool
    ensures { result ≡ same_object left.now right.now }
{
    left.key == right.key && same_meta(&left.meta, &right.meta) && left.body.is_same(&right.body)
}

fn same_meta(left: &Meta, right: &Meta) -> bool
    ensures { result ≡ same_meta left.now right.now }
{
    left.uid == right.uid
        && left.revision == right.revision
        && left.generation == right.generation
        && same_time(left.deletion.as_ref(), right.deletion.as_ref())
}

fn same_time(left: Option<&Text>, right: Option<&Text>) -> bool
    ensures { result ≡ same_time (option_copied left.entry) (option_copied right.entry) }
{
    match left {
        Some(left) => match right {
            Some(right) => left.as_str() == right.as_str(),
            None => false,
        },
        None => right.is_none(),
    }
}
