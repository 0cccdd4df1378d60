ghost use Rattle.std.specs.Prelude.{◌≡◌};
ghost use Rattle.objects.specs.Kind.{kind_name, api_version, kind_named};

/// The kinds of objects that the store keeps (Kubernetes apps/v1 and core/v1), in the order in which it keeps them.
#[derive(Clone, Copy, Debug, PartialEq, Eq, PartialOrd, Ord)]
pub enum Kind {
    StatefulSet,
    Pod,
    PersistentVolumeClaim,
    ControllerRevision,
}

impl Kind {
    /// The text of an object's member `kind`.
    pub fn name(self) -> &'static str
        ensures { result.now ≡ kind_name self }
    {
        match self {
            Kind::StatefulSet => "StatefulSet",
            Kind::Pod => "Pod",
            Kind::PersistentVolumeClaim => "PersistentVolumeClaim",
            Kind::ControllerRevision => "ControllerRevision",
        }
    }

    /// The text of an object's member `apiVersion`: the group and version of the API.
    pub fn api_version(self) -> &'static str
        ensures { result.now ≡ api_version self }
    {
        match self {
            Kind::StatefulSet | Kind::ControllerRevision => "apps/v1",
            Kind::Pod | Kind::PersistentVolumeClaim => "v1",
        }
    }

    /// The kind of that name.
    pub fn named(name: &str) -> Option<Kind>
        ensures { result ≡ kind_named name.now }
    {
        if name == "StatefulSet" {
            Some(Kind::StatefulSet)
        } else if name == "Pod" {
            Some(Kind::Pod)
        } else if name == "PersistentVolumeClaim" {
            Some(Kind::PersistentVolumeClaim)
        } else if name == "ControllerRevision" {
            Some(Kind::ControllerRevision)
        } else {
            None
        }
    }
}
