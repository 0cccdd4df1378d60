ghost use Rattle.std.specs.Prelude.{◌≡◌};

use objects::Object;
use std::alloc::AllocError;
use std::marker::Model;

/// The objects of one kind in one namespace, in byte order of their names.
#[derive(Drop)]
pub struct Listing {
    objects: Vec<Object>,
}

impl Model for Listing {
    ghost use Rattle.std.specs.Prelude.{List};
    ghost use Rattle.std.specs.Coded.{coded_list};
    ghost use Rattle.objects.specs.declared.object.Object.{Object};
    ghost use Rattle.objects.specs.Object.{object_coded};

    ghost Value = { List Object };

    ghost coded = { coded_list object_coded };

    ghost view = { λ l. l.objects.items };
}

impl From<Vec<Object>> for Listing {
    ghost from_gives = { λ objects listing. listing ≡ objects.items };

    /// A list of these objects, which are in byte order of their names.
    fn from(objects: Vec<Object>) -> Listing {
        Listing { objects }
    }
}

impl Clone for Listing {
    ghost is_clone = { λ old new. new ≡ old };

    fn clone(&self) -> Result<Listing, AllocError> {
        Ok(Listing {
            objects: self.objects.clone()?,
        })
    }
}

impl Listing {
    /// The objects, in byte order of their names.
    pub fn as_slice(&self) -> &[Object]
        ensures { result.now ≡ self.now }
    {
        self.objects.as_slice()
    }
}
