//! Laws of the plain store about its lists.
ghost use Rattle.std.specs.Prelude.{◌≡◌, ℕ, List, map, true};
ghost use Rattle.std.specs.List.{Contains};
ghost use Rattle.std.specs.List.Sorted.{IsStrictlySortedBy};
ghost use Rattle.objects.specs.declared.key.Key.{Key};
ghost use Rattle.objects.specs.declared.kind.Kind.{Kind};
ghost use Rattle.objects.specs.declared.object.Object.{Object};
ghost use Rattle.objects.specs.Key.{key_cmp};
ghost use Rattle.plain_store.specs.AtKey.{Has};
ghost use Rattle.plain_store.specs.Reached.{IsReached};
ghost use Rattle.plain_store.specs.Store.{Store, collection, is_of};

/// A list is complete: it has every object of the kind in the namespace, each once, in the order of their names, and nothing
/// else.
pub fn lists_are_complete()
    ensures all { (s : Store) (kind : Kind) (namespace : List ℕ) (key : Key) (o : Object) → Has s key o → is_of kind namespace key ≡ true
        → Contains (collection s.objects kind namespace) o }
    ensures only { (s : Store) (kind : Kind) (namespace : List ℕ) (o : Object) → IsReached s → Contains (collection s.objects kind namespace) o
        → Has s o.key o × (is_of kind namespace o.key ≡ true) }
    ensures once { (s : Store) (kind : Kind) (namespace : List ℕ) → IsReached s
        → IsStrictlySortedBy key_cmp (map (λ o. o.key) (collection s.objects kind namespace)) }
{}
