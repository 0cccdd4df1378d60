ghost use Rattle.std.specs.Prelude.{◌≡◌, IfOk};

use crate::fault::ReadError;
use crate::kind::Kind;
use crate::names::{is_dns_label, is_name};
use std::alloc::{AllocError, Global};
use std::cmp::Ordering;
use std::hash::{Hash, Hasher};
use std::marker::Model;
use trees::Text;

/// What names an object: no two objects of a store have one key.
///
/// The namespace is a DNS label (1 to 63 bytes of `a-z`, `0-9` and `-`, the first and the last a letter or a digit).
/// So is a StatefulSet's name; other names have 1 to 253 bytes of the same and `.`.
///
/// Keys are totally ordered by kind, namespace and name, texts in byte order, and equal keys hash alike.
#[derive(Drop)]
pub struct Key {
    pub kind: Kind,
    pub namespace: Text,
    pub name: Text,
}

impl Model for Key {
    ghost use Rattle.std.specs.Prelude.{◌≡◌, true};
    ghost use Rattle.objects.specs.Key.{KeyParts, key_coded, is_key};

    ghost Value = { KeyParts };

    ghost coded = { key_coded };

    ghost view = { λ k. record { kind = k.kind; namespace = k.namespace; name = k.name } };

    ghost invariant = { λ k. is_key (record { kind = k.kind; namespace = k.namespace; name = k.name }) ≡ true };
}

impl Key {
    ghost use Rattle.objects.specs.Steps.{Gives, guarded};
    ghost use Rattle.objects.specs.Key.{key_parts, is_key};
    ghost use Rattle.objects.specs.declared.fault.ReadError.TheVariants.{BadName};

    /// The key of these parts.
    ///
    /// # Errors
    ///
    /// BadName if the namespace is no DNS label, or the name is none that an object of the kind may have.
    pub fn of(alloc: Global, kind: Kind, namespace: &str, name: &str) -> Result<Key, ReadError>
        ensures kind { IfOk result (λ key. key.kind ≡ kind) }
        ensures key { Gives (λ key. key) result
            (guarded BadName (is_key (key_parts kind namespace.now name.now)) (key_parts kind namespace.now name.now)) }
    {
        if !is_dns_label(namespace) || !is_name(kind, name) {
            return Err(ReadError::BadName);
        }
        Ok(Key {
            kind,
            namespace: Text::copy_of(alloc, namespace)?,
            name: Text::copy_of(alloc, name)?,
        })
    }
}

impl Clone for Key {
    ghost is_clone = { λ old new. new ≡ old };

    fn clone(&self) -> Result<Key, AllocError> {
        Ok(Key {
            kind: self.kind,
            namespace: self.namespace.clone()?,
            name: self.name.clone()?,
        })
    }
}

impl PartialEq for Key {
    ghost use Rattle.std.specs.Ordering.{eq_by_cmp};
    ghost use Rattle.std.specs.Cmp.{eq_by_cmp_equiv, partial_equiv_from_equiv};
    ghost use Rattle.objects.specs.Key.{key_cmp};
    ghost use Rattle.objects.specs.KeyOrder.{key_cmp_total};

    ghost eq = { eq_by_cmp key_cmp };

    ghost laws = { partial_equiv_from_equiv (eq_by_cmp_equiv key_cmp_total) };

    fn eq(&self, other: &Key) -> bool {
        self.cmp(other) == Ordering::Equal
    }
}

impl Eq for Key {
    ghost use Rattle.std.specs.Cmp.{eq_by_cmp_equiv};
    ghost use Rattle.objects.specs.KeyOrder.{key_cmp_total};

    ghost laws = { eq_by_cmp_equiv key_cmp_total };
}

impl Ord for Key {
    ghost use Rattle.std.proofs.Common.{rules};
    ghost use Rattle.std.specs.Cmp.Rules.{comparing};
    ghost use Rattle.objects.specs.Key.{key_cmp};
    ghost use Rattle.objects.specs.KeyOrder.{key_cmp_total};

    ghost cmp = { key_cmp };

    ghost total = { key_cmp_total };

    ghost matches_partial_cmp = { Prim.search (comparing, rules) };

    ghost matches_eq = { Prim.search (comparing, rules) };

    fn cmp(&self, other: &Key) -> Ordering {
        self.kind
            .cmp(&other.kind)
            .then_with(|| self.namespace.as_str().cmp(other.namespace.as_str()))
            .then_with(|| self.name.as_str().cmp(other.name.as_str()))
    }
}

impl PartialOrd for Key {
    ghost use Rattle.std.proofs.Common.{rules};
    ghost use Rattle.std.specs.Ordering.{as_partial_cmp};
    ghost use Rattle.std.specs.Cmp.{partial_order_from_own_ties};
    ghost use Rattle.std.specs.Cmp.Rules.{comparing};
    ghost use Rattle.objects.specs.Key.{key_cmp};

    ghost partial_cmp = { as_partial_cmp key_cmp };

    ghost laws = { partial_order_from_own_ties (Prim.search (comparing, rules)) (Prim.search (comparing, rules)) };

    fn partial_cmp(&self, other: &Key) -> Option<Ordering> {
        Some(self.cmp(other))
    }
}

impl Hash for Key {
    ghost use Rattle.objects.specs.Key.{key_fed};
    ghost use Rattle.objects.specs.KeyOrder.{keys_fed_alike};

    ghost hash_input = { key_fed };

    ghost respects_eq = { keys_fed_alike };

    fn hash<H: Hasher>(&self, state: &mut H) {
        state.write_u8(self.kind as u8);
        self.namespace.as_str().hash(state);
        self.name.as_str().hash(state);
    }
}
