ghost use Rattle.std.specs.Prelude.{◌≡◌, ℕ};
ghost use Rattle.std.specs.FinMap as map;
ghost use Rattle.objects.specs.declared.key.Key.{Key};
ghost use Rattle.versions.specs.Records.{Records, state_at, value};

/// A list and a reading of one key agree: what was there at a number has for each key the key's value.
pub fn states_have_the_values()
    ensures { (records : Records) (number : ℕ) (key : Key) → map.get (state_at records number) key ≡ value records number key }
{}
