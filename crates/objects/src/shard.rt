ghost use Rattle.std.specs.Prelude.{◌≡◌, ◌<◌, ◌≤◌, ◌*◌, length};
ghost use Rattle.std.specs.List.{sum};
ghost use Rattle.objects.specs.ShardOf.{shard_of};

use crate::key::Key;

/// The shard that keeps the object of this key, below the number of shards. This project's own rule: the sum of the
/// bytes of `kind/namespace/name`, modulo the number of shards.
#[tactic(auto, using(crate::proofs::KeyTexts::key_text_sum))]
pub fn shard_of(key: &Key, shards: usize) -> usize
    requires { 0 < shards }
    ensures value { result ≡ shard_of key.now shards }
    ensures below { result < shards }
{
    let slash = usize::from(b'/');
    let kind = byte_sum(key.kind.name());
    let namespace = byte_sum(key.namespace.as_str());
    let name = byte_sum(key.name.as_str());
    (kind + slash + namespace + slash + name) % shards
}

fn byte_sum(text: &str) -> usize
    requires { length text.now ≤ 253 }
    ensures value { result ≡ sum text.now }
    ensures small { result ≤ 253 * 255 }
{
    text.as_bytes().iter().map(|&byte| usize::from(byte)).sum()
}
