use objects::{Key, Object};

/// What a write leaves under a key: an object, or none after a removal.
#[derive(Drop)]
pub struct Version {
    pub key: Key,
    pub state: Option<Object>,
}
