//! The keys of the links of a gate that are open.
ghost use Rattle.std.specs.Prelude.{◌≡◌, ◌≤◌, ◌<◌, ◌+◌, Some, vec_len, vec_capacity};
ghost use Rattle.memory_links.specs.Memories.{with_key, without_key};

/// A link has come, told of by this key, if it has one.
pub(crate) fn add_key(keys: &mut Vec<usize>, key: Option<usize>)
    requires { vec_len keys.old < vec_capacity keys.old }
    ensures items { keys.new.items ≡ with_key key keys.old.items }
    ensures len { vec_len keys.new ≤ vec_len keys.old + 1 }
    ensures capacity { vec_capacity keys.new ≡ vec_capacity keys.old }
{
    if let Some(key) = key {
        keys.push_reserved(key);
    }
}

/// A link has gone that was told of by this key, if it had one.
pub(crate) fn remove_key(keys: &mut Vec<usize>, key: Option<usize>)
    ensures items { keys.new.items ≡ without_key key keys.old.items }
    ensures len { vec_len keys.new ≤ vec_len keys.old }
    ensures capacity { vec_capacity keys.new ≡ vec_capacity keys.old }
{
    if let Some(key) = key {
        remove_one(keys, key);
    }
}

fn remove_one(keys: &mut Vec<usize>, key: usize)
    ensures items { keys.new.items ≡ without_key (Some key) keys.old.items }
    ensures len { vec_len keys.new ≤ vec_len keys.old }
    ensures capacity { vec_capacity keys.new ≡ vec_capacity keys.old }
{
    keys.retain(|other| *other != key);
}
