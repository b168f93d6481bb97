ghost use Rattle.std.specs.Prelude.{◌≡◌};
ghost use Rattle.rnv_plan.specs.Managers.{last_segment, is_dockerfile, manager_named, manager_of};

use rnv_base::ManagerKind;

// What stands behind the last slash of a path, or all of it.
fn last_segment(path: &[u8]) -> &[u8]
    ensures { result.now ≡ last_segment path.now }
{
    let mut start = path.len();
    while start > 0 && path[start - 1] != b'/' {
        start -= 1;
    }
    &path[start..]
}

fn is_dockerfile(name: &[u8]) -> bool
    ensures { result ≡ is_dockerfile name.now }
{
    name == b"Dockerfile".as_slice()
        || name == b"Containerfile".as_slice()
        || name.starts_with(b"Dockerfile.")
}

// The manager that takes files of this name.
fn manager_named(name: &[u8]) -> Option<ManagerKind>
    ensures { result ≡ manager_named name.now }
{
    if name == b"package.json".as_slice() {
        return Some(ManagerKind::Npm);
    }
    if name == b"Cargo.toml".as_slice() {
        return Some(ManagerKind::Cargo);
    }
    if is_dockerfile(name) {
        return Some(ManagerKind::Dockerfile);
    }
    None
}

// The manager that takes the file at a path: npm's a `package.json`, Cargo's a `Cargo.toml`, and
// Docker's a `Dockerfile`, a `Containerfile` or what begins with `Dockerfile.`, in any folder.
#[tactic(auto, unfolding(crate::specs::Managers::manager_of))]
pub(crate) fn manager_of(path: &str) -> Option<ManagerKind>
    ensures { result ≡ manager_of path.now }
{
    manager_named(last_segment(path.as_bytes()))
}
