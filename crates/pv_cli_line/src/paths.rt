//! Paths in the form in which answers write them.
ghost use Rattle.std.specs.Prelude.{◌≡◌};
ghost use Rattle.pv_cli_line.specs.Paths.{begins_plainly, has_plain_names, is_plain_path};

// Returns whether a part of a path, up to its end, does not begin with a slash before a name that is empty, `.` or `..`.
fn begins_plainly(rest: &[u8]) -> bool
    ensures { result ≡ begins_plainly rest.now }
{
    !(rest == b"/".as_slice()
        || rest == b"/.".as_slice()
        || rest == b"/..".as_slice()
        || rest.starts_with(b"//".as_slice())
        || rest.starts_with(b"/./".as_slice())
        || rest.starts_with(b"/../".as_slice()))
}

// Returns whether no name of a path is empty, `.` or `..`.
fn has_plain_names(path: &[u8]) -> bool
    ensures { result ≡ has_plain_names path.now }
{
    for at in 0..path.len() {
        if !begins_plainly(&path[at..]) {
            return false;
        }
    }
    true
}

/// Returns whether a path is in the form in which answers write it: it begins with a slash, and no name of it is empty, `.`
/// or `..`. The path of the root is a slash.
pub(crate) fn is_plain_path(path: &[u8]) -> bool
    ensures { result ≡ is_plain_path path.now }
{
    path == b"/".as_slice() || (path.starts_with(b"/".as_slice()) && has_plain_names(path))
}
