// The names of files that lie in the folder or below it.
ghost use Rattle.std.specs.Prelude.{◌≡◌};
ghost use Rattle.og_io.specs.BelowFolder as spec;

// Whether the name has parts with slashes between them, none of them empty, `.` or `..`, and no byte 0.
pub(crate) fn is_below_folder(name: &[u8]) -> bool
    ensures { result ≡ spec.is_below_folder name.now }
{
    !name.contains(&0) && name.split(|byte| *byte == b'/').all(is_part)
}

// Whether the part is neither empty nor `.` nor `..`.
fn is_part(part: &[u8]) -> bool
    ensures { result ≡ spec.is_part part.now }
{
    !(part.is_empty() || part == b".".as_slice() || part == b"..".as_slice())
}
