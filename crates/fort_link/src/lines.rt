//! The lines of files.
ghost use Rattle.std.specs.Prelude.{◌≡◌, ◌≤◌, length};
ghost use Rattle.fort_link.specs.Lines as spec;

/// The number of lines of a file, one more than its line feeds.
pub fn lines(file: &[u8]) -> u32
    requires { length file.now ≤ 1048576 }
    ensures { result ≡ spec.lines file.now }
{
    let mut lines = 1u32;
    for i in 0..file.len() {
        if file[i] == b'\n' {
            lines += 1;
        }
    }
    lines
}
