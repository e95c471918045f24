//! The answers to input that is no line.

ghost use Rattle.std.specs.Prelude.{◌≡◌};
ghost use Rattle.shell.specs.Turns as spec;

/// The answer to a line that is too long.
pub(crate) fn too_long_text() -> &'static [u8]
    ensures { result.now ≡ spec.too_long_text }
{
    b"ERROR 54000 a line has more than 1048576 bytes\n"
}

/// The answer to a line that the input's end has cut off.
pub(crate) fn cut_off_text() -> &'static [u8]
    ensures { result.now ≡ spec.cut_off_text }
{
    b"ERROR 42601 the input ends in the middle of a line: each line ends in a newline\n"
}
