//! A file that is opened once, at its first write.

ghost use Rattle.std.specs.Prelude.{◌≡◌, ◌+◌, [], length, IfSome};
ghost use Rattle.std.specs.Option.{option_map_or};

use crate::files::Placed;
use collector::{Device, DeviceError};
use http_server::Log;

/// Opens an empty file.
pub trait Opener {
    type Out: Placed + Drop;

    /// The file, or nothing where it can't be opened.
    fn open(&self) -> Option<Self::Out>
        ensures empty { IfSome result (λ file. Self.Out.taken file ≡ []) }
        ensures unkept { IfSome result (λ file. Self.Out.kept file ≡ []) }
        ensures sound { IfSome result (λ file. Self.Out.failures file ≡ 0) };
}

/// A file that is opened at its first write, and stays open. What it has taken, its one open file
/// has taken.
#[derive(Drop)]
pub struct LateFile<O: Opener> {
    opener: O,
    file: Option<O::Out>,
    failed: Log<(), ()>,
}

impl<O: Opener> LateFile<O> {
    // Opens the file, unless it is open.
    fn open(&mut self)
        ensures taken { option_map_or O.Out.taken self.new.file [] ≡ option_map_or O.Out.taken self.old.file [] }
        ensures kept { option_map_or O.Out.kept self.new.file [] ≡ option_map_or O.Out.kept self.old.file [] }
        ensures sound { option_map_or O.Out.failures self.new.file 0 ≡ option_map_or O.Out.failures self.old.file 0 }
        ensures failed { self.new.failed ≡ self.old.failed }
    {
        if self.file.is_none() {
            self.file = self.opener.open();
        }
    }

    /// A file that isn't opened yet.
    pub fn new(opener: O) -> LateFile<O>
        ensures opener { result.opener ≡ opener }
        ensures file { result.file ≡ None }
        ensures failed { result.failed.items ≡ [] }
    {
        LateFile {
            opener,
            file: None,
            failed: Log::new(),
        }
    }
}

impl<O: Opener> Device for LateFile<O> {
    ghost taken = { λ f. option_map_or O.Out.taken f.file [] };

    ghost failures = { λ f. option_map_or O.Out.failures f.file 0 + length f.failed.items };

    fn write(&mut self, bytes: &[u8]) -> Result<usize, DeviceError> {
        self.open();
        match &mut self.file {
            Some(file) => file.write(bytes),
            None => {
                self.failed = self.failed.and(&(), &());
                Err(DeviceError)
            }
        }
    }
}

impl<O: Opener> Placed for LateFile<O> {
    ghost kept = { λ f. option_map_or O.Out.kept f.file [] };

    fn keep(&mut self) -> Result<(), DeviceError> {
        self.open();
        match &mut self.file {
            Some(file) => file.keep(),
            None => {
                self.failed = self.failed.and(&(), &());
                Err(DeviceError)
            }
        }
    }
}
