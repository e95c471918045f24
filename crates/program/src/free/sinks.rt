//! The files that sessions on threads dump to.

ghost use Rattle.std.specs.Prelude.{◌≡◌, [], IfOk};

use crate::files::{Files, OutFile};
use std::alloc::{AllocError, Global};

/// Where sessions on threads dump to. It is `Files` without a type parameter and without what is read.
pub(crate) trait Sinks: Sync {
    type Out: OutFile + Send + Drop;

    /// A device that is opened at its first write, has taken nothing yet, and takes the place of a path's file
    /// when it is kept.
    fn create(&self, alloc: Global, path: &str) -> Result<Self::Out, AllocError>
        ensures path { IfOk result (λ file. Self.Out.path file ≡ path.now) }
        ensures empty { IfOk result (λ file. Self.Out.taken file ≡ []) }
        ensures unkept { IfOk result (λ file. Self.Out.kept file ≡ []) }
        ensures sound { IfOk result (λ file. Self.Out.failures file ≡ 0) };
}

/// Files, to be written alone.
#[derive(Drop)]
pub(crate) struct FilesToWrite<'f, F> {
    pub(crate) files: &'f F,
}

impl<'f, F> Sinks for FilesToWrite<'f, F>
where
    F: Files<Global> + Sync,
    F::Out: Send,
{
    type Out = F::Out;

    fn create(&self, alloc: Global, path: &str) -> Result<F::Out, AllocError> {
        self.files.create(alloc, path)
    }
}
