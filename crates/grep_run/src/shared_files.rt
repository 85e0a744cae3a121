ghost use Rattle.std.specs.Prelude.{◌≡◌, IfSome};

use outside::Files;

/// Files that other threads may load from as well.
pub trait SharedFiles: Files {
    /// The same files, as another thread has them.
    type Handle: Files + Send + Drop;

    /// A handle for one more thread. Returns None if all files are to be loaded from here, one after another. The handle need not have
    /// every file: what it does not load is loaded from here.
    fn handle(&self) -> Option<Self::Handle>
        ensures { IfSome result (λ handle. Self.Handle.held handle ≡ Self.Files.held self.now) };
}
