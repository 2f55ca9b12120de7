use std::alloc::AllocError;
use std::io::{self, Write};

/// Where bytes are put all at once, or not at all.
///
/// They are gathered in a draft, which is put there once it is whole. Each draft that a destination gives is put there
/// or discarded.
pub trait Destination {
    ghost use Rattle.std.specs.Prelude.{◌≡◌, ℕ, List, [], Option, Some, None, option_map, IfOk, OnOk, OnErr};

    /// What gathers the bytes.
    type PendingFile: Write + Drop;

    /// What is there, if the destination shows it: nothing, or these bytes.
    ghost stands: { Self → Option (Option (List ℕ)) } = { λ _. None };

    /// A draft without bytes. It shows its bytes if the destination shows what is there.
    fn draft(&self) -> Result<Self::PendingFile, AllocError>
        ensures { IfOk result (λ draft. Self.PendingFile.contents draft ≡ option_map (λ _. []) (stands self.now)) };

    /// Puts the bytes of the draft there. If that fails, the draft is discarded, and what was there stays.
    fn put(&mut self, draft: Self::PendingFile) -> io::Result<()>
        ensures put { OnOk result (stands self.new ≡ option_map Some (Self.PendingFile.contents draft)) }
        ensures kept { OnErr result (stands self.new ≡ stands self.old) };

    /// Throws the draft away. What is there stays.
    fn discard(&mut self, draft: Self::PendingFile)
        ensures { stands self.new ≡ stands self.old };
}
