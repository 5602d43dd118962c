// Where saves are kept.

ghost use Rattle.std.specs.Prelude.{◌≡◌, false, Some, IfOk, IfSome, option_map};
ghost use Rattle.std.specs.Bool.{OnTrue};

use std::alloc::{AllocError, Global};
use zk_save::restore::RestoreError;

/// A place for one saved game.
pub trait SaveSlot {
    ghost use Rattle.std.specs.Prelude.{List, ℕ, Bool, Option};
    ghost use Rattle.zk_save.specs.declared.restore.RestoreError.{RestoreError};

    // the file that it holds, where it tells that; none is known to be there at Some None
    ghost held: { Self → Option (Option (List ℕ)) };

    // whether it will keep a file, where it tells that
    ghost keeps: { Self → List ℕ → Option Bool };

    // that it was asked to keep a file, and whether it did
    ghost puts: { Self → Self → List ℕ → Bool → Type 0 } = { λ _ _ _ _. Unit {0} };

    // that it was asked for the file that it has, and gave it
    ghost gets: { Self → Self → Option (List ℕ) → Type 0 } = { λ _ _ _. Unit {0} };

    // that it was told why that file is refused
    ghost hears: { Self → Self → RestoreError → Type 0 } = { λ _ _ _. Unit {0} };

    /// Keeps a file in place of the one before, or answers that it is not kept; then the one before stays.
    fn put(&mut self, file: &[u8]) -> bool
        ensures answer { IfSome (keeps self.old file.now) (λ b. result ≡ b) }
        ensures kept { OnTrue result (IfSome (held self.new) (λ f. f ≡ Some file.now)) }
        ensures refused { result ≡ false → held self.new ≡ held self.old }
        ensures put { puts self.old self.new file.now result };

    /// The file that is kept, where there is one. It stays, also where there is no memory for a copy.
    fn get(&mut self, alloc: Global) -> Result<Option<Vec<u8>>, AllocError>
        ensures stays { held self.new ≡ held self.old }
        ensures found { IfOk result
            (λ r. IfSome (held self.old) (λ f. option_map (λ v. v.items) r ≡ f)) }
        ensures got { IfOk result (λ r. gets self.old self.new (option_map (λ v. v.items) r)) };

    /// Is told why the file that it gave is refused. The file stays.
    fn refuse(&mut self, error: RestoreError)
        ensures stays { held self.new ≡ held self.old }
        ensures told { hears self.old self.new error };
}

/// A slot that keeps nothing and has nothing.
#[derive(Clone, Copy, Drop)]
pub struct NoSlot;

impl SaveSlot for NoSlot {
    ghost use Rattle.std.specs.Prelude.{◌≡◌, false, Some, None};

    ghost held = { λ _. Some None };

    ghost keeps = { λ _ _. Some false };

    ghost puts = { λ _ _ _ kept. kept ≡ false };

    ghost gets = { λ _ _ file. file ≡ None };

    fn put(&mut self, _file: &[u8]) -> bool {
        false
    }

    fn get(&mut self, _alloc: Global) -> Result<Option<Vec<u8>>, AllocError> {
        Ok(None)
    }

    fn refuse(&mut self, _error: RestoreError) {}
}
