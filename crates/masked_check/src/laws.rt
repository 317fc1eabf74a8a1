//! Laws of what is shown: each is the contract of a function that does nothing.

ghost use Rattle.std.specs.Prelude.{◌≡◌, List, length, ℕ};
ghost use Rattle.masked_worlds.specs.declared.role.Role.{Role};
ghost use Rattle.masked_worlds.specs.Secrets.{AreNumbered, TellsNothing};
ghost use Rattle.masked_check.specs.Shown.{IsShown};

/// What is shown tells nothing of the secrets, in all worlds of a tape with these roles.
pub fn shown_tells_nothing()
    ensures law { (roles : List Role) (words : List ℕ) → length roles ≡ length words → AreNumbered roles
        → (seen : List ℕ → List ℕ) → IsShown roles seen → TellsNothing roles words seen }
{}
