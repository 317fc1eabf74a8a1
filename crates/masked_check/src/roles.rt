//! Questions about the roles of a tape.

ghost use Rattle.std.specs.Prelude.{◌≡◌, ℕ, ◌<◌, ◌≤◌, true, slice_get, Some, IfSome};
ghost use Rattle.masked_worlds.specs.Changes.{IsPivot, place_of};
ghost use Rattle.masked_check.specs.Shown.{AreBelow};

use masked_worlds::{Pivot, Role};

/// The number of the secret of which the word at a place is a share.
pub fn share_at(roles: &[Role], place: usize) -> Option<u32>
    ensures share { IfSome result (λ k. slice_get roles.now place ≡ Some (Role.Share k)) }
{
    match roles.get(place).copied() {
        Some(Role::Share(k)) => Some(k),
        _ => None,
    }
}

/// Whether the word at a place is a mask.
pub fn is_mask(roles: &[Role], place: usize) -> bool
    ensures mask { result ≡ true → slice_get roles.now place ≡ Some Role.Mask }
{
    match roles.get(place).copied() {
        Some(Role::Mask) => true,
        _ => false,
    }
}

/// Whether the word at a place is a share of this secret.
pub fn is_share(roles: &[Role], place: usize, secret: usize) -> bool
    ensures share { result ≡ true → slice_get roles.now place ≡ Some (Role.Share secret) }
{
    match share_at(roles, place) {
        Some(k) => k as usize == secret,
        None => false,
    }
}

/// Whether the words at two places are shares of one secret.
fn are_shares(roles: &[Role], place: usize, partner: usize) -> bool
    ensures shares { result ≡ true → IsPivot roles.now (Pivot.AtShares place partner) }
{
    match share_at(roles, place) {
        Some(k) => is_share(roles, partner, k as usize) && partner != place,
        None => false,
    }
}

/// Whether a word may be added at a pivot without a change of any secret.
pub fn is_pivot(roles: &[Role], pivot: Pivot) -> bool
    ensures pivot { result ≡ true → IsPivot roles.now pivot }
{
    match pivot {
        Pivot::AtMask(place) => is_mask(roles, place),
        Pivot::AtShares(place, partner) => are_shares(roles, place, partner),
    }
}

/// A count above the number of the secret of a share.
fn count_with(role: Role, count: usize) -> usize
    ensures kept { count ≤ result }
    ensures below { (k : ℕ) → role ≡ Role.Share k → k < result }
{
    match role {
        Role::Share(k) => {
            if count <= k as usize {
                k as usize + 1
            } else {
                count
            }
        }
        _ => count,
    }
}

/// A count above the numbers of all secrets.
pub fn count_secrets(roles: &[Role]) -> usize
    ensures below { AreBelow roles.now result }
{
    let mut count = 0;
    for role in roles {
        count = count_with(*role, count);
    }
    count
}

/// The place of the word of a pivot that is to be seen.
pub fn place_of_pivot(pivot: Pivot) -> usize
    ensures value { result ≡ place_of pivot }
{
    match pivot {
        Pivot::AtMask(place) => place,
        Pivot::AtShares(place, _) => place,
    }
}
