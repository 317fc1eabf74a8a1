//! Laws of all worlds: each is the contract of a function that does nothing.

ghost use Rattle.masked_worlds.specs.declared.role.Role.{Role};
ghost use Rattle.masked_worlds.specs.Tapes.{TapesComeOnce};
ghost use Rattle.std.specs.Prelude.{◌≡◌, List, length, ℕ};
ghost use Rattle.masked_worlds.specs.Secrets.{AreNumbered, SecretsComeAlike, SecretsAreTold, LoneShareIsSecret};
ghost use Rattle.masked_worlds.specs.Changes.{ChangesPermute, OthersAreApart};
ghost use Rattle.masked_worlds.specs.Rule.{DeterminedTellsNothing, CarriedTellsNothing, ShiftedTellsNothing, CutTellsNothing, ApartTellsNothing};
ghost use Rattle.masked_worlds.specs.Places.{SeenAlikeIsOneCourse, WrittenAreSilent, SilentIsSecure, SecureIsSilent, EarlierIsIndependent, MaskedSecurityTransfers};
ghost use Rattle.masked_worlds.specs.ByTwo.{SilentIsSecureByTwo, MaskedSecurityByTwoTransfers};
ghost use Rattle.masked_worlds.specs.Forms.{FormsAreDetermined, FormIsReplaced, FormIsCut, FormIsShifted, FormIsTurned, TurnsCompose, AddedIsTurn, SumsAreTurns, FormsLeaveOut, FormsAreSilent, FormsAreSilentTogether};

/// Each tape stands in the list of all tapes once, and nothing else stands there.
pub fn tapes_come_once()
    ensures law { (roles : List Role) (words : List ℕ) → TapesComeOnce roles words }
{}

/// The tuples of secrets that come are all those of words of 32 bits, each in equally many worlds, if the numbers of the secrets have no gaps.
pub fn secrets_come_alike()
    ensures law { (roles : List Role) (words : List ℕ) → length roles ≡ length words → AreNumbered roles → SecretsComeAlike roles words }
{}

/// A secret with one share alone is the word of this share: what is claimed of it is claimed of a word that nothing hides.
pub fn lone_share_is_secret()
    ensures law { LoneShareIsSecret }
{}

/// A secret itself does tell something: that something tells nothing isn't said of everything.
pub fn secrets_are_told()
    ensures law { SecretsAreTold }
{}

/// A change of tapes that can be taken back takes each of them as often as it stood.
pub fn changes_permute()
    ensures law { ChangesPermute }
{}

/// Whatever is determined by things that tell nothing of the secrets, or is seen as they are of tapes that were changed without a change of the
/// secrets, tells nothing; so a form that a mask is added to, or a share whose partner isn't seen, may be cut.
pub fn forms_are_cut()
    ensures determined { DeterminedTellsNothing }
    ensures carried { CarriedTellsNothing }
    ensures shifted { ShiftedTellsNothing }
    ensures cut { CutTellsNothing }
{}

/// What hangs, of each secret, on all shares but one tells nothing of the secrets.
pub fn unseen_shares_hide()
    ensures law { ApartTellsNothing }
{}

/// A task is secure by one probe in all worlds, if they are seen alike and no place before the fuel tells anything of the secrets; and
/// where it is secure, no place does. Each place before the first one that may tell something is independent of them.
pub fn silent_is_secure()
    ensures course { SeenAlikeIsOneCourse }
    ensures written { WrittenAreSilent }
    ensures secure { SilentIsSecure }
    ensures silent { SecureIsSilent }
    ensures earlier { EarlierIsIndependent }
{}

/// A task that is secure by one probe in all worlds is so in every core, beside any other tasks and after every list of events.
pub fn masked_security_transfers()
    ensures transfers { MaskedSecurityTransfers }
{}

/// A task is secure by two probes in all worlds, if every two of the places that it may write together tell nothing of the secrets.
pub fn silent_is_secure_by_two()
    ensures secure { SilentIsSecureByTwo }
{}

/// And so it is in every core.
pub fn masked_security_by_two_transfers()
    ensures transfers { MaskedSecurityByTwoTransfers }
{}

/// The rule as a checker goes by it. What leaves and forms show tells nothing if other forms that determine them do; if one of them is a mask with
/// another word added, or a share whose partner isn't seen, or a bijection or an image of this, and the others with this place as a leaf tell nothing; or if they
/// leave out a share of each secret. And a place whose two values are such forms is silent. A form that hangs on the words at some places alone hangs
/// on no other.
pub fn forms_come_down()
    ensures determined { FormsAreDetermined }
    ensures replaced { FormIsReplaced }
    ensures cut { FormIsCut }
    ensures shifted { FormIsShifted }
    ensures turned { FormIsTurned }
    ensures chain { TurnsCompose }
    ensures added { AddedIsTurn }
    ensures sums { SumsAreTurns }
    ensures left_out { FormsLeaveOut }
    ensures silent { FormsAreSilent }
    ensures together { FormsAreSilentTogether }
    ensures apart { OthersAreApart }
{}
