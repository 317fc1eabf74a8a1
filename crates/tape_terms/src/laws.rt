//! Laws of terms: each is the contract of a function that does nothing.

ghost use Rattle.tape_terms.specs.Values.{ValuesAreWords, TermsUnfold};
ghost use Rattle.tape_terms.specs.Marks.{UnreadIsApart};

/// What a term denotes is a word.
pub fn values_are_words()
    ensures law { ValuesAreWords }
{}

/// A term denotes what it is of what its operands denote.
pub fn terms_unfold()
    ensures law { TermsUnfold }
{}

/// A term that doesn't read a place denotes the same on tapes that differ only there.
pub fn unread_is_apart()
    ensures law { UnreadIsApart }
{}
