//! What follows from the definitions alone.
ghost use Rattle.std.specs.Prelude.{◌≡◌, ℕ, List};
ghost use Rattle.cb_compdb.specs.Pieces.{HasWords, HasOpenQuote};
ghost use Rattle.cb_compdb.specs.Databases.{IsDatabase, HasFault};
ghost use Rattle.cb_compdb.specs.declared.entry.Entry.{Entry};
ghost use Rattle.cb_compdb.specs.declared.fault.BadDatabase.{BadDatabase};

/// A command has at most one list of words, and none where a quote has no end.
pub fn one_splitting()
    ensures words { (command : List ℕ) (words others : List (List ℕ))
        → HasWords command words → HasWords command others → words ≡ others }
    ensures no_words { (command : List ℕ) (words : List (List ℕ)) → HasWords command words → HasOpenQuote command → ⊥ }
{}

/// A file has at most one list of entries and at most one first fault, and never both.
pub fn one_database()
    ensures entries { (bytes : List ℕ) (entries others : List Entry)
        → IsDatabase bytes entries → IsDatabase bytes others → entries ≡ others }
    ensures fault { (bytes : List ℕ) (bad other : BadDatabase)
        → HasFault bytes bad → HasFault bytes other → bad ≡ other }
    ensures not_both { (bytes : List ℕ) (entries : List Entry) (bad : BadDatabase)
        → IsDatabase bytes entries → HasFault bytes bad → ⊥ }
{}
