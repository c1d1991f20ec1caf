//! What follows from the definitions alone.
ghost use Rattle.std.specs.Prelude.{◌≡◌, ℕ, List, All, Some, Result, Ok};
ghost use Rattle.cb_words.specs.declared.fault.BadWords.{BadWords};
ghost use Rattle.cb_words.specs.declared.job.Job.{Job};
ghost use Rattle.cb_words.specs.declared.job.Job.TheVariants.{Specialise};
ghost use Rattle.cb_words.specs.Specialise.{words_asked, IsDefinition};
ghost use Rattle.cb_words.specs.Says.{Says};

/// Words say one thing.
pub fn one_saying()
    ensures { (here : List ℕ) (words : List (List ℕ)) (one other : Result Job BadWords)
        → Says here words one → Says here words other → one ≡ other }
{}

/// Words ask for the reached lines of a source exactly where the first one is `specialise`, those behind it are the words of `-D`,
/// and each of these is a definition.
pub fn asks_to_specialise()
    ensures asks { (here : List ℕ) (words found : List (List ℕ)) → words_asked words ≡ Some found → All IsDefinition found
        → Says here words (Ok (Specialise found)) }
    ensures asked { (here : List ℕ) (words found : List (List ℕ)) → Says here words (Ok (Specialise found))
        → words_asked words ≡ Some found }
    ensures sound { (here : List ℕ) (words found : List (List ℕ)) → Says here words (Ok (Specialise found))
        → All IsDefinition found }
{}
