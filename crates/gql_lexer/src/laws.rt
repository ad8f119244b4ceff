//! What holds of all bytes: functions that do nothing and whose contracts are the laws.
ghost use Rattle.std.specs.Prelude.{◌≡◌, ◌⊎◌, ℕ, List, ◌∷◌, Some};
ghost use Rattle.gql_lexer.specs.declared.lexeme.Lexeme.{Lexeme};
ghost use Rattle.gql_lexer.specs.Lexemes.{lexemes_of};
ghost use Rattle.gql_lexer.specs.Laws.{PiecesJoin, SpansJoin, SpansOfPiecesJoin, LexemesOfPiecesJoin, PiecesAreWhole, NoneIsLonger, IsAForm, AreBad, IsOpen, IsOpenBlock};

/// The bytes of the pieces, each with the `;` that ended it, are the bytes.
pub fn pieces_join()
    ensures { (bytes : List ℕ) → PiecesJoin bytes }
{}

/// The bytes of the forms are the bytes: nothing is left out, and nothing stands twice.
pub fn spans_join()
    ensures { (bytes : List ℕ) → SpansJoin bytes }
{}

/// Pieces may be read one by one: the lexemes of the pieces, each followed by the `;` that ended it, are those of the
/// whole text, and there are none where one of a piece is bad. The same holds of the forms, gaps and bad ones included.
/// A piece cut again is one piece, or none where it is empty.
pub fn pieces_are_read_one_by_one()
    ensures forms { (bytes : List ℕ) → SpansOfPiecesJoin bytes }
    ensures lexemes { (bytes : List ℕ) → LexemesOfPiecesJoin bytes }
    ensures whole { (bytes : List ℕ) → PiecesAreWhole bytes }
{}

/// At a place stands the longest form that could.
pub fn the_longest_form_counts()
    ensures longest { (bytes : List ℕ) → NoneIsLonger bytes }
    ensures stands { (bytes : List ℕ) → IsAForm bytes }
{}

/// A text has one list of lexemes.
pub fn lexemes_are_one_list()
    ensures { (bytes : List ℕ) (some others : List Lexeme) → lexemes_of bytes ≡ Some some → lexemes_of bytes ≡ Some others → some ≡ others }
{}

/// A string, a delimited name or a comment that is not closed is bad up to the end.
pub fn what_is_open_is_bad()
    ensures single { (bytes : List ℕ) → IsOpen 39 bytes → AreBad (39 ∷ bytes) }
    ensures double { (bytes : List ℕ) → IsOpen 34 bytes → AreBad (34 ∷ bytes) }
    ensures ticked { (bytes : List ℕ) → IsOpen 96 bytes → AreBad (96 ∷ bytes) }
    ensures block { (bytes : List ℕ) → IsOpenBlock bytes → AreBad (47 ∷ 42 ∷ bytes) }
{}
