//! What holds of all lexemes: functions that do nothing and whose contracts are the laws.
ghost use Rattle.std.specs.Prelude.{◌≡◌, ◌<◌, ◌⊎◌, ◌↔◌, ◌≤◌, ℕ, List, take, length, IsTrue};
ghost use Rattle.gql_lexer.specs.declared.lexeme.Lexeme.{Lexeme};
ghost use Rattle.gql_front.specs.Longest.{Longest};
ghost use Rattle.gql_ast.specs.Label.{Label};
ghost use Rattle.gql_exprs.specs.LabelGrammar.{IsLabel, DerivesLabel};
ghost use Rattle.gql_exprs.specs.Machinery.LabelReaders.{read_label};
ghost use Rattle.gql_ast.specs.Tree.{Tree};
ghost use Rattle.gql_exprs.specs.Grammar.{Derives};

/// Lexemes derive at most one label expression.
pub fn labels_derive_once()
    ensures { (lexemes : List Lexeme) (some other : Label) → DerivesLabel lexemes some → DerivesLabel lexemes other → some ≡ other }
{}

/// What is read is the longest front that derives a label expression, and the one expression of that front; nothing is
/// read exactly where no front does.
pub fn the_longest_label_is_read()
    ensures { (lexemes : List Lexeme) → Longest IsLabel lexemes (read_label lexemes) }
{}

/// Lexemes derive at most one expression.
pub fn expressions_derive_once()
    ensures { (lexemes : List Lexeme) (some other : Tree) → Derives lexemes some → Derives lexemes other → some ≡ other }
{}
