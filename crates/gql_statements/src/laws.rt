//! What holds of all lexemes: a function that does nothing and whose contract is the law.

ghost use Rattle.std.specs.Prelude.{◌≡◌, List};
ghost use Rattle.gql_lexer.specs.declared.lexeme.Lexeme.{Lexeme};
ghost use Rattle.gql_ast.specs.declared.statement.Statement.{Statement};
ghost use Rattle.gql_statements.specs.StatementGrammar.{Derives};

/// Lexemes derive at most one statement.
pub fn statements_derive_once()
    ensures { (lexemes : List Lexeme) (some other : Statement) → Derives lexemes some → Derives lexemes other → some ≡ other }
{}
