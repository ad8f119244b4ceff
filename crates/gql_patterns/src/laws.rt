//! What holds of all lexemes: functions that do nothing and whose contracts are the laws.

ghost use Rattle.std.specs.Prelude.{◌≡◌, List};
ghost use Rattle.gql_lexer.specs.declared.lexeme.Lexeme.{Lexeme};
ghost use Rattle.gql_ast.specs.declared.path.GraphPattern.{GraphPattern};
ghost use Rattle.gql_front.specs.Longest.{Longest};
ghost use Rattle.gql_patterns.specs.PathGrammar.{IsPath};
ghost use Rattle.gql_patterns.specs.PatternGrammar.{IsGraphPattern, Derives};
ghost use Rattle.gql_patterns.specs.Machinery.PathReaders.{read_path};
ghost use Rattle.gql_patterns.specs.Machinery.PatternReaders.{graph_pattern_of};

/// What is read of a graph pattern, and of a path pattern expression, is the longest front that derives one, with its one
/// tree; nothing is read exactly where no front derives one.
pub fn the_longest_pattern_is_read()
    ensures pattern { (lexemes : List Lexeme) → Longest IsGraphPattern lexemes (graph_pattern_of lexemes) }
    ensures path { (lexemes : List Lexeme) → Longest IsPath lexemes (read_path lexemes) }
{}

/// Lexemes derive at most one graph pattern.
pub fn patterns_derive_once()
    ensures { (lexemes : List Lexeme) (some other : GraphPattern) → Derives lexemes some → Derives lexemes other → some ≡ other }
{}
