//! The places of node types.

ghost use Rattle.std.specs.Prelude.{◌≡◌};
ghost use Rattle.gql_type.specs.BodyMeaning.{has_alias, place_of};

use gql_ast::TypeElement;
use gql_values3::Text;

/// The place of the node type of that alias among the node types, or their number where none has it.
pub fn place_of(elements: &[TypeElement], name: &str) -> u64
    ensures { result ≡ place_of name.now elements.now }
{
    let mut place: u64 = 0;
    for element in elements {
        if let TypeElement::Node(alias, _) = element {
            if has_alias(name, alias) {
                return place;
            }
            place += 1;
        }
    }
    place
}

fn has_alias(name: &str, alias: &Option<Text>) -> bool
    ensures { result ≡ has_alias name.now alias.now }
{
    match alias {
        None => false,
        Some(alias) => name == alias.as_str(),
    }
}
