//! The texts of names: variables, parameters, properties and labels, and the headers of columns.

ghost use Rattle.std.specs.Prelude.{◌≡◌, ◌++◌, OnOk, codes};
ghost use Rattle.gql_ast.specs.ValueText.{name_text, any_name_text, header_text, ticked_text};

use super::escapes::{Setting, push_escaped};
use gql_values3::{OutOfMemory, Text, plain_name, spells_name};

/// Adds a name; one that is no plain name stands between backticks.
pub fn push_name(text: &mut Text, name: &str) -> Result<(), OutOfMemory>
    ensures { OnOk result (text.new ≡ text.old ++ name_text name.now) }
{
    if plain_name(name) {
        text.push_str(name)
    } else {
        push_ticked(text, name)
    }
}

/// Adds the name of a property or a label, where reserved words stand plain.
pub fn push_any_name(text: &mut Text, name: &str) -> Result<(), OutOfMemory>
    ensures { OnOk result (text.new ≡ text.old ++ any_name_text name.now) }
{
    if spells_name(name) {
        text.push_str(name)
    } else {
        push_ticked(text, name)
    }
}

/// Adds the name of a column as it stands above the column: as it is, but for control characters.
pub fn push_header(text: &mut Text, name: &str) -> Result<(), OutOfMemory>
    ensures { OnOk result (text.new ≡ text.old ++ header_text name.now) }
{
    push_escaped(text, Setting::Header, name)
}

/// Adds a name between backticks.
fn push_ticked(text: &mut Text, name: &str) -> Result<(), OutOfMemory>
    ensures { OnOk result (text.new ≡ text.old ++ ticked_text name.now) }
{
    text.push_str("`")?;
    push_escaped(text, Setting::Name, name)?;
    text.push_str("`")
}

/// Adds a parameter, by its name.
pub fn push_parameter(text: &mut Text, name: &str) -> Result<(), OutOfMemory>
    ensures { OnOk result (text.new ≡ text.old ++ (codes "$" ++ name_text name.now)) }
{
    text.push_str("$")?;
    push_name(text, name)
}

/// Adds a property of a variable.
pub fn push_property(text: &mut Text, name: &str, property: &str) -> Result<(), OutOfMemory>
    ensures { OnOk result (text.new ≡ text.old ++ (name_text name.now ++ codes "." ++ any_name_text property.now)) }
{
    push_name(text, name)?;
    text.push_str(".")?;
    push_any_name(text, property)
}
