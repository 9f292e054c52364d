ghost use Rattle.std.specs.Prelude.{◌≡◌, ◌++◌, ◌∷◌, [], OnOk};
ghost use Rattle.std.specs.String.{string_bytes};
ghost use Rattle.input_file.specs.Printed.{header_line, setting_line, value_part};

use crate::fault::NoMemory;

/// Appends the header of a block.
pub fn print_header(text: &mut String, name: &str) -> Result<(), NoMemory>
    ensures { OnOk result (string_bytes text.new ≡ string_bytes text.old ++ (header_line name.now ++ 10 ∷ [])) }
{
    text.push_str("<")?;
    text.push_str(name)?;
    text.push_str(">\n")?;
    Ok(())
}

/// Appends the line of a key and its value.
pub fn print_setting(text: &mut String, key: &str, value: &str) -> Result<(), NoMemory>
    ensures { OnOk result (string_bytes text.new
        ≡ string_bytes text.old ++ (setting_line key.now value.now ++ 10 ∷ [])) }
{
    text.push_str(key)?;
    text.push_str(" =")?;
    print_value(text, value)
}

fn print_value(text: &mut String, value: &str) -> Result<(), NoMemory>
    ensures { OnOk result (string_bytes text.new ≡ string_bytes text.old ++ (value_part value.now ++ 10 ∷ [])) }
{
    if !value.is_empty() {
        text.push_str(" ")?;
        text.push_str(value)?;
    }
    text.push_str("\n")?;
    Ok(())
}
