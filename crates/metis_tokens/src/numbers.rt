//! Writes numbers.
ghost use Rattle.std.specs.Prelude.{◌≡◌, ◌++◌, OnOk, codes, decimal, map, string_bytes};
ghost use Rattle.metis_tokens.specs.Terms.{added};

use std::alloc::AllocError;

/// Appends the numbers, each behind a space.
pub fn push_numbers(line: &mut String, numbers: &[u32]) -> Result<(), AllocError>
    ensures { OnOk result (string_bytes line.new ≡ string_bytes line.old ++ added (map decimal numbers.now)) }
{
    for number in numbers {
        push_number(line, *number)?;
    }
    Ok(())
}

fn push_number(line: &mut String, number: u32) -> Result<(), AllocError>
    ensures { OnOk result (string_bytes line.new ≡ string_bytes line.old ++ (codes " " ++ decimal number)) }
{
    write!(line, " {number}")
}
