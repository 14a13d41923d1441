//! Long texts, each told by its parts.

use std::alloc::{AllocError, Global};

/// What a part says, and for which numbers it stands there: from the first of the three to below the second, or to below
/// the third in a text that is one past a limit. In it `#` stands for the number and `@` for the one before.
pub(crate) type Part = (&'static str, u32, u32, u32);

/// The text of these parts, at the limit or one past it.
pub(crate) fn text_of(alloc: Global, parts: &[Part], is_past: bool) -> Result<String, AllocError> {
    let mut text = String::new(alloc);
    for (part, first, end, end_past) in parts {
        let end = if is_past { *end_past } else { *end };
        append(alloc, &mut text, part, [*first, end])?;
    }
    Ok(text)
}

// Appends a part for one number.
fn append_once(
    alloc: Global,
    text: &mut String,
    part: &str,
    number: u32,
) -> Result<(), AllocError> {
    for letter in part.chars() {
        let told = match letter {
            '#' => number,
            '@' => number.saturating_sub(1),
            _ => {
                text.push(letter)?;
                continue;
            }
        };
        let digits = format!(in alloc; "{told}")?;
        text.push_str(&digits)?;
    }
    Ok(())
}

// Appends a part for each number from the first one to below the end.
fn append(
    alloc: Global,
    text: &mut String,
    part: &str,
    numbers: [u32; 2],
) -> Result<(), AllocError> {
    for number in numbers[0]..numbers[1] {
        append_once(alloc, text, part, number)?;
    }
    Ok(())
}
