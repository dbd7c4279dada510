//! Rows of tables, and texts made for them.
use ejson_value::Text;
use std::alloc::Global;
use std::test::Fail;

/// The two texts of a row: a text, ` => `, and what it gives.
pub(crate) fn parts(row: &str) -> (&str, &str) {
    match row.split_once(" => ") {
        Some((text, wanted)) => (text, wanted),
        None => (row, ""),
    }
}

// The letter and the number of `a 256`: the letter so many times.
fn push_times(made: &mut Text, piece: &str) -> Result<(), Fail> {
    let Some((letter, number)) = piece.split_once(" ") else {
        return Ok(());
    };
    for _ in 0..number.parse::<u16>().unwrap_or(0) {
        made.push_str(letter)?;
    }
    Ok(())
}

/// The text, where `@a 256@` stands for 256 times the letter `a`.
pub(crate) fn filled(alloc: Global, text: &str) -> Result<Text, Fail> {
    let mut made = Text::new(alloc);
    let mut is_counted = false;
    for piece in text.split('@') {
        if is_counted {
            push_times(&mut made, piece)?;
        } else {
            made.push_str(piece)?;
        }
        is_counted = !is_counted;
    }
    Ok(made)
}

/// Whether what was given is what is wanted, where `same` stands for the input.
pub(crate) fn fits(given: &Text, input: &Text, wanted: &str) -> bool {
    given.as_str() == wanted || (wanted == "same" && given.as_str() == input.as_str())
}
